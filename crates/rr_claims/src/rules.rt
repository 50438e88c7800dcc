//! Claims and their rules.

/// The meaning of a claim on a number, as a property of the state. Not in iceoryx2.
pub trait Says<S, W> {
    ghost use Rattle.std.specs.Prelude.{ℕ};

    ghost says: { S → ℕ → W → Type 0 };
}

/// A value by which a number is claimed, and as what: a port's handle, by its number and its kind. Not in iceoryx2.
pub trait Named<W> {
    ghost use Rattle.std.specs.Prelude.{ℕ};

    ghost number: { Self → ℕ };

    ghost what: { W };
}
