//! The id by which a caller names a handle.
ghost use Rattle.std.specs.Prelude.{◌≡◌};

use rr_table::Place;
use std::marker::Model;

/// The number of a handle, and where it is kept. Contracts see the number alone.
///
/// The place is tried first and checked, so a wrong one costs only a search. Not in iceoryx2.
#[derive(Drop)]
pub struct HandleId {
    number: u64,
    place: Place,
}

impl Model for HandleId {
    ghost use Rattle.std.specs.Prelude.{ℕ};

    ghost Value = { ℕ };

    ghost view = { λ id. id.number };
}

impl HandleId {
    /// The id of the handle with this number, which is looked for here first.
    pub fn new(number: u64, place: Place) -> Self
        ensures { result ≡ number }
    {
        HandleId { number, place }
    }

    /// The number.
    #[inline(always)]
    pub fn number(&self) -> u64
        ensures { result ≡ self.now }
    {
        self.number
    }

    /// Where it is looked for first.
    #[inline(always)]
    pub fn place(&self) -> Place {
        self.place
    }
}
