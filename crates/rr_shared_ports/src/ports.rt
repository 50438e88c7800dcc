//! The requirements of the lock and the claims on a hub.
use rr_ports::{BackpressureFn, Body, Hub};

/// A hub of ports that can be shared, as `Hub` of `rr_ports` is, of either family. Not in iceoryx2.
pub trait Ports: Drop {
    ghost use Rattle.std.specs.Prelude.{◌≡◌, ℕ, List, [], ◌∷◌};
    ghost use Rattle.rr_protocol.specs.declared.kind.Kind.{Kind};
    ghost use Rattle.rr_protocol.specs.declared.limits.Limits.{Limits};

    /// A hub without ports, of these limits and of this node id.
    ghost empty: { Limits → ℕ → Self };

    /// A number names a port or a handle of this kind.
    ghost names: { Self → ℕ → Kind → Type 0 };

    /// Calls of ports lead from one state to another, and known facts about numbers stay true, except for these
    /// numbers.
    ghost steps: { List ℕ → Self → Self → Type 0 };

    /// Nothing is known of a number.
    ghost is_free: { Self → ℕ → Type 0 };

    /// A port or a handle was released.
    ghost ends: { Self → ℕ → Self → Type 0 };

    /// How many numbers are left.
    ghost numbers: { Self → ℕ };

    /// Returns how many numbers are left.
    fn numbers_left(&self) -> u64
        ensures { result ≡ numbers self.now };

    /// A state is reached from itself by no call.
    ghost rests: { (state : Self) → steps [] state state };

    /// Steps that keep all numbers keep their kinds.
    ghost stays: { (old new : Self) → steps [] old new → (n : ℕ) (kind : Kind) → names old n kind
        → names new n kind };

    /// Steps that keep all numbers but one keep the kinds of the others.
    ghost stays_but: { (m : ℕ) (old new : Self) → steps (m ∷ []) old new → (n : ℕ) (kind : Kind) → (n ≡ m → ⊥)
        → names old n kind → names new n kind };

    /// Steps that keep all numbers but one, whose kind is unchanged, keep all kinds.
    ghost renewed: { (m : ℕ) (kind : Kind) (old new : Self) → steps (m ∷ []) old new → names old m kind
        → names new m kind → (n : ℕ) (other : Kind) → names old n other → names new n other };

    /// A free number names nothing.
    ghost unnamed: { (state : Self) (n : ℕ) → is_free state n → (kind : Kind) → names state n kind → ⊥ };
}

/// The bound of user headers: any type with a default value that can be dropped. Not in iceoryx2.
pub trait Header: Default + Drop {}

impl<T: Default + Drop> Header for T {}

impl<QB: Body, QH: Header, PB: Body, PH: Header, K: BackpressureFn> Ports
    for Hub<QB, QH, PB, PH, K> {
    ghost use Rattle.std.specs.Prelude.{◌≡◌, []};
    ghost use Rattle.rr_protocol.specs.Releases.{after_release};
    ghost use Rattle.rr_protocol.specs.State.{empty_hub};
    ghost use Rattle.rr_ports.specs.Facts.{IsFree, Names, numbers_left};
    ghost use Rattle.rr_shared_ports.specs.Leading.{Steps, rest};
    ghost use Rattle.rr_shared_ports.specs.Numbers.{names_nothing, stay_all, stay_but, stay_renewed};

    ghost empty = { empty_hub };

    ghost names = { Names };

    ghost steps = { Steps K.action QH.is_default PH.is_default };

    ghost is_free = { IsFree [] };

    ghost ends = { λ old n new. new ≡ after_release old n };

    ghost numbers = { numbers_left };

    fn numbers_left(&self) -> u64 {
        self.numbers_left()
    }

    ghost rests = { rest K.action QH.is_default PH.is_default };

    ghost stays = { λ old new steps. stay_all old new steps.0 };

    ghost stays_but = { λ m old new steps. stay_but m old new steps.0 };

    ghost renewed = { λ m kind old new steps. stay_renewed m kind old new steps.0 };

    ghost unnamed = { names_nothing };
}
