//! Changes of the tokens of a log. None does anything when it runs, and each is proved by hand.
ghost use Rattle.std.specs.Prelude.{◌≡◌, ◌≢◌, ◌⊎◌, [], ◌∷◌, ◌++◌};
ghost use mathlib.Core.List.{IsPrefix};
ghost use Rattle.rr_log.specs.Entries.{whole, beginning, Follows};

use crate::name::Name;
use crate::pen::Pen;
use crate::seen::Seen;
use std::marker::PhantomData;

/// Makes a log without entries, and its pen.
pub(crate) fn open<E>() -> (Name<E>, Pen<E>)
    ensures { result.1 ≡ whole result.0.log_id [] }
{
    (
        Name {
            marker: PhantomData,
        },
        Pen {
            marker: PhantomData,
        },
    )
}

/// Makes a caller that has seen no entries.
pub(crate) fn enter<E>(name: &Name<E>) -> Seen<E>
    ensures { (result.log_id ≡ name.now.log_id) × (result.entries ≡ []) }
{
    let _ = name;
    Seen {
        marker: PhantomData,
    }
}

/// Shows a caller all entries. The new ones are all from other callers.
pub(crate) fn show<E>(pen: &mut Pen<E>, seen: &mut Seen<E>)
    requires log { seen.old.log_id ≡ pen.old.log_id }
    ensures pen { pen.new ≡ pen.old }
    ensures seen { seen.new ≡ beginning pen.old.log_id seen.old.caller pen.old.entries }
    ensures follows { Follows seen.old.caller seen.old.entries pen.old.entries }
{}

/// Adds an entry of a caller that has seen all entries.
pub(crate) fn add<E>(pen: &mut Pen<E>, seen: &mut Seen<E>, entry: &E)
    requires log { seen.old.log_id ≡ pen.old.log_id }
    requires all { seen.old.entries ≡ pen.old.entries }
    ensures pen { pen.new ≡ whole pen.old.log_id (pen.old.entries ++ (seen.old.caller, entry.now) ∷ []) }
    ensures seen { seen.new ≡ beginning pen.old.log_id seen.old.caller pen.new.entries }
{}

/// Proves that the entries seen by one of two callers of a log are a prefix of the other's. Changes nothing.
pub(crate) fn compare<E>(one: &mut Seen<E>, other: &mut Seen<E>)
    requires log { one.old.log_id ≡ other.old.log_id }
    ensures same { (one.new ≡ one.old) × (other.new ≡ other.old) }
    ensures begins { IsPrefix one.old.entries other.old.entries ⊎ IsPrefix other.old.entries one.old.entries }
    ensures differ { one.old.caller ≢ other.old.caller }
{}
