//! A log, and the calls of its tokens.
ghost use Rattle.std.specs.Prelude.{◌≡◌, ◌≢◌, ◌⊎◌, [], ◌∷◌, ◌++◌};
ghost use mathlib.Core.List.{IsPrefix};
ghost use Rattle.rr_log.specs.Entries.{whole, beginning, Follows};

use crate::moves;
use crate::name::Name;
use crate::pen::Pen;
use crate::seen::Seen;
use std::marker::Model;

/// A log of entries, each with its caller. Contracts see its identity.
///
/// It has no bytes, and its calls do nothing when they run. A log is shared by reference. An entry that is a value
/// with bytes is only read. Not in iceoryx2.
pub struct Log<E> {
    name: Name<E>,
}

impl<E> Model for Log<E> {
    ghost use Rattle.std.specs.Prelude.{ℕ};
    ghost use base.Stored.{coded_ℕ};

    ghost Value = { ℕ };

    ghost coded = { coded_ℕ };

    ghost view = { λ l. l.name.log_id };
}

impl<E> Log<E> {
    /// Makes a log without entries, and its pen. Not in iceoryx2.
    pub fn open() -> (Log<E>, Pen<E>)
        ensures { result.1 ≡ whole result.0 [] }
    {
        let (name, pen) = moves::open();
        (Log { name }, pen)
    }

    /// Makes a caller that has seen no entries. Not in iceoryx2.
    pub fn caller(&self) -> Seen<E>
        ensures { (result.log_id ≡ self.now) × (result.entries ≡ []) }
    {
        moves::enter(&self.name)
    }

    /// Appends an entry of a caller, which has seen the whole log afterwards: the entries that it had seen, entries
    /// of others, and this one. Not in iceoryx2.
    pub fn append(&self, pen: &mut Pen<E>, seen: &mut Seen<E>, entry: &E)
        requires pen { pen.old.log_id ≡ self.now }
        requires seen { seen.old.log_id ≡ self.now }
        ensures pen { pen.new ≡ whole self.now (pen.old.entries ++ (seen.old.caller, entry.now) ∷ []) }
        ensures seen { seen.new ≡ beginning self.now seen.old.caller pen.new.entries }
        ensures follows { Follows seen.old.caller seen.old.entries pen.old.entries }
    {
        moves::show(pen, seen);
        moves::add(pen, seen, entry);
    }

    /// Shows a caller all entries. The new ones are all from other callers. Not in iceoryx2.
    pub fn catch_up(&self, pen: &mut Pen<E>, seen: &mut Seen<E>)
        requires pen { pen.old.log_id ≡ self.now }
        requires seen { seen.old.log_id ≡ self.now }
        ensures pen { pen.new ≡ pen.old }
        ensures seen { seen.new ≡ beginning self.now seen.old.caller pen.old.entries }
        ensures follows { Follows seen.old.caller seen.old.entries pen.old.entries }
    {
        moves::show(pen, seen);
    }

    /// Proves that the entries seen by one of two callers are a prefix of the other's. Changes nothing. Not in
    /// iceoryx2.
    pub fn compare(&self, one: &mut Seen<E>, other: &mut Seen<E>)
        requires one { one.old.log_id ≡ self.now }
        requires other { other.old.log_id ≡ self.now }
        ensures same { (one.new ≡ one.old) × (other.new ≡ other.old) }
        ensures begins { IsPrefix one.old.entries other.old.entries ⊎ IsPrefix other.old.entries one.old.entries }
        ensures differ { one.old.caller ≢ other.old.caller }
    {
        moves::compare(one, other);
    }
}

impl<E> Drop for Log<E> {
    fn drop(self) {
        let Self { name } = self;
        drop(name);
    }
}
