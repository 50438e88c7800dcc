//! The entries that a caller has seen.
ghost use Rattle.std.specs.Prelude.{ℕ, List};
ghost use base.Stored.{coded×, coded_ℕ, coded_list};
ghost use Rattle.rr_log.specs.Owned.{seen_owns};

use std::marker::{Model, PhantomData};

/// A caller. Contracts see its log, its identity, and the prefix of the log that it has seen, which has all of its
/// entries. It has no bytes. Not in iceoryx2.
pub struct Seen<E> {
    pub(crate) marker: PhantomData<E>,
    pub ghost log_id: { ℕ },
    pub ghost caller: { ℕ },
    pub ghost entries: { List (ℕ × E) } by { coded_list (coded× coded_ℕ E.code) },
}

impl<E> Model for Seen<E> {
    ghost also_owns = { λ s. seen_owns E.row.coded s.log_id s.caller s.entries };
}

unsafe impl<E> Send for Seen<E> {}

impl<E> Drop for Seen<E> {
    fn drop(self) {
        let Self { marker: _ } = self;
    }
}
