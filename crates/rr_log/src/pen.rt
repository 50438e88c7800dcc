//! The right to append entries.
ghost use Rattle.std.specs.Prelude.{ℕ, List};
ghost use base.Stored.{coded×, coded_ℕ, coded_list};
ghost use Rattle.rr_log.specs.Owned.{pen_owns};

use std::marker::{Model, PhantomData};

/// The only right to append entries to a log. Contracts see the log's identity and all its entries. It has no bytes.
///
/// Under a lock only the lock's holder moves it, so the locked value can tie its state to the entries. Not in
/// iceoryx2.
pub struct Pen<E> {
    pub(crate) marker: PhantomData<E>,
    pub ghost log_id: { ℕ },
    pub ghost entries: { List (ℕ × E) } by { coded_list (coded× coded_ℕ E.code) },
}

impl<E> Model for Pen<E> {
    ghost also_owns = { λ p. pen_owns E.row.coded p.log_id p.entries };
}

unsafe impl<E> Send for Pen<E> {}

impl<E> Drop for Pen<E> {
    fn drop(self) {
        let Self { marker: _ } = self;
    }
}
