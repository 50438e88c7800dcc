//! The identity of a log.
ghost use Rattle.std.specs.Prelude.{ℕ};
ghost use base.Fml.{ftrue};

use std::marker::{Model, PhantomData};

/// The identity of a log. It has no bytes and owns nothing, so it may be shared by all threads.
pub struct Name<E> {
    pub(crate) marker: PhantomData<E>,
    pub ghost log_id: { ℕ },
}

impl<E> Model for Name<E> {
    ghost also_owns = { λ _. ftrue };
}

unsafe impl<E> Send for Name<E> {}

unsafe impl<E> Sync for Name<E> {}

impl<E> Drop for Name<E> {
    fn drop(self) {
        let Self { marker: _ } = self;
    }
}
