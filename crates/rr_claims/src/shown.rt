//! A value as proofs see it, and a type that is only named.
ghost use Rattle.std.specs.Prelude.{◌≡◌};
ghost use base.Fml.{ftrue};

use std::marker::{Model, PhantomData};

/// A value as proofs see it, which may go to any thread. It has no bytes and owns nothing.
///
/// Of std's `Snapshot` no proof is generated that it may cross threads, and so of nothing that holds one.
pub(crate) struct Shown<S> {
    marker: PhantomData<S>,
    pub(crate) ghost value: { S },
}

impl<S> Model for Shown<S> {
    ghost also_owns = { λ _. ftrue };
}

impl<S> Shown<S> {
    /// Shows a value.
    pub(crate) fn of(value: &S) -> Shown<S>
        ensures { result.value ≡ value.now }
    {
        let _ = value;
        Shown {
            marker: PhantomData,
        }
    }
}

unsafe impl<S> Send for Shown<S> {}

unsafe impl<S> Sync for Shown<S> {}

impl<S> Drop for Shown<S> {
    fn drop(self) {
        let Self { marker: _ } = self;
    }
}

/// A type that is only named, which may go to any thread. It has no bytes.
#[derive(Drop)]
pub(crate) struct Under<P> {
    pub(crate) marker: PhantomData<P>,
}

unsafe impl<P> Send for Under<P> {}

unsafe impl<P> Sync for Under<P> {}
