//! The error of a run.
use std::alloc::AllocError;
use thiserror::Error;

/// There was no memory for the replies of a run.
#[derive(Clone, Copy, Debug, PartialEq, Eq, Hash, Error)]
#[error("OutOfMemory")]
pub struct OutOfMemory;

impl From<AllocError> for OutOfMemory {
    ghost use Rattle.std.specs.Prelude.{⊤};

    ghost from_gives = { λ _ _. ⊤ };

    fn from(_error: AllocError) -> Self {
        OutOfMemory
    }
}
