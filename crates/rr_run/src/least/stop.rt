//! Why a list ends early.
use std::alloc::AllocError;

/// Why a list that fills a pool ends before its last command.
#[derive(Clone, Copy, Debug, PartialEq, Eq)]
pub(crate) enum Stop {
    /// The client's pool is full.
    Full,
    /// There was no memory, or no number is left.
    NoMemory,
}

impl From<AllocError> for Stop {
    ghost use Rattle.std.specs.Prelude.{◌≡◌};
    ghost use Rattle.rr_run.specs.declared.least.stop.Stop.TheVariants.{NoMemory};

    ghost from_gives = { λ _ stop. stop ≡ NoMemory };

    fn from(_error: AllocError) -> Self {
        Stop::NoMemory
    }
}
