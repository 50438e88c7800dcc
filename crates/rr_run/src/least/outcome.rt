//! Outcomes of commands.
ghost use Rattle.std.specs.Prelude.{◌≡◌};
ghost use Rattle.rr_run.specs.Filled.{outcome_of};

use rr_protocol::{LoanError, Reply, RequestSendError, SendError};

/// The outcome of a command in a list that fills a pool.
#[derive(Clone, Copy, Debug, PartialEq, Eq)]
pub(crate) enum Outcome {
    /// A port was created under this number.
    Created(u64),
    /// A request was sent under this number.
    Pending(u64),
    /// A request was received.
    Active,
    /// A request was loaned.
    Loaned,
    /// A handle was released.
    Done,
    /// The client's pool is full.
    Full,
    /// Any other reply.
    Other,
}

/// Returns the outcome that a reply reports.
pub(crate) fn outcome_of(reply: &Reply<u64, u64>) -> Outcome
    ensures { result ≡ outcome_of reply.now }
{
    match reply {
        Reply::Created(number) => Outcome::Created(*number),
        Reply::Pending(number, _) => Outcome::Pending(*number),
        Reply::Active(_, _) => Outcome::Active,
        Reply::Loaned(_) => Outcome::Loaned,
        Reply::Done => Outcome::Done,
        Reply::LoanError(LoanError::OutOfMemory) => Outcome::Full,
        Reply::RequestError(
            RequestSendError::SendError(SendError::LoanError(LoanError::OutOfMemory)),
        ) => Outcome::Full,
        _ => Outcome::Other,
    }
}
