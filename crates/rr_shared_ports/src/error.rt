//! Why a call of a shared hub was refused.
ghost use Rattle.rr_shared_ports.specs.Words.{IsAnswer};

use rr_ports::{ReceiveError, RequestSendError, SendError};
use std::fmt::Display;
use thiserror::Error;

/// Why a call of a shared hub was refused. Not in iceoryx2.
#[derive(Clone, Copy, Debug, PartialEq, Eq, Hash, Error)]
pub enum CallError<E: Display> {
    /// The call of the port was refused.
    #[error("{0}")]
    Port(E),
    /// The hub has given all of its 2^62 numbers.
    #[error("no number is left")]
    NumbersExhausted,
}

/// Why a loaned message was not written, or not made ready to send. Not in iceoryx2.
#[derive(Clone, Copy, Debug, PartialEq, Eq, Hash, Error)]
pub enum WriteError {
    /// Fewer elements were written than were loaned.
    #[error("not all elements are written")]
    Incomplete,
    /// The number of elements differs from the loan's.
    #[error("these are not as many elements as were asked for")]
    WrongLength,
}

/// Why a wait ended without a result. Not in iceoryx2.
#[derive(Clone, Copy, Debug, PartialEq, Eq, Hash, Error)]
pub enum WaitError<E: Display> {
    /// The call was refused.
    #[error("{0}")]
    Call(E),
    /// The hub was closed, and there is nothing to receive, or no room to send.
    #[error("the hub is closed")]
    Closed,
    /// The time is over or the clock can't be read, and there is nothing to receive or no room to send.
    #[error("the time is over")]
    TimedOut,
}

/// Why a request was not finished. Not in iceoryx2.
#[derive(Clone, Copy, Debug, PartialEq, Eq, Hash, Error)]
pub enum FinishError {
    /// No response is queued, but a connected server may still answer.
    #[error("no response is queued")]
    NoResponse,
    /// No response is queued, and no connected server may still answer.
    #[error("no server may answer any more")]
    NoServer,
    /// The receive was refused.
    #[error("{0}")]
    Receive(ReceiveError),
}

/// Why a question got no answer. Not in iceoryx2.
#[derive(Clone, Copy, Debug, PartialEq, Eq, Hash, Error)]
pub enum AskError {
    /// The request was not sent.
    #[error("{0}")]
    Send(CallError<RequestSendError>),
    /// The request was sent, but no response was received.
    #[error("{0}")]
    Finish(WaitError<FinishError>),
}

/// Why no question was answered. Not in iceoryx2.
#[derive(Clone, Copy, Debug, PartialEq, Eq, Hash, Error)]
pub enum ServeError {
    /// No request was received.
    #[error("{0}")]
    Receive(WaitError<CallError<ReceiveError>>),
    /// A request was received, but its answer was not sent.
    #[error("{0}")]
    Send(CallError<SendError>),
}

/// Converts the result of a port's call, with its error as `Port`.
pub(crate) fn told<U, E: Display>(answer: Result<U, E>) -> Result<U, CallError<E>>
    ensures { IsAnswer answer result }
{
    match answer {
        Ok(answer) => Ok(answer),
        Err(error) => Err(CallError::Port(error)),
    }
}
