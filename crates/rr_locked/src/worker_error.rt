//! Why a worker ends early.
use rr_protocol::Reply;
use thiserror::Error;

/// Why a worker ended before its last request.
///
/// # Examples
///
/// Sends a number, and returns the number that came as a response (`rr_test_runs::tests::hubs::examples`):
///
/// ```
/// use rr_locked::{Bells, Seat, Submit, WorkerError, send_copy, take_response};
/// use std::sync::Wait;
/// use std::sync::ledger::Ledger;
///
/// fn ask<L: Ledger, S: Submit<L>, R: Wait>(
///     rt: &R,
///     hub: &S,
///     seat: &mut Seat<L>,
///     bells: &Bells,
///     client: u64,
/// ) -> Result<u64, WorkerError> {
///     let pending = send_copy(rt, hub, seat, client, 41)?;
///     bells.server.ring();
///     take_response(rt, hub, seat, &bells.client, pending, 1000)
/// }
/// ```
#[derive(Clone, Copy, Debug, PartialEq, Eq, Hash, Error)]
pub enum WorkerError {
    /// A command found no memory.
    #[error("WorkerError::NoMemory")]
    NoMemory,
    /// Nothing arrived within the limit of turns, or a reply was not one that the command can have.
    #[error("WorkerError::GaveUp")]
    GaveUp,
}

impl WorkerError {
    /// Returns the error of a worker that got this reply in place of the one that it needs. Not in iceoryx2.
    pub fn of(reply: &Reply<u64, u64>) -> Self {
        match reply {
            Reply::NoMemory => WorkerError::NoMemory,
            _ => WorkerError::GaveUp,
        }
    }
}
