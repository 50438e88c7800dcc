//! Commands that a worker submits, with the reply that it needs.
use crate::bells::Bell;
use crate::seat::Seat;
use crate::submit::Submit;
use crate::worker_error::WorkerError;
use rr_protocol::{Command, Reply};
use std::sync::Wait;
use std::sync::ledger::Ledger;

/// Sends a number: as a request of a client, or as a response to an active request. Returns the number of the pending
/// response, or of the response. Not in iceoryx2.
///
/// # Errors
///
/// - `NoMemory` if there was no memory for its receipt.
/// - `GaveUp` if the hub refuses to send it.
pub fn send_copy<L: Ledger, S: Submit<L>, R: Wait>(
    rt: &R,
    hub: &S,
    seat: &mut Seat<L>,
    sender: u64,
    element: u64,
) -> Result<u64, WorkerError> {
    match hub.submit(rt, seat, Command::SendCopy(sender, element)) {
        Reply::Pending(number, _) | Reply::Sent(number) => Ok(number),
        other => Err(WorkerError::of(&other)),
    }
}

/// Receives by a server or a pending response until a message arrives. Returns the number of the active request or of
/// the response.
///
/// It reads the bell before each receive, so a ring between a receive and the wait after it isn't missed. A turn is
/// one reading of the bell. Not in iceoryx2.
///
/// # Errors
///
/// - `NoMemory` if there was no memory for a receipt.
/// - `GaveUp` if nothing arrived within `turns` turns, or the hub refuses to receive.
pub fn receive<L: Ledger, S: Submit<L>, R: Wait>(
    rt: &R,
    hub: &S,
    seat: &mut Seat<L>,
    bell: &Bell,
    receiver: u64,
    turns: u64,
) -> Result<u64, WorkerError> {
    let mut left = turns;
    for _ in 0..u64::MAX {
        let rings = bell.rings();
        match hub.submit(rt, seat, Command::Receive(receiver)) {
            Reply::Active(number, _) | Reply::Response(number) => return Ok(number),
            Reply::Nothing => left = bell.wait(rings, left).ok_or(WorkerError::GaveUp)?,
            other => return Err(WorkerError::of(&other)),
        }
    }
    Err(WorkerError::GaveUp)
}

/// Returns the number in a message. Not in iceoryx2.
///
/// # Errors
///
/// - `NoMemory` if there was no memory for a copy of it.
/// - `GaveUp` if the hub has no such message.
pub fn payload<L: Ledger, S: Submit<L>, R: Wait>(
    rt: &R,
    hub: &S,
    seat: &mut Seat<L>,
    message: u64,
) -> Result<u64, WorkerError> {
    match hub.submit(rt, seat, Command::Payload(message)) {
        Reply::Payload(elements) => elements
            .as_slice()
            .first()
            .copied()
            .ok_or(WorkerError::GaveUp),
        other => Err(WorkerError::of(&other)),
    }
}

/// Releases a handle or a port. Not in iceoryx2.
///
/// # Errors
///
/// - `NoMemory` if there was no memory for its receipt.
/// - `GaveUp` if nothing has this number.
pub fn release<L: Ledger, S: Submit<L>, R: Wait>(
    rt: &R,
    hub: &S,
    seat: &mut Seat<L>,
    handle: u64,
) -> Result<(), WorkerError> {
    match hub.submit(rt, seat, Command::Release(handle)) {
        Reply::Done => Ok(()),
        other => Err(WorkerError::of(&other)),
    }
}

/// Receives a response to a pending response, and releases both. Returns the response's number.
///
/// It waits as `receive` does. Not in iceoryx2.
///
/// # Errors
///
/// - `NoMemory` if there was no memory for a receipt, or for a copy of the number.
/// - `GaveUp` if nothing arrived within `turns` turns, or the hub refuses a call.
pub fn take_response<L: Ledger, S: Submit<L>, R: Wait>(
    rt: &R,
    hub: &S,
    seat: &mut Seat<L>,
    bell: &Bell,
    pending: u64,
    turns: u64,
) -> Result<u64, WorkerError> {
    let response = receive(rt, hub, seat, bell, pending, turns)?;
    let answer = payload(rt, hub, seat, response)?;
    release(rt, hub, seat, response)?;
    release(rt, hub, seat, pending)?;
    Ok(answer)
}
