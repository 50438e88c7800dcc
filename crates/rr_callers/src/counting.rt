//! A stream of answers to one question, which the client receives in the order in which the server sent them.
#![tactic(auto, using(rr_ports::proofs::Frames::callers), unfolding(rr_ports::specs::Facts::Keeps, rr_ports::specs::Facts::IsFree))]

ghost use Rattle.std.specs.Prelude.{◌≤◌, ◌≡◌, ◌≢◌, [], Err, IfOk, OnOk};
ghost use Rattle.std.specs.List.{range_with_len};
ghost use Rattle.rr_protocol.specs.declared.kind.Kind.TheVariants as kind;
ghost use Rattle.rr_ports.specs.Facts.{Buffers, Has, Keeps, Names, Of, numbers_left};
ghost use Rattle.rr_ports.specs.Queues.{Awaits, AwaitsNothing};
ghost use Rattle.rr_callers.specs.Singles.{singles};

use crate::calling::CallError;
use crate::frames::Service;
use rr_ports::SendError;
use rr_ports::typed::{ActiveRequest, Client, PendingResponse, Server};
use std::alloc::Global;

/// Sends `count` numbers from 0 on as responses, for all of which the client's queue has room.
///
/// # Errors
///
/// `LoanError(..)` as `ActiveRequest::send_copy`. Responses that were sent before stay queued.
pub fn count(
    hub: &mut Service,
    server: &Server<u64>,
    pending: &PendingResponse<u64>,
    active: &ActiveRequest<u64>,
    count: u64,
) -> Result<(), SendError>
    requires server { Names hub.old server.now kind.Server }
    requires active { Names hub.old active.now kind.ActiveRequest }
    requires of { Has hub.old active.now (Of server.now pending.now) }
    requires awaits { AwaitsNothing hub.old pending.now }
    requires room { Has hub.old pending.now (Buffers count) }
    requires numbers { count ≤ numbers_left hub.old }
    ensures awaits { OnOk result (Awaits hub.new pending.now server.now (singles 0 count)) }
    ensures delivered { result ≢ Err SendError.UnableToDeliver }
    ensures keeps { Keeps [] hub.old hub.new }
{
    for value in 0..count {
        active.send_copy(hub, value)?;
    }
    Ok(())
}

/// Receives `count` responses of a stream that counts from 0 on, and returns their numbers: 0, 1, 2 and so on.
///
/// # Errors
///
/// `NotReceived` as `PendingResponse::receive`, `OutOfMemory` if there was no memory for the numbers.
pub fn received(
    alloc: Global,
    hub: &mut Service,
    client: &Client<u64>,
    server: &Server<u64>,
    pending: &PendingResponse<u64>,
    count: u64,
) -> Result<Vec<u64>, CallError>
    requires client { Names hub.old client.now kind.Client }
    requires pending { Names hub.old pending.now kind.PendingResponse }
    requires of { Has hub.old pending.now (Of client.now pending.now) }
    requires awaits { Awaits hub.old pending.now server.now (singles 0 count) }
    ensures in_order { IfOk result (λ came. came.items ≡ range_with_len 0 count) }
    ensures keeps { Keeps [] hub.old hub.new }
{
    let mut came = Vec::new(alloc);
    for received in 0..count {
        match pending.receive_copy(hub) {
            Ok(Some(number)) => {
                if came.push(number).is_err() {
                    return Err(CallError::OutOfMemory);
                }
            }
            Ok(None) => unreachable!(),
            Err(error) => return Err(CallError::NotReceived(error)),
        }
    }
    Ok(came)
}
