//! Refusals that callers exclude: of a port that has few handles and a whole pool, and whose sends skip full queues.
#![tactic(auto, using(rr_ports::proofs::Frames::callers), unfolding(rr_ports::specs::Facts::Keeps, rr_ports::specs::Facts::IsFree, rr_ports::specs::Owning::KeepsOwned))]

ghost use Rattle.std.specs.Prelude.{◌+◌, ◌≤◌, ◌<◌, ◌≢◌, ◌∷◌, [], IfErr, IfOk};
ghost use Rattle.rr_protocol.specs.declared.kind.Kind.TheVariants as kind;
ghost use Rattle.rr_ports.specs.Facts.{Discards, Has, IsFree, Keeps, Names, WholePool, numbers_left};
ghost use Rattle.rr_ports.specs.Owning.{KeepsOwned, Owns};

use crate::frames::Service;
use rr_ports::typed::{Client, PendingResponse};
use rr_ports::{LoanError, RequestSendError, SendError};

/// Sends a number by a client that skips full queues. It is never refused with `UnableToDeliver`.
pub fn passed_over(
    hub: &mut Service,
    client: &Client<u64>,
    value: u64,
) -> Result<PendingResponse<u64>, RequestSendError>
    requires client { Names hub.old client.now kind.Client }
    requires discards { Has hub.old client.now Discards }
    requires number { 0 < numbers_left hub.old }
    ensures kind { IfOk result (λ pending. Names hub.new pending kind.PendingResponse) }
    ensures keeps { Keeps [] hub.old hub.new }
{
    match client.send_copy(hub, value) {
        Ok(pending) => Ok(pending),
        Err(RequestSendError::SendError(SendError::UnableToDeliver)) => unreachable!(),
        Err(error) => Err(error),
    }
}

/// Sends a number by a client that has no handle. No limit refuses it.
pub fn within_limits(
    hub: &mut Service,
    client: &Client<u64>,
    value: u64,
) -> Result<PendingResponse<u64>, RequestSendError>
    requires client { Names hub.old client.now kind.Client }
    requires owns { Owns hub.old client.now 0 }
    requires number { 0 < numbers_left hub.old }
    ensures kind { IfOk result (λ pending. Names hub.new pending kind.PendingResponse) }
    ensures owns { IfOk result (λ pending. Owns hub.new client.now 1) }
    ensures spared { IfErr result (λ error. Owns hub.new client.now 0) }
    ensures keeps { Keeps [] hub.old hub.new }
{
    match client.send_copy(hub, value) {
        Ok(pending) => Ok(pending),
        Err(RequestSendError::ExceedsMaxActiveRequests) => unreachable!(),
        Err(RequestSendError::SendError(SendError::LoanError(LoanError::ExceedsMaxLoans))) => {
            unreachable!()
        }
        Err(error) => Err(error),
    }
}

/// Loans by a client that has no handle, and releases the loan. It is never refused.
pub fn loaned(hub: &mut Service, client: &Client<u64>)
    requires client { Names hub.old client.now kind.Client }
    requires pool { Has hub.old client.now (WholePool 1) }
    requires owns { Owns hub.old client.now 0 }
    requires number { 0 < numbers_left hub.old }
    ensures owns { Owns hub.new client.now 0 }
    ensures keeps { Keeps [] hub.old hub.new }
{
    match client.loan_uninit(hub) {
        Ok(request) => request.release(hub),
        Err(_) => unreachable!(),
    }
}

/// Sends a number by a client that has no handle and a whole pool, and skips full queues. It is never refused.
pub fn sent(hub: &mut Service, client: &Client<u64>, value: u64) -> PendingResponse<u64>
    requires client { Names hub.old client.now kind.Client }
    requires pool { Has hub.old client.now (WholePool 1) }
    requires discards { Has hub.old client.now Discards }
    requires owns { Owns hub.old client.now 0 }
    requires number { 0 < numbers_left hub.old }
    ensures free { IsFree [] hub.old result }
    ensures kind { Names hub.new result kind.PendingResponse }
    ensures owns { Owns hub.new client.now 1 }
    ensures owned { KeepsOwned (client.now ∷ []) hub.old hub.new }
    ensures keeps { Keeps [] hub.old hub.new }
    ensures numbers { numbers_left hub.old ≤ numbers_left hub.new + 1 }
{
    match client.send_copy(hub, value) {
        Ok(pending) => pending,
        Err(_) => unreachable!(),
    }
}

/// Sends a number and waits for nothing, by a client that has no handle and a whole pool, and skips full queues.
pub fn told(hub: &mut Service, client: &Client<u64>, value: u64)
    requires client { Names hub.old client.now kind.Client }
    requires pool { Has hub.old client.now (WholePool 1) }
    requires discards { Has hub.old client.now Discards }
    requires owns { Owns hub.old client.now 0 }
    requires number { 0 < numbers_left hub.old }
    ensures owns { Owns hub.new client.now 0 }
    ensures keeps { Keeps [] hub.old hub.new }
    ensures numbers { numbers_left hub.old ≤ numbers_left hub.new + 1 }
{
    match client.tell(hub, value) {
        Ok(()) => {}
        Err(_) => unreachable!(),
    }
}

/// Sends a number by each of two clients that have no handles, and holds both pending responses at one time. Neither
/// is refused.
pub fn asked_by_both(hub: &mut Service, one: &Client<u64>, two: &Client<u64>)
    requires one { Names hub.old one.now kind.Client }
    requires two { Names hub.old two.now kind.Client }
    requires differ { two.now ≢ one.now }
    requires one_pool { Has hub.old one.now (WholePool 1) }
    requires two_pool { Has hub.old two.now (WholePool 1) }
    requires one_discards { Has hub.old one.now Discards }
    requires two_discards { Has hub.old two.now Discards }
    requires one_owns { Owns hub.old one.now 0 }
    requires two_owns { Owns hub.old two.now 0 }
    requires numbers { 1 < numbers_left hub.old }
    ensures keeps { Keeps [] hub.old hub.new }
{
    let first = sent(hub, one, 1);
    let second = sent(hub, two, 2);
    first.release(hub);
    second.release(hub);
}
