//! The frame of a function: handles that are passed by value, returned, or made and released inside.
#![tactic(auto, using(rr_ports::proofs::Frames::callers), unfolding(rr_ports::specs::Facts::Keeps, rr_ports::specs::Facts::IsFree))]

ghost use Rattle.std.specs.Prelude.{◌≡◌, ◌<◌, ◌≤◌, ◌+◌, ◌∷◌, [], IfOk, IfSome};
ghost use Rattle.rr_protocol.specs.declared.kind.Kind.TheVariants as kind;
ghost use Rattle.rr_ports.specs.Facts.{IsFree, Keeps, Names, numbers_left};

use rr_ports::typed::{ActiveRequest, Client, Hub, PendingResponse, Server};
use rr_ports::{ReceiveError, RequestSendError, SendError};

/// A service that answers numbers with numbers.
pub type Service = Hub<u64, u64, u64, u64>;

/// Takes a pending response, and returns a response to it, if one is queued.
pub fn take(hub: &mut Service, pending: PendingResponse<u64>) -> Option<u64>
    requires { Names hub.old pending kind.PendingResponse }
    ensures keeps { Keeps (pending ∷ []) hub.old hub.new }
    ensures numbers { numbers_left hub.new ≡ numbers_left hub.old }
{
    let came = match pending.receive(hub) {
        Ok(Some(response)) => {
            let value = *response.payload(hub);
            response.release(hub);
            Some(value)
        }
        _ => None,
    };
    pending.release(hub);
    came
}

/// Returns the number in a response, if one is queued, and releases the response.
pub fn received(hub: &mut Service, pending: &PendingResponse<u64>) -> Option<u64>
    requires { Names hub.old pending.now kind.PendingResponse }
    ensures keeps { Keeps [] hub.old hub.new }
    ensures numbers { numbers_left hub.new ≡ numbers_left hub.old }
{
    pending.receive_copy(hub).unwrap_or(None)
}

/// Returns a handle that is made inside.
pub fn ask(
    hub: &mut Service,
    client: &Client<u64>,
    value: u64,
) -> Result<PendingResponse<u64>, RequestSendError>
    requires client { Names hub.old client.now kind.Client }
    requires number { 0 < numbers_left hub.old }
    ensures free { IfOk result (λ pending. IsFree [] hub.old pending) }
    ensures kind { IfOk result (λ pending. Names hub.new pending kind.PendingResponse) }
    ensures keeps { Keeps [] hub.old hub.new }
    ensures numbers { numbers_left hub.old ≤ numbers_left hub.new + 1 }
{
    let request = client.loan_uninit(hub)?;
    let request = request.write_payload(hub, value);
    request.send(hub)
}

/// Takes one handle and returns another.
pub fn answer(hub: &mut Service, active: ActiveRequest<u64>, value: u64) -> Result<(), SendError>
    requires active { Names hub.old active kind.ActiveRequest }
    requires number { 0 < numbers_left hub.old }
    ensures keeps { Keeps (active ∷ []) hub.old hub.new }
    ensures numbers { numbers_left hub.old ≤ numbers_left hub.new + 1 }
{
    let sent = active.send_copy(hub, value);
    active.release(hub);
    sent
}

/// Answers a request with its own number, if there is one.
pub fn serve(hub: &mut Service, server: &Server<u64>) -> Result<bool, ReceiveError>
    requires server { Names hub.old server.now kind.Server }
    requires numbers { 1 < numbers_left hub.old }
    ensures keeps { Keeps [] hub.old hub.new }
    ensures numbers { numbers_left hub.old ≤ numbers_left hub.new + 2 }
{
    let Some(active) = server.receive(hub)? else {
        return Ok(false);
    };
    let asked = *active.payload(hub);
    Ok(answer(hub, active, asked).is_ok())
}

/// Releases a received request, and returns the next one.
#[tactic(auto, using(rr_ports::proofs::Frames::callers, rr_ports::proofs::Frames::free_before), unfolding(rr_ports::specs::Facts::Keeps))]
pub fn next(
    hub: &mut Service,
    server: &Server<u64>,
    last: ActiveRequest<u64>,
) -> Result<Option<ActiveRequest<u64>>, ReceiveError>
    requires server { Names hub.old server.now kind.Server }
    requires last { Names hub.old last kind.ActiveRequest }
    requires number { 0 < numbers_left hub.old }
    ensures kind { IfOk result (λ next. IfSome next (λ active. Names hub.new active kind.ActiveRequest)) }
    ensures free { IfOk result (λ next. IfSome next (λ active. IsFree (last ∷ []) hub.old active)) }
    ensures keeps { Keeps (last ∷ []) hub.old hub.new }
{
    last.release(hub);
    let Some(active) = server.receive(hub)? else {
        return Ok(None);
    };
    Ok(Some(active))
}
