//! Sends that return the message on a refusal.
#![tactic(auto, using(rr_ports::proofs::Frames::callers), unfolding(rr_ports::specs::Facts::Keeps, rr_ports::specs::Facts::IsFree))]

ghost use Rattle.std.specs.Prelude.{◌<◌, ◌≤◌, ◌+◌, ◌≡◌, ◌∷◌, [], IfErr, IfOk, IfSome, List, ℕ};
ghost use Rattle.rr_protocol.specs.declared.kind.Kind.TheVariants as kind;
ghost use Rattle.rr_ports.specs.Facts.{Asks, Has, IsFree, Keeps, Names, numbers_left};

use crate::frames::Service;
use rr_ports::Refused;
use rr_ports::typed::{ActiveRequest, PendingResponse, RequestMut, ResponseMut};

/// Sends an answer. Returns the response if it could not be sent yet, or `None` if it was sent, or could not be
/// loaned.
pub fn offered(
    hub: &mut Service,
    active: &ActiveRequest<u64>,
    value: u64,
) -> Option<ResponseMut<u64>>
    requires active { Names hub.old active.now kind.ActiveRequest }
    requires numbers { 0 < numbers_left hub.old }
    ensures kind { IfSome result (λ response. Names hub.new response kind.ResponseMut) }
    ensures free { IfSome result (λ response. IsFree [] hub.old response) }
    ensures keeps { Keeps [] hub.old hub.new }
    ensures numbers { numbers_left hub.old ≤ numbers_left hub.new + 1 }
{
    let Ok(response) = active.loan_uninit(hub) else {
        return None;
    };
    let response = response.write_payload(hub, value);
    offered_again(hub, response)
}

/// Sends a response that a refused send returned. Returns it if it could not be sent yet.
pub fn offered_again(hub: &mut Service, response: ResponseMut<u64>) -> Option<ResponseMut<u64>>
    requires { Names hub.old response kind.ResponseMut }
    ensures same { IfSome result (λ kept. kept ≡ response) }
    ensures kind { IfSome result (λ kept. Names hub.new kept kind.ResponseMut) }
    ensures keeps { Keeps (response ∷ []) hub.old hub.new }
    ensures numbers { numbers_left hub.new ≡ numbers_left hub.old }
{
    match response.try_send(hub) {
        Ok(()) => None,
        Err(refused) => {
            let Refused { message, error: _ } = refused;
            Some(message)
        }
    }
}

/// Sends a request. Returns it with its content if it could not be sent yet.
pub fn posed(
    hub: &mut Service,
    request: RequestMut<u64>,
) -> Result<PendingResponse<u64>, RequestMut<u64>>
    requires { Names hub.old request kind.RequestMut }
    ensures sent { IfOk result (λ pending. Names hub.new pending kind.PendingResponse) }
    ensures kept { IfErr result (λ kept. Names hub.new kept kind.RequestMut) }
    ensures free { IfOk result (λ pending. IsFree (request ∷ []) hub.old pending) }
    ensures same { IfErr result (λ kept. kept ≡ request) }
    ensures says { (xs : List ℕ) → Has hub.old request (Asks xs) → IfErr result (λ kept. Has hub.new kept (Asks xs)) }
    ensures keeps { Keeps (request ∷ []) hub.old hub.new }
    ensures numbers { numbers_left hub.new ≡ numbers_left hub.old }
{
    match request.try_send(hub) {
        Ok(pending) => Ok(pending),
        Err(refused) => {
            let Refused { message, error: _ } = refused;
            Err(message)
        }
    }
}
