//! Proofs of callers about values: a reader gets the value that was written.
#![tactic(auto, using(rr_ports::proofs::Frames::callers), unfolding(rr_ports::specs::Facts::Keeps, rr_ports::specs::Facts::IsFree))]

ghost use Rattle.std.specs.Prelude.{◌≡◌, ◌≢◌, ◌<◌, ◌≤◌, ◌+◌, ◌∷◌, [], IfOk, ℕ};
ghost use Rattle.rr_protocol.specs.declared.kind.Kind.TheVariants as kind;
ghost use Rattle.rr_ports.specs.Facts.{Answers, Asks, Has, IsFree, Keeps, Names, Of, numbers_left};

use crate::frames::Service;
use rr_ports::typed::{
    ActiveRequest, Client, PendingResponse, RequestMut, RequestMutUninit, ResponseMut,
};
use rr_ports::{LoanError, RequestSendError};

/// Returns a written request, and promises its value.
pub fn written(
    hub: &mut Service,
    client: &Client<u64>,
    value: u64,
) -> Result<RequestMut<u64>, LoanError>
    requires client { Names hub.old client.now kind.Client }
    requires number { 0 < numbers_left hub.old }
    ensures free { IfOk result (λ request. IsFree [] hub.old request) }
    ensures kind { IfOk result (λ request. Names hub.new request kind.RequestMut) }
    ensures says { IfOk result (λ request. Has hub.new request (Asks (value ∷ []))) }
    ensures keeps { Keeps [] hub.old hub.new }
    ensures numbers { numbers_left hub.old ≤ numbers_left hub.new + 1 }
{
    let request = client.loan_uninit(hub)?;
    Ok(request.write_payload(hub, value))
}

/// Writes a second request and releases it, and then reads the first.
pub fn first_of_two(
    hub: &mut Service,
    client: &Client<u64>,
    value: u64,
    other: u64,
) -> Result<u64, LoanError>
    requires client { Names hub.old client.now kind.Client }
    requires numbers { 1 < numbers_left hub.old }
    ensures value { IfOk result (λ read. read ≡ value) }
    ensures keeps { Keeps [] hub.old hub.new }
{
    let one = written(hub, client, value)?;
    if let Ok(two) = written(hub, client, other) {
        two.release(hub);
    }
    let read = *one.payload(hub);
    one.release(hub);
    Ok(read)
}

/// Writes two requests that are passed by value, and reads the first after the second was released.
pub fn second_kept(
    hub: &mut Service,
    one: RequestMutUninit<u64>,
    two: RequestMutUninit<u64>,
    value: u64,
    other: u64,
) -> u64
    requires one { Names hub.old one kind.RequestMutUninit }
    requires two { Names hub.old two kind.RequestMutUninit }
    requires differ { one ≢ two }
    ensures value { result ≡ value }
    ensures keeps { Keeps (one ∷ two ∷ []) hub.old hub.new }
{
    let one = one.write_payload(hub, value);
    let two = two.write_payload(hub, other);
    two.release(hub);
    let read = *one.payload(hub);
    one.release(hub);
    read
}

/// Sends a request, and reads it through its pending response.
pub fn sent(
    hub: &mut Service,
    client: &Client<u64>,
    value: u64,
) -> Result<(PendingResponse<u64>, u64), RequestSendError>
    requires client { Names hub.old client.now kind.Client }
    requires number { 0 < numbers_left hub.old }
    ensures value { IfOk result (λ sent. sent.1 ≡ value) }
    ensures says { IfOk result (λ sent. Has hub.new sent.0 (Asks (value ∷ []))) }
    ensures keeps { Keeps [] hub.old hub.new }
{
    let request = written(hub, client, value)?;
    let pending = request.send(hub)?;
    let read = *pending.payload(hub);
    Ok((pending, read))
}

/// Loans and writes a response, and promises its value.
pub fn answer_written(
    hub: &mut Service,
    active: &ActiveRequest<u64>,
    value: u64,
) -> Result<ResponseMut<u64>, LoanError>
    requires active { Names hub.old active.now kind.ActiveRequest }
    requires number { 0 < numbers_left hub.old }
    ensures free { IfOk result (λ response. IsFree [] hub.old response) }
    ensures kind { IfOk result (λ response. Names hub.new response kind.ResponseMut) }
    ensures says { IfOk result (λ response. Has hub.new response (Answers (value ∷ []))) }
    ensures keeps { Keeps [] hub.old hub.new }
{
    let response = active.loan_uninit(hub)?;
    Ok(response.write_payload(hub, value))
}

/// Writes a response to a request, and reads both.
pub fn read_both(
    hub: &mut Service,
    active: &ActiveRequest<u64>,
    asked: u64,
    value: u64,
) -> Result<(u64, u64), LoanError>
    requires active { Names hub.old active.now kind.ActiveRequest }
    requires asks { Has hub.old active.now (Asks (asked ∷ [])) }
    requires number { 0 < numbers_left hub.old }
    ensures question { IfOk result (λ read. read.0 ≡ asked) }
    ensures answer { IfOk result (λ read. read.1 ≡ value) }
    ensures keeps { Keeps [] hub.old hub.new }
{
    let response = answer_written(hub, active, value)?;
    let read = (*active.payload(hub), *response.payload(hub));
    response.release(hub);
    Ok(read)
}

/// Writes a number into a request through a `&mut`, and promises the request's value.
#[tactic(auto, using(rr_ports::proofs::Frames::borrowers), unfolding(rr_ports::specs::Facts::Keeps, rr_ports::specs::Facts::IsFree))]
pub fn rewritten(hub: &mut Service, request: &RequestMut<u64>, value: u64)
    requires { Names hub.old request.now kind.RequestMut }
    ensures kind { Names hub.new request.now kind.RequestMut }
    ensures says { Has hub.new request.now (Asks (value ∷ [])) }
    ensures of { (port pending : ℕ) → Has hub.old request.now (Of port pending)
        → Has hub.new request.now (Of port pending) }
    ensures keeps { Keeps (request.now ∷ []) hub.old hub.new }
{
    *RequestMut::payload_mut(hub, request) = value;
}

/// Has a function replace a number in place, and promises the request's value.
pub fn replaced(hub: &mut Service, request: &RequestMut<u64>, old: u64)
    requires request { Names hub.old request.now kind.RequestMut }
    requires asks { Has hub.old request.now (Asks (old ∷ [])) }
    ensures kind { Names hub.new request.now kind.RequestMut }
    ensures says { Has hub.new request.now (Asks (7 ∷ [])) }
    ensures keeps { Keeps (request.now ∷ []) hub.old hub.new }
{
    request.update(hub, |value: &mut u64| *value = 7);
}
