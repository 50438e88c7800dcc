//! Slices: requests and responses that are written element by element, from a slice, or with one element everywhere.
#![tactic(auto, using(rr_ports::proofs::Frames::callers), unfolding(rr_ports::specs::Facts::Keeps, rr_ports::specs::Facts::IsFree))]

ghost use Rattle.std.specs.Prelude.{◌≡◌, ◌<◌, ◌≤◌, ◌+◌, IfOk, IfSome, [], ◌∷◌, replicate};
ghost use Rattle.rr_protocol.specs.declared.kind.Kind.TheVariants as kind;
ghost use Rattle.rr_ports.specs.Facts.{Asks, Has, IsFree, Keeps, Names, numbers_left};

use rr_ports::sliced::{
    ActiveRequest, Client, Hub, PendingResponse, RequestMut, RequestMutUninit, Server,
};
use rr_ports::{LoanError, RequestSendError, SendError};

/// A service that answers slices of numbers with slices of numbers.
pub type Service = Hub<u64, u64, u64, u64>;

/// Appends values to a request until it is complete or no value is left.
fn write(hub: &mut Service, request: &RequestMutUninit<u64>, values: &[u64])
    requires { Names hub.old request.now kind.RequestMutUninit }
    ensures kind { Names hub.new request.now kind.RequestMutUninit }
    ensures keeps { Keeps (request.now ∷ []) hub.old hub.new }
    ensures numbers { numbers_left hub.new ≡ numbers_left hub.old }
{
    for value in values {
        if request.is_complete(hub) {
            return;
        }
        request.push(hub, *value);
    }
}

/// Sends a request if it is complete, and otherwise releases it and returns `None`.
///
/// # Errors
///
/// As `RequestMut::send`.
fn send(
    hub: &mut Service,
    request: RequestMutUninit<u64>,
) -> Result<Option<PendingResponse<u64>>, RequestSendError>
    requires { Names hub.old request kind.RequestMutUninit }
    ensures same { IfOk result (λ sent. IfSome sent (λ pending. pending ≡ request)) }
    ensures pending { IfOk result (λ sent. IfSome sent (λ pending. Names hub.new pending kind.PendingResponse)) }
    ensures keeps { Keeps (request ∷ []) hub.old hub.new }
    ensures numbers { numbers_left hub.new ≡ numbers_left hub.old }
{
    if !request.is_complete(hub) {
        request.release(hub);
        return Ok(None);
    }
    let request = request.assume_init(hub);
    Ok(Some(request.send(hub)?))
}

/// Sends a request of `len` elements, the first of the values. Returns `None`, and sends nothing, if there are fewer
/// values.
///
/// # Errors
///
/// As `Client::loan_slice_uninit` and `RequestMut::send`.
pub fn ask(
    hub: &mut Service,
    client: &Client<u64>,
    len: usize,
    values: &[u64],
) -> Result<Option<PendingResponse<u64>>, RequestSendError>
    requires client { Names hub.old client.now kind.Client }
    requires numbers { 0 < numbers_left hub.old }
    ensures free { IfOk result (λ sent. IfSome sent (λ pending. IsFree [] hub.old pending)) }
    ensures pending { IfOk result (λ sent. IfSome sent (λ pending. Names hub.new pending kind.PendingResponse)) }
    ensures keeps { Keeps [] hub.old hub.new }
    ensures numbers { numbers_left hub.old ≤ numbers_left hub.new + 1 }
{
    let request = client.loan_slice_uninit(hub, len)?;
    write(hub, &request, values);
    send(hub, request)
}

/// Sends a slice of one element as a response.
///
/// # Errors
///
/// As `ActiveRequest::loan_slice_uninit` and `ResponseMut::send`.
fn send_one(hub: &mut Service, active: &ActiveRequest<u64>, value: u64) -> Result<(), SendError>
    requires active { Names hub.old active.now kind.ActiveRequest }
    requires number { 0 < numbers_left hub.old }
    ensures { Keeps [] hub.old hub.new }
{
    let response = active.loan_slice_uninit(hub, 1)?;
    let response = response.fill(hub, value);
    response.send(hub)
}

/// Answers the oldest request, if there is one, with the wrapped sum of its elements.
pub fn answer(hub: &mut Service, server: &Server<u64>)
    requires server { Names hub.old server.now kind.Server }
    requires numbers { 1 < numbers_left hub.old }
    ensures { Keeps [] hub.old hub.new }
{
    if let Ok(Some(active)) = server.receive(hub) {
        let sum = active
            .payload(hub)
            .iter()
            .fold(0_u64, |sum, value| sum.wrapping_add(*value));
        let _ = send_one(hub, &active, sum);
        active.release(hub);
    }
}

/// Returns the first element of a response, if one is queued, and releases the response.
pub fn receive(hub: &mut Service, pending: &PendingResponse<u64>) -> Option<u64>
    requires { Names hub.old pending.now kind.PendingResponse }
    ensures { Keeps [] hub.old hub.new }
{
    match pending.receive(hub) {
        Ok(Some(response)) => {
            let sum = response.payload(hub).first().copied();
            response.release(hub);
            sum
        }
        _ => None,
    }
}

/// Loans a request of the length of a slice, and writes the slice.
pub fn written(
    hub: &mut Service,
    client: &Client<u64>,
    values: &[u64],
) -> Result<RequestMut<u64>, LoanError>
    requires client { Names hub.old client.now kind.Client }
    requires number { 0 < numbers_left hub.old }
    ensures free { IfOk result (λ request. IsFree [] hub.old request) }
    ensures kind { IfOk result (λ request. Names hub.new request kind.RequestMut) }
    ensures says { IfOk result (λ request. Has hub.new request (Asks values.now)) }
    ensures keeps { Keeps [] hub.old hub.new }
{
    let request = client.loan_slice_uninit(hub, values.len())?;
    Ok(request.write_from_slice(hub, values))
}

/// Writes a number to every element, and promises the request's elements.
pub fn filled(
    hub: &mut Service,
    client: &Client<u64>,
    len: usize,
    value: u64,
) -> Result<RequestMut<u64>, LoanError>
    requires client { Names hub.old client.now kind.Client }
    requires number { 0 < numbers_left hub.old }
    ensures free { IfOk result (λ request. IsFree [] hub.old request) }
    ensures kind { IfOk result (λ request. Names hub.new request kind.RequestMut) }
    ensures says { IfOk result (λ request. Has hub.new request (Asks (replicate len value))) }
    ensures keeps { Keeps [] hub.old hub.new }
{
    let request = client.loan_slice_uninit(hub, len)?;
    Ok(request.fill(hub, value))
}
