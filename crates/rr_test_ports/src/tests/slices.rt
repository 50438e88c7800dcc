//! Slices, as iceoryx2's documents write and send them.
#![tactic(auto, using(rr_ports::proofs::Frames::callers), unfolding(rr_ports::specs::Facts::Keeps, rr_ports::specs::Facts::IsFree))]

ghost use Rattle.std.specs.Prelude.{◌<◌, ◌≤◌, ◌+◌, IfOk, []};
ghost use Rattle.rr_protocol.specs.declared.kind.Kind.TheVariants as kind;
ghost use Rattle.rr_ports.specs.Facts.{IsFree, Keeps, Names, numbers_left};

use super::fixtures::LIMITS;
use rr_callers::connected::Connected;
use rr_callers::slices::Service;
use rr_ports::sliced::{ActiveRequest, Client, PendingResponse, RequestMut, ResponseMut, Server};
use rr_ports::{AllocationStrategy, Error, LoanError, RequestSendError, SendError, UniqueNodeId};

/// How a message is written.
#[derive(Clone, Copy)]
enum Way {
    /// So many elements by a function: a factor times the index, and a number.
    Counted(usize, u64, u64),
    /// From a slice.
    Copied(&'static [u64]),
    /// From a slice, in one call with the send.
    Sent(&'static [u64]),
}

/// Loans a request that a function writes.
fn counted(
    hub: &mut Service,
    client: &Client<u64>,
    len: usize,
    factor: u64,
    first: u64,
) -> Result<RequestMut<u64>, LoanError>
    requires client { Names hub.old client.now kind.Client }
    requires number { 0 < numbers_left hub.old }
    ensures free { IfOk result (λ request. IsFree [] hub.old request) }
    ensures kind { IfOk result (λ request. Names hub.new request kind.RequestMut) }
    ensures keeps { Keeps [] hub.old hub.new }
    ensures numbers { numbers_left hub.old ≤ numbers_left hub.new + 1 }
{
    let request = client.loan_slice_uninit(hub, len)?;
    Ok(request.write_from_fn(
        hub,
        |index: usize| (index as u64).wrapping_mul(factor).wrapping_add(first),
    ))
}

/// Loans a request that is written from a slice.
fn copied(
    hub: &mut Service,
    client: &Client<u64>,
    values: &[u64],
) -> Result<RequestMut<u64>, LoanError>
    requires client { Names hub.old client.now kind.Client }
    requires number { 0 < numbers_left hub.old }
    ensures free { IfOk result (λ request. IsFree [] hub.old request) }
    ensures kind { IfOk result (λ request. Names hub.new request kind.RequestMut) }
    ensures keeps { Keeps [] hub.old hub.new }
    ensures numbers { numbers_left hub.old ≤ numbers_left hub.new + 1 }
{
    let request = client.loan_slice_uninit(hub, values.len())?;
    Ok(request.write_from_slice(hub, values))
}

/// Loans a request that is written in some way.
fn requested(
    hub: &mut Service,
    client: &Client<u64>,
    way: Way,
) -> Result<RequestMut<u64>, LoanError>
    requires client { Names hub.old client.now kind.Client }
    requires number { 0 < numbers_left hub.old }
    ensures free { IfOk result (λ request. IsFree [] hub.old request) }
    ensures kind { IfOk result (λ request. Names hub.new request kind.RequestMut) }
    ensures keeps { Keeps [] hub.old hub.new }
    ensures numbers { numbers_left hub.old ≤ numbers_left hub.new + 1 }
{
    match way {
        Way::Counted(len, factor, first) => counted(hub, client, len, factor, first),
        Way::Copied(values) | Way::Sent(values) => copied(hub, client, values),
    }
}

/// Sends a request that is written in some way.
fn ask(
    hub: &mut Service,
    client: &Client<u64>,
    way: Way,
) -> Result<PendingResponse<u64>, RequestSendError>
    requires client { Names hub.old client.now kind.Client }
    requires number { 0 < numbers_left hub.old }
    ensures free { IfOk result (λ pending. IsFree [] hub.old pending) }
    ensures kind { IfOk result (λ pending. Names hub.new pending kind.PendingResponse) }
    ensures keeps { Keeps [] hub.old hub.new }
    ensures numbers { numbers_left hub.old ≤ numbers_left hub.new + 1 }
{
    if let Way::Sent(values) = way {
        return client.send_slice(hub, values);
    }
    let request = requested(hub, client, way)?;
    request.send(hub)
}

/// Loans a response that a function writes.
fn counted_response(
    hub: &mut Service,
    active: &ActiveRequest<u64>,
    len: usize,
    factor: u64,
    first: u64,
) -> Result<ResponseMut<u64>, LoanError>
    requires active { Names hub.old active.now kind.ActiveRequest }
    requires number { 0 < numbers_left hub.old }
    ensures free { IfOk result (λ response. IsFree [] hub.old response) }
    ensures kind { IfOk result (λ response. Names hub.new response kind.ResponseMut) }
    ensures keeps { Keeps [] hub.old hub.new }
{
    let response = active.loan_slice_uninit(hub, len)?;
    Ok(response.write_from_fn(
        hub,
        |index: usize| (index as u64).wrapping_mul(factor).wrapping_add(first),
    ))
}

/// Loans a response that is written from a slice.
fn copied_response(
    hub: &mut Service,
    active: &ActiveRequest<u64>,
    values: &[u64],
) -> Result<ResponseMut<u64>, LoanError>
    requires active { Names hub.old active.now kind.ActiveRequest }
    requires number { 0 < numbers_left hub.old }
    ensures free { IfOk result (λ response. IsFree [] hub.old response) }
    ensures kind { IfOk result (λ response. Names hub.new response kind.ResponseMut) }
    ensures keeps { Keeps [] hub.old hub.new }
{
    let response = active.loan_slice_uninit(hub, values.len())?;
    Ok(response.write_from_slice(hub, values))
}

/// Loans a response that is written in some way.
fn responded(
    hub: &mut Service,
    active: &ActiveRequest<u64>,
    way: Way,
) -> Result<ResponseMut<u64>, LoanError>
    requires active { Names hub.old active.now kind.ActiveRequest }
    requires number { 0 < numbers_left hub.old }
    ensures free { IfOk result (λ response. IsFree [] hub.old response) }
    ensures kind { IfOk result (λ response. Names hub.new response kind.ResponseMut) }
    ensures keeps { Keeps [] hub.old hub.new }
{
    match way {
        Way::Counted(len, factor, first) => counted_response(hub, active, len, factor, first),
        Way::Copied(values) | Way::Sent(values) => copied_response(hub, active, values),
    }
}

/// Sends a response that is written in some way.
fn respond(hub: &mut Service, active: &ActiveRequest<u64>, way: Way) -> Result<(), SendError>
    requires active { Names hub.old active.now kind.ActiveRequest }
    requires number { 0 < numbers_left hub.old }
    ensures { Keeps [] hub.old hub.new }
{
    if let Way::Sent(values) = way {
        return active.send_slice(hub, values);
    }
    let response = responded(hub, active, way)?;
    response.send(hub)
}

/// Receives a request, responds to it and releases it. Returns whether it has these elements.
fn is_heard(hub: &mut Service, server: &Server<u64>, way: Way, asked: &[u64]) -> Result<bool, Error>
    requires server { Names hub.old server.now kind.Server }
    requires numbers { 1 < numbers_left hub.old }
    ensures { Keeps [] hub.old hub.new }
{
    let Some(active) = server.receive(hub)? else {
        return Ok(false);
    };
    let is_asked = active.payload(hub) == asked;
    let sent = respond(hub, &active, way);
    active.release(hub);
    sent?;
    Ok(is_asked)
}

/// Receives a response and releases it. Returns whether it has these elements.
fn is_answered(
    hub: &mut Service,
    pending: &PendingResponse<u64>,
    answer: &[u64],
) -> Result<bool, Error>
    requires { Names hub.old pending.now kind.PendingResponse }
    ensures { Keeps [] hub.old hub.new }
{
    let Some(response) = pending.receive(hub)? else {
        return Ok(false);
    };
    let is_answer = response.payload(hub) == answer;
    response.release(hub);
    Ok(is_answer)
}

/// A request and the response to it: how each is written, and the elements that it is to have.
#[derive(Clone, Copy)]
struct Row {
    request: Way,
    asked: &'static [u64],
    response: Way,
    answer: &'static [u64],
}

/// Sends a request, responds to it and receives the response. Returns whether each has the elements that it is to
/// have.
fn exchange(
    hub: &mut Service,
    client: &Client<u64>,
    server: &Server<u64>,
    row: &Row,
) -> Result<(bool, bool), Error>
    requires client { Names hub.old client.now kind.Client }
    requires server { Names hub.old server.now kind.Server }
    requires numbers { 2 < numbers_left hub.old }
    ensures { Keeps [] hub.old hub.new }
{
    let pending = ask(hub, client, row.request)?;
    let heard = is_heard(hub, server, row.response, row.asked);
    let answered = is_answered(hub, &pending, row.answer);
    pending.release(hub);
    Ok((heard?, answered?))
}

/// The rows of iceoryx2's documents, and one for each other way.
const ROWS: [Row; 4] = [
    Row {
        request: Way::Counted(13, 1, 123),
        asked: &[
            123, 124, 125, 126, 127, 128, 129, 130, 131, 132, 133, 134, 135,
        ],
        response: Way::Counted(13, 2, 3),
        answer: &[3, 5, 7, 9, 11, 13, 15, 17, 19, 21, 23, 25, 27],
    },
    Row {
        request: Way::Counted(10, 2, 1),
        asked: &[1, 3, 5, 7, 9, 11, 13, 15, 17, 19],
        response: Way::Counted(10, 3, 4),
        answer: &[4, 7, 10, 13, 16, 19, 22, 25, 28, 31],
    },
    Row {
        request: Way::Copied(&[1, 2, 3]),
        asked: &[1, 2, 3],
        response: Way::Copied(&[1, 2, 3, 4]),
        answer: &[1, 2, 3, 4],
    },
    Row {
        request: Way::Sent(&[4, 5]),
        asked: &[4, 5],
        response: Way::Sent(&[6, 7, 8]),
        answer: &[6, 7, 8],
    },
];

/// A message grows beyond the length that its slot had at first, and is received as it was written.
#[test]
fn slices_are_received_as_they_were_written(rt: HostRuntime) {
    for row in &ROWS {
        let hub = Service::new(rt.alloc(), LIMITS, UniqueNodeId(7)).expect(&rt, "a hub");
        let clients = hub
            .client_builder()
            .allocation_strategy(AllocationStrategy::PowerOfTwo);
        let servers = hub
            .server_builder()
            .allocation_strategy(AllocationStrategy::BestFit);
        let mut ports = Connected::by(hub, clients, servers).expect(&rt, "ports");
        let exchanged = exchange(&mut ports.hub, &ports.client, &ports.server, row);
        ports.end();
        assert_eq!(rt; exchanged, Ok((true, true)));
    }
}
