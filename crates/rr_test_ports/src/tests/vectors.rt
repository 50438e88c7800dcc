//! Single values, as iceoryx2's documents write and send them.
#![tactic(auto, using(rr_ports::proofs::Frames::callers), unfolding(rr_ports::specs::Facts::Keeps, rr_ports::specs::Facts::IsFree))]

ghost use Rattle.std.specs.Prelude.{◌<◌, IfOk, []};
ghost use Rattle.rr_protocol.specs.declared.kind.Kind.TheVariants as kind;
ghost use Rattle.rr_ports.specs.Facts.{IsFree, Keeps, Names, numbers_left};

use super::fixtures::{LIMITS, Received, SETUP, Setup, answered, connect, end, heard, received};
use rr_callers::frames::{Service, ask};
use rr_ports::typed::{ActiveRequest, Client, ResponseMutUninit, Server};
use rr_ports::{Error, Limits, LoanError, SendError, UniqueClientId, UniqueNodeId};

/// Loans a response with a default payload, sets it and sends it.
fn send_set(hub: &mut Service, active: &ActiveRequest<u64>, value: u64) -> Result<(), SendError>
    requires active { Names hub.old active.now kind.ActiveRequest }
    requires number { 0 < numbers_left hub.old }
    ensures { Keeps [] hub.old hub.new }
{
    let response = active.loan(hub)?;
    response.update(hub, |payload: &mut u64| *payload = value);
    response.send(hub)
}

/// Loans a response, writes its payload and sends it.
fn send_written(hub: &mut Service, active: &ActiveRequest<u64>, value: u64) -> Result<(), SendError>
    requires active { Names hub.old active.now kind.ActiveRequest }
    requires number { 0 < numbers_left hub.old }
    ensures { Keeps [] hub.old hub.new }
{
    let response = active.loan_uninit(hub)?;
    let response = response.write_payload(hub, value);
    response.send(hub)
}

/// Loans a response and writes its payload through a `&mut`, which does not make it ready to send.
#[tactic(auto, using(rr_ports::proofs::Frames::borrowers), unfolding(rr_ports::specs::Facts::Keeps, rr_ports::specs::Facts::IsFree))]
fn loan_written(
    hub: &mut Service,
    active: &ActiveRequest<u64>,
    value: u64,
) -> Result<ResponseMutUninit<u64>, LoanError>
    requires active { Names hub.old active.now kind.ActiveRequest }
    requires number { 0 < numbers_left hub.old }
    ensures free { IfOk result (λ response. IsFree [] hub.old response) }
    ensures kind { IfOk result (λ response. Names hub.new response kind.ResponseMutUninit) }
    ensures keeps { Keeps [] hub.old hub.new }
{
    let response = active.loan_uninit(hub)?;
    *ResponseMutUninit::payload_mut(hub, &response) = Some(value);
    Ok(response)
}

/// Loans a response, writes a payload and then another one, and sends it with a user header that is written in place.
fn send_rewritten(
    hub: &mut Service,
    active: &ActiveRequest<u64>,
    first: u64,
    value: u64,
) -> Result<(), SendError>
    requires active { Names hub.old active.now kind.ActiveRequest }
    requires number { 0 < numbers_left hub.old }
    ensures { Keeps [] hub.old hub.new }
{
    let response = loan_written(hub, active, first)?;
    let response = response.write_payload(hub, value);
    response.update_user_header(hub, |header: &mut u64| *header = 10);
    response.send(hub)
}

/// How a server writes a response.
#[derive(Clone, Copy)]
enum Way {
    Copied(u64),
    Set(u64),
    Written(u64),
    Rewritten(u64, u64),
}

/// Writes a response in some way and sends it.
fn send(hub: &mut Service, active: &ActiveRequest<u64>, way: Way) -> Result<(), SendError>
    requires active { Names hub.old active.now kind.ActiveRequest }
    requires number { 0 < numbers_left hub.old }
    ensures { Keeps [] hub.old hub.new }
{
    match way {
        Way::Copied(value) => active.send_copy(hub, value),
        Way::Set(value) => send_set(hub, active, value),
        Way::Written(value) => send_written(hub, active, value),
        Way::Rewritten(first, value) => send_rewritten(hub, active, first, value),
    }
}

/// Receives a request, sends a response that is written in some way, and releases the request.
fn answer(hub: &mut Service, server: &Server<u64>, way: Way) -> Result<(), Error>
    requires server { Names hub.old server.now kind.Server }
    requires numbers { 1 < numbers_left hub.old }
    ensures { Keeps [] hub.old hub.new }
{
    let Some(active) = heard(hub, server)? else {
        return Ok(());
    };
    let sent = send(hub, &active, way);
    answered(hub, active);
    Ok(sent?)
}

/// Sends a request, answers it in some way and receives the response.
fn exchange(
    hub: &mut Service,
    client: &Client<u64>,
    server: &Server<u64>,
    value: u64,
    way: Way,
) -> Result<Option<Received>, Error>
    requires client { Names hub.old client.now kind.Client }
    requires server { Names hub.old server.now kind.Server }
    requires numbers { 2 < numbers_left hub.old }
    ensures { Keeps [] hub.old hub.new }
{
    let pending = ask(hub, client, value)?;
    let sent = answer(hub, server, way);
    let came = received(hub, &pending);
    end(hub, pending);
    sent?;
    Ok(came?)
}

/// The payload and the user header that were written last are those that the client receives, however they were
/// written. The response names the server that sent it, and has one element.
#[test]
fn a_response_is_received_as_it_was_written(rt: HostRuntime) {
    for (asked, way, payload, user_header) in [
        (0, Way::Copied(0), 0, 0),
        (123, Way::Set(789), 789, 0),
        (123, Way::Written(456), 456, 0),
        (123, Way::Rewritten(1234, 456), 456, 10),
    ] {
        let mut ports = connect(&rt, rt.alloc(), SETUP);
        let came = (payload, user_header, ports.server.id(), 1);
        let exchanged = exchange(&mut ports.hub, &ports.client, &ports.server, asked, way);
        ports.end();
        assert_eq!(rt; exchanged, Ok(Some(came)));
    }
}

/// The payload of a request, whether somebody waits for responses, and which client and node sent it.
type Told = (u64, bool, UniqueClientId, UniqueNodeId);

/// Receives a request and releases it. Returns what came.
fn told(hub: &mut Service, server: &Server<u64>) -> Result<Option<Told>, Error>
    requires server { Names hub.old server.now kind.Server }
    requires number { 0 < numbers_left hub.old }
    ensures { Keeps [] hub.old hub.new }
{
    let Some(active) = heard(hub, server)? else {
        return Ok(None);
    };
    let header = active.header(hub);
    let came = (
        *active.payload(hub),
        active.is_connected(hub),
        header.client_id(),
        header.node_id(),
    );
    answered(hub, active);
    Ok(Some(came))
}

/// A request that nobody waits for is received where requests are fire-and-forget, and else dropped. Its header names
/// the client and the node.
#[test]
fn a_request_that_nobody_waits_for_is_received_or_dropped(rt: HostRuntime) {
    for forget in [true, false] {
        let limits = LIMITS.enable_fire_and_forget_requests(forget);
        let mut ports = connect(&rt, rt.alloc(), Setup { limits, ..SETUP });
        let client = ports.client.id();
        let sent = ports.client.tell(&mut ports.hub, 123);
        let got = told(&mut ports.hub, &ports.server);
        ports.end();
        let came = (123, false, client, UniqueNodeId(7));
        let wanted = if forget { Some(came) } else { None };
        assert_eq!(rt; (sent, got), (Ok(()), Ok(wanted)), "{forget}");
    }
}
