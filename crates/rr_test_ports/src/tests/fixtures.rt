//! Hubs of single numbers, with a client and a server.
#![tactic(auto, using(rr_ports::proofs::Frames::callers), unfolding(rr_ports::specs::Facts::Keeps, rr_ports::specs::Facts::IsFree))]

ghost use Rattle.std.specs.Prelude.{◌<◌, ◌≤◌, ◌+◌, ◌∷◌, ◌≡◌, [], IfOk, IfSome};
ghost use Rattle.rr_protocol.specs.declared.kind.Kind.TheVariants as kind;
ghost use Rattle.rr_ports.specs.Facts.{IsFree, Keeps, Names, numbers_left};

use rr_callers::connected::Connected;
use rr_callers::frames::Service;
use rr_ports::typed::{ActiveRequest, PendingResponse, PortFactoryServer, Server};
use rr_ports::{Limits, NoHandler, ReceiveError, UniqueNodeId, UniqueServerId};
use std::alloc::Global;
use std::process::Abort;

/// Limits of two of everything and one loaned request, with queues that refuse.
pub const LIMITS: Limits = Limits {
    max_clients: 2,
    max_servers: 2,
    max_active_requests_per_client: 2,
    max_response_buffer_size: 2,
    client_expired_connection_buffer: 1,
    server_expired_connection_buffer: 1,
    ..Limits::SMALLEST
};

/// The settings of a hub, a client and a server.
#[derive(Clone, Copy)]
pub struct Setup {
    pub limits: Limits,
    /// The requested number of slots in both pools.
    pub slots: usize,
    /// The server's loaned responses per request, if they are set.
    pub loans: Option<usize>,
}

/// The pools of the worst case, and else what builders set at first.
pub const SETUP: Setup = Setup {
    limits: LIMITS,
    slots: usize::MAX,
    loans: None,
};

/// A hub with a client 0 and a server 1.
pub type Ports = Connected<Option<u64>, u64, Option<u64>, u64, NoHandler>;

/// Returns a factory of servers with the loaned responses per request, if they are set.
fn servers(hub: &Service, loans: Option<usize>) -> PortFactoryServer<u64> {
    match loans {
        Some(loans) => hub.server_builder().max_loaned_responses_per_request(loans),
        None => hub.server_builder(),
    }
}

/// Makes a hub with a client and a server.
pub fn connect(rt: &impl Abort, alloc: Global, setup: Setup) -> Ports
    ensures client { Names result.hub result.client kind.Client }
    ensures server { Names result.hub result.server kind.Server }
    ensures numbers { 9 < numbers_left result.hub }
{
    let slots = setup.slots;
    let mut hub = Service::new(alloc, setup.limits, UniqueNodeId(7)).expect(rt, "a hub");
    let clients = hub
        .client_builder()
        .override_request_preallocation(move |_: usize| slots);
    let client = clients.create(&mut hub).expect(rt, "a client");
    let servers = servers(&hub, setup.loans).override_response_preallocation(move |_: usize| slots);
    let server = servers.create(&mut hub).expect(rt, "a server");
    Connected {
        hub,
        client,
        server,
    }
}

/// Receives a request.
pub fn heard(
    hub: &mut Service,
    server: &Server<u64>,
) -> Result<Option<ActiveRequest<u64>>, ReceiveError>
    requires server { Names hub.old server.now kind.Server }
    requires number { 0 < numbers_left hub.old }
    ensures free { IfOk result (λ came. IfSome came (λ active. IsFree [] hub.old active)) }
    ensures kind { IfOk result (λ came. IfSome came (λ active. Names hub.new active kind.ActiveRequest)) }
    ensures keeps { Keeps [] hub.old hub.new }
    ensures numbers { numbers_left hub.old ≤ numbers_left hub.new + 1 }
{
    server.receive(hub)
}

/// Releases a request that was received.
pub fn answered(hub: &mut Service, active: ActiveRequest<u64>)
    requires { Names hub.old active kind.ActiveRequest }
    ensures keeps { Keeps (active ∷ []) hub.old hub.new }
    ensures numbers { numbers_left hub.new ≡ numbers_left hub.old }
{
    active.release(hub);
}

/// Releases a request that was sent.
pub fn end(hub: &mut Service, pending: PendingResponse<u64>)
    requires { Names hub.old pending kind.PendingResponse }
    ensures keeps { Keeps (pending ∷ []) hub.old hub.new }
    ensures numbers { numbers_left hub.new ≡ numbers_left hub.old }
{
    pending.release(hub);
}

/// The payload and the user header of a response, the server that sent it, and of how many elements it is.
pub type Received = (u64, u64, UniqueServerId, u64);

/// Receives a response and releases it. Returns what came.
pub fn received(
    hub: &mut Service,
    pending: &PendingResponse<u64>,
) -> Result<Option<Received>, ReceiveError>
    requires { Names hub.old pending.now kind.PendingResponse }
    ensures { Keeps [] hub.old hub.new }
{
    let Some(response) = pending.receive(hub)? else {
        return Ok(None);
    };
    let came = (
        *response.payload(hub),
        *response.user_header(hub),
        response.origin(hub),
        response.header(hub).number_of_elements(),
    );
    response.release(hub);
    Ok(Some(came))
}
