//! Making hubs, and creating ports with settings.
#![tactic(auto, using(rr_ports::proofs::Frames::callers), unfolding(rr_ports::specs::Facts::Keeps, rr_ports::specs::Facts::IsFree))]

ghost use Rattle.std.specs.Prelude.{◌≡◌, ◌↔◌, [], IfOk, IsTrue};
ghost use Rattle.rr_protocol.specs.declared.kind.Kind.TheVariants as kind;
ghost use Rattle.rr_protocol.specs.Limits.{worst_case_requests};
ghost use Rattle.rr_ports.specs.Facts.{Has, IsFree, Keeps, Names, WholePool};

use rr_ports::sliced::{Client, Hub, PortFactoryClient, Server};
use rr_ports::{
    AllocationStrategy, BackpressureStrategy, ClientCreateError, ConnectionFailure, Handle,
    HubCreateError, Limits, NoHandler, NoOverride, Override, Preallocation, ServerCreateError,
    UniqueNodeId, UpdateConnections,
};
use std::alloc::Global;

/// A service of slices of numbers, without user headers.
pub type Service = Hub<u64, (), u64, ()>;

/// Makes the hub of a service with three clients at most and the other limits of iceoryx2's configuration.
///
/// # Errors
///
/// As `Hub::new`; these limits are never refused.
pub fn small_service(alloc: Global) -> Result<Service, HubCreateError> {
    Hub::new(alloc, Limits::default().max_clients(3), UniqueNodeId(0))
}

/// Creates a client whose slots have room for 16 elements and grow for more, and whose sends are refused at a full
/// queue that may not overflow.
///
/// # Errors
///
/// As `PortFactoryClient::create`.
pub fn patient_client(hub: &mut Service) -> Result<Client<u64>, ClientCreateError>
    ensures free { IfOk result (λ client. IsFree [] hub.old client) }
    ensures kind { IfOk result (λ client. Names hub.new client kind.Client) }
    ensures pool { IfOk result (λ client. Has hub.new client (WholePool 16)) }
    ensures keeps { Keeps [] hub.old hub.new }
{
    hub.client_builder()
        .initial_max_slice_len(16)
        .allocation_strategy(AllocationStrategy::PowerOfTwo)
        .backpressure_strategy(BackpressureStrategy::RetryUntilDelivered)
        .create(hub)
}

/// Creates a server that may have three responses on loan for each request, and has half of its worst-case pool.
///
/// # Errors
///
/// As `PortFactoryServer::create`.
pub fn frugal_server(hub: &mut Service) -> Result<Server<u64>, ServerCreateError>
    ensures free { IfOk result (λ server. IsFree [] hub.old server) }
    ensures kind { IfOk result (λ server. Names hub.new server kind.Server) }
    ensures keeps { Keeps [] hub.old hub.new }
{
    hub.server_builder()
        .max_loaned_responses_per_request(3)
        .override_response_preallocation(|worst_case: usize| worst_case / 2)
        .create(hub)
}

/// Creates a client by a factory, whatever chooses its pool.
///
/// # Errors
///
/// As `PortFactoryClient::create`.
pub fn created_by<P: Preallocation + Drop>(
    hub: &mut Service,
    factory: PortFactoryClient<u64, NoHandler, P>,
) -> Result<Client<u64>, ClientCreateError>
    requires { P.accepts factory.preallocation (worst_case_requests hub.old.limits) }
    ensures free { IfOk result (λ client. IsFree [] hub.old client) }
    ensures kind { IfOk result (λ client. Names hub.new client kind.Client) }
    ensures keeps { Keeps [] hub.old hub.new }
{
    factory.create(hub)
}

/// Returns whether a port or a handle is one of the hub.
pub fn is_known<H: Handle>(hub: &Service, handle: &H) -> bool
    ensures { IsTrue result ↔ Names hub.now (H.number handle.now) H.kind }
{
    hub.holds(handle)
}

/// Connects a port with others, as a program does that was written for iceoryx2.
///
/// # Errors
///
/// As `UpdateConnections::update_connections`: never returns an error.
pub fn connect<P: UpdateConnections>(hub: &Service, port: &P) -> Result<(), ConnectionFailure> {
    port.update_connections(hub)
}

/// Returns a factory of clients with room for 64 elements, whose pool has the worst-case size.
pub fn wide_clients(hub: &Service) -> PortFactoryClient<u64, NoHandler, NoOverride> {
    hub.client_builder().initial_max_slice_len(64)
}

/// Returns a factory of clients whose pool has the size that a function chooses.
pub fn chosen_clients<F: FnOnce(usize) -> usize>(
    hub: &Service,
    choose: F,
) -> PortFactoryClient<u64, NoHandler, Override<F>>
    ensures { result.preallocation ≡ choose }
{
    hub.client_builder().override_request_preallocation(choose)
}
