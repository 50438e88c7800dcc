//! Ports that builders made with settings, and with the defaults.
#![tactic(auto, using(rr_ports::proofs::Frames::callers), unfolding(rr_ports::specs::Facts::Keeps, rr_ports::specs::Facts::IsFree))]

ghost use Rattle.std.specs.Prelude.{◌<◌, ◌≤◌, ◌+◌, []};
ghost use Rattle.rr_protocol.specs.declared.kind.Kind.TheVariants as kind;
ghost use Rattle.rr_ports.specs.Facts.{Keeps, Names, numbers_left};

use rr_callers::slices::Service;
use rr_ports::sliced::{Client, PortFactoryClient, PortFactoryServer};
use rr_ports::{
    AllocationStrategy, BackpressureStrategy, ClientCreateError, LoanError, ServerCreateError,
    UniqueNodeId,
};

/// Loans a request of default elements, and releases it. Returns how many it has.
fn loaned_len(hub: &mut Service, client: &Client<u64>, len: usize) -> Result<usize, LoanError>
    requires client { Names hub.old client.now kind.Client }
    requires number { 0 < numbers_left hub.old }
    ensures keeps { Keeps [] hub.old hub.new }
    ensures numbers { numbers_left hub.old ≤ numbers_left hub.new + 1 }
{
    let request = client.loan_slice(hub, len)?;
    let loaned = request.payload(hub).len();
    request.release(hub);
    Ok(loaned)
}

/// A client's strategy at a full queue, the room of its slots in elements, and the length of a loaned request.
type ClientSettings = (BackpressureStrategy, usize, Result<usize, LoanError>);

/// Creates a client, loans a request of `len` elements, and releases both. Returns the client's settings.
fn client_settings(
    hub: &mut Service,
    factory: PortFactoryClient<u64>,
    len: usize,
) -> Result<ClientSettings, ClientCreateError>
    requires { 1 < numbers_left hub.old }
    ensures { numbers_left hub.old ≤ numbers_left hub.new + 2 }
{
    let client = factory.create(hub)?;
    let strategy = client.backpressure_strategy(hub);
    let room = client.initial_max_slice_len(hub);
    let loaned = loaned_len(hub, &client, len);
    client.release(hub);
    Ok((strategy, room, loaned))
}

/// A client waits at full queues and its slots grow, if it is set to. Otherwise it skips them, and its slots have
/// room for one element and don't grow.
#[test]
fn a_client_is_as_its_builder_set_it(rt: HostRuntime) {
    let mut hub = Service::with_default_limits(rt.alloc(), UniqueNodeId(0));
    let factory = hub
        .client_builder()
        .backpressure_strategy(BackpressureStrategy::RetryUntilDelivered)
        .initial_max_slice_len(2)
        .allocation_strategy(AllocationStrategy::BestFit);
    let set = client_settings(&mut hub, factory, 5);
    let factory = hub.client_builder();
    let found = client_settings(&mut hub, factory, 2);
    drop(hub);
    let waits = BackpressureStrategy::RetryUntilDelivered;
    let passes = BackpressureStrategy::DiscardData;
    let refused = Err(LoanError::ExceedsMaxLoanSize);
    assert_eq!(rt;
        (set, found),
        (Ok((waits, 2, Ok(5))), Ok((passes, 1, refused)))
    );
}

/// Creates a server and releases it. Returns its strategy at a full queue, and the room of its slots in elements.
fn server_settings(
    hub: &mut Service,
    factory: PortFactoryServer<u64>,
) -> Result<(BackpressureStrategy, usize), ServerCreateError> {
    let server = factory.create(hub)?;
    let settings = (
        server.backpressure_strategy(hub),
        server.initial_max_slice_len(hub),
    );
    server.release(hub);
    Ok(settings)
}

/// A server waits at full queues and has room for more elements, if it is set to. Otherwise it skips them, and has
/// room for one.
#[test]
fn a_server_is_as_its_builder_set_it(rt: HostRuntime) {
    let mut hub = Service::with_default_limits(rt.alloc(), UniqueNodeId(0));
    let factory = hub
        .server_builder()
        .backpressure_strategy(BackpressureStrategy::RetryUntilDelivered)
        .initial_max_slice_len(3);
    let set = server_settings(&mut hub, factory);
    let factory = hub.server_builder();
    let found = server_settings(&mut hub, factory);
    drop(hub);
    let waits = BackpressureStrategy::RetryUntilDelivered;
    let passes = BackpressureStrategy::DiscardData;
    assert_eq!(rt; (set, found), (Ok((waits, 3)), Ok((passes, 1))));
}
