//! Hubs of commands: limits that are refused, and seats in several threads.
ghost use Rattle.std.specs.Prelude.{◌≡◌};

use super::rows::NODE;
use rr_protocol::{ClientSettings, HubCreateError, Limits, NoHandler, UniqueNodeId};
use rr_shared::{Command, Naming, Opened, Reply, Seat, SharedHub};
use std::alloc::Global;
use std::marker::Brand;
use std::sync::Wait;
use std::test::Fail;
use std::thread;
use std::thread::Threads;

/// A hub whose elements and user headers are numbers, which has no name yet.
pub type OpenedHub = Opened<u64, Option<u64>, u64, NoHandler>;

/// Such a hub.
pub type Hub<N> = SharedHub<N, u64, Option<u64>, u64, NoHandler>;

/// A seat at it.
pub type HubSeat<N> = Seat<N, u64, u64, NoHandler>;

/// The limits of the hub of two threads.
const LIMITS: Limits = Limits {
    max_clients: 8,
    ..Limits::SMALLEST
};

/// Returns why limits are refused, if they are.
fn refusal(alloc: Global, max_servers: usize) -> Option<HubCreateError> {
    let limits = Limits {
        max_servers,
        ..Limits::SMALLEST
    };
    OpenedHub::new(alloc, limits, NODE).err()
}

#[test]
fn limits_of_nothing_and_of_too_much_are_refused(rt: HostRuntime) {
    let refusals = [0, usize::MAX, 1].map(|most| refusal(rt.alloc(), most));
    let zero = Some(HubCreateError::ZeroLimit);
    let large = Some(HubCreateError::LimitsTooLarge);
    assert_eq!(rt; refusals, [zero, large, None]);
}

/// Creates a client. Returns its number.
fn create<N: Naming, R: Wait>(rt: &R, hub: &Hub<N>, seat: &mut HubSeat<N>) -> Option<u64> {
    let command = Command::CreateClient(ClientSettings::default());
    match hub.submit(rt, seat, command) {
        Reply::Created(number) => Some(number),
        _ => None,
    }
}

/// Creates a client in each of two threads, and compares what their seats have seen then. Returns the clients'
/// numbers.
fn two_create<N: Naming, R: Threads + Wait + Sync>(
    rt: &R,
    opened: OpenedHub,
) -> (Option<u64>, Option<u64>)
    requires log { opened.log_id ≡ N.log_id }
    requires limits { opened.limits ≡ N.limits }
    requires node_id { opened.node_id ≡ N.node_id }
{
    let hub = opened.named::<N>();
    let mut first = hub.seat();
    let mut second = hub.seat();
    let numbers = thread::join(
        rt,
        || create(rt, &hub, &mut first),
        || create(rt, &hub, &mut second),
    );
    hub.compare(&mut first, &mut second);
    numbers
}

#[test]
fn two_threads_get_two_numbers(rt: HostRuntime) -> Result<(), Fail> {
    let opened = OpenedHub::new(rt.alloc(), LIMITS, UniqueNodeId(3))?;
    let numbers = two_create::<Brand, _>(&rt, opened);
    assert!(rt; matches!(numbers, (Some(0), Some(1)) | (Some(1), Some(0))));
    Ok(())
}
