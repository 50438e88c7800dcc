//! A server that waits for requests while none arrive.
ghost use Rattle.std.specs.Prelude.{◌≡◌};

use crate::threads::{Hub, HubSeat, OpenedHub};
use anyhow::bail;
use rr_ports::{Limits, ReceiveError, UniqueNodeId};
use rr_shared_ports::typed::Server;
use rr_shared_ports::{CallError, Naming, WaitError};
use std::alloc::Global;
use std::marker::Brand;
use std::sync::Wait;
use std::thread;
use std::thread::Threads;
use std::time::{Clock, Duration};

/// Why a wait of a server ended.
type Ended = WaitError<CallError<ReceiveError>>;

/// Waits for a request. Returns why none arrived.
fn wait<N: Naming, R: Wait>(
    rt: &R,
    hub: &Hub<N>,
    seat: &mut HubSeat<N>,
    server: &Server<N, u64>,
) -> Option<Ended> {
    match server.receive_wait(hub, rt, seat) {
        Ok(active) => {
            active.release(hub, rt, seat);
            None
        }
        Err(error) => Some(error),
    }
}

/// Closes the hub after a second.
fn close_later<N: Naming, R: Clock>(rt: &R, hub: &Hub<N>) {
    thread::sleep(rt, Duration::from_secs(1));
    hub.close();
}

/// Makes a server wait until the hub is closed. Returns why its wait ended.
fn wait_for_close<N: Naming, R: Threads + Wait + Clock + Sync>(
    rt: &R,
    opened: OpenedHub,
) -> anyhow::Result<Option<Ended>>
    requires keeper { opened.keeper_id ≡ N.keeper_id }
    requires log { opened.log_id ≡ N.log_id }
    requires limits { opened.limits ≡ N.limits }
    requires node_id { opened.node_id ≡ N.node_id }
{
    let hub = opened.named::<N>();
    let mut seat = hub.seat();
    match hub.create_server(rt, &mut seat, hub.server_builder(rt)) {
        Ok(server) => {
            let (ended, _) = thread::join(
                rt,
                || wait(rt, &hub, &mut seat, &server),
                || close_later(rt, &hub),
            );
            server.release(&hub, rt, &mut seat);
            Ok(ended)
        }
        Err(error) => Err(error.into()),
    }
}

/// Makes a server wait for a second, and checks that the close of the hub ended its wait.
pub fn idle<R: Threads + Wait + Clock + Sync>(rt: &R, alloc: Global) -> anyhow::Result<()> {
    let opened = OpenedHub::new(alloc, Limits::SMALLEST, UniqueNodeId(7))?;
    match wait_for_close::<Brand, R>(rt, opened)? {
        Some(WaitError::Closed) => Ok(()),
        ended => bail!("the wait ended with {ended:?}"),
    }
}
