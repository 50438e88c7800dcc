//! A client in one thread and a server in another, at a hub of the typed family.
ghost use Rattle.std.specs.Prelude.{◌≡◌};

use super::exchange::{meet, release_both};
use super::worker::{Caller, Numbers, Ports, Shared, Worker};
use rr_ports::{Limits, Refused, UniqueNodeId};
use rr_shared_ports::typed::{Client, PendingResponse, Server};
use rr_shared_ports::{AskError, FinishError, Naming, WaitError};
use std::marker::Brand;
use std::process::Abort;
use std::sync::Wait;
use std::test::Fail;
use std::thread;
use std::thread::Threads;
use std::time::{Clock, Duration};

/// Waits for a request that doesn't come. Returns whether the time ended the wait.
fn times_out<N: Naming, R: Wait + Clock>(
    rt: &R,
    hub: &Shared<N>,
    seat: &mut Caller<N>,
    server: &Server<N, u64>,
) -> bool {
    match server.receive_timeout(hub, rt, seat, Duration::from_millis(20)) {
        Ok(active) => {
            active.release(hub, rt, seat);
            false
        }
        Err(error) => error == WaitError::TimedOut,
    }
}

/// Finishes a request. Returns why that can't be, where it is released.
fn unfinished<N: Naming, R: Wait>(
    rt: &R,
    hub: &Shared<N>,
    seat: &mut Caller<N>,
    pending: PendingResponse<N, u64>,
) -> Option<FinishError> {
    match pending.finish(hub, rt, seat) {
        Ok(_answer) => None,
        Err(Refused { message, error }) => {
            message.release(hub, rt, seat);
            Some(error)
        }
    }
}

impl<N: Naming, R: Abort + Wait + Clock> Worker<'_, N, R> {
    /// Waits for a request and for a response, which don't come, until the time ends the waits.
    fn wait_for_a_moment(&mut self, ports: &Ports<N>) {
        assert!(self.rt; times_out(self.rt, self.hub, &mut self.seat, &ports.server));
        match self.take_soon(&ports.pending, Duration::from_millis(20)) {
            Ok(_) => panic!(self.rt; "nobody answers"),
            Err(error) => assert!(self.rt; error == WaitError::TimedOut),
        }
    }

    /// Releases all but the client, which then asks in vain: at a closed hub, and without a server.
    fn ask_in_vain(&mut self, ports: Ports<N>) -> Client<N, u64> {
        let Ports {
            client,
            server,
            pending,
            active,
        } = ports;
        let found = unfinished(self.rt, self.hub, &mut self.seat, pending);
        assert!(self.rt; found == Some(FinishError::NoResponse));
        let closed = client.call(self.hub, self.rt, &mut self.seat, 9);
        assert!(self.rt; closed == Err(AskError::Finish(WaitError::Closed)));
        release_both(self.rt, self.hub, &mut self.seat, active, server);
        let alone = client.call(self.hub, self.rt, &mut self.seat, 9);
        let nobody = WaitError::Call(FinishError::NoServer);
        assert!(self.rt; alone == Err(AskError::Finish(nobody)));
        client
    }

    /// Compares what two seats have seen, and releases all.
    fn end(&mut self, ports: Ports<N>) {
        meet(self.hub, &mut self.seat, &mut self.hub.seat());
        let client = self.ask_in_vain(ports);
        client.release(self.hub, self.rt, &mut self.seat);
    }
}

/// The counts of a client's thread and a server's.
type Counted = (u64, u64);

/// Runs two threads that make each call. Returns their counts.
fn call<N: Naming, R: Abort + Threads + Wait + Clock + Sync>(
    rt: &R,
    hub: &Shared<N>,
    ports: &Ports<N>,
) -> Counted {
    thread::join(
        rt,
        || Worker::at(rt, hub).make_each_call(ports),
        || Worker::at(rt, hub).answer_each_call(ports),
    )
}

/// Runs two threads that exchange numbers, while a second server receives one request and leaves without an answer.
/// Returns their counts.
fn exchange<N: Naming, R: Abort + Threads + Wait + Clock + Sync>(
    rt: &R,
    hub: &Shared<N>,
    ports: &Ports<N>,
) -> Counted {
    let (asked, (served, _)) = thread::join(
        rt,
        || Worker::at(rt, hub).ask_and_close(&ports.client),
        || thread::join(
            rt,
            || Worker::at(rt, hub).serve_until_closed(&ports.server),
            || Worker::at(rt, hub).hear_and_leave(),
        ),
    );
    (asked, served)
}

/// Makes ports, plays both scenes, and releases the ports. Returns the threads' counts.
fn played<N: Naming, R: Abort + Threads + Wait + Clock + Sync>(
    rt: &R,
    opened: Numbers,
) -> (Counted, Counted)
    requires keeper { opened.keeper_id ≡ N.keeper_id }
    requires log { opened.log_id ≡ N.log_id }
    requires limits { opened.limits ≡ N.limits }
    requires node_id { opened.node_id ≡ N.node_id }
{
    let hub: Shared<N> = opened.named::<N>();
    let hub = &hub;
    let ports = Worker::at(rt, hub).ports();
    Worker::at(rt, hub).wait_for_a_moment(&ports);
    let called = call(rt, hub, &ports);
    let exchanged = exchange(rt, hub, &ports);
    Worker::at(rt, hub).end(ports);
    (called, exchanged)
}

#[test]
fn threads_make_each_call_and_exchange_numbers(rt: HostRuntime) -> Result<(), Fail> {
    let opened = Numbers::new(rt.alloc(), Limits::DEFAULT, UniqueNodeId(3))?;
    let counted = played::<Brand, _>(&rt, opened);
    assert_eq!(rt; counted, ((223, 22), (500_500, 1_000)));
    Ok(())
}

#[test]
fn claims_and_seats_have_no_bytes(rt: HostRuntime) {
    let claimed = size_of::<Client<Brand, u64>>();
    assert_eq!(rt; claimed, size_of::<rr_ports::typed::Client<u64>>());
    assert_eq!(rt; size_of::<Caller<Brand>>(), 0);
}
