//! Each change that may end a wait wakes the thread that waits, and a refused send gives its message back.
ghost use Rattle.std.specs.Prelude.{◌≡◌};

use super::worker::{Active, Numbers, Pending, Shared, Worker, given_back, made};
use rr_ports::{Limits, Refused, RequestSendError, SendError, UniqueNodeId};
use rr_shared_ports::typed::{Client, Server};
use rr_shared_ports::{Naming, WaitError};
use std::marker::Brand;
use std::process::Abort;
use std::sync::Wait;
use std::sync::atomic::{AtomicU64, Ordering};
use std::test::Fail;
use std::thread;
use std::thread::Threads;
use std::time::{Clock, Duration};

/// The event that a thread waits for.
#[derive(Clone, Copy, Debug)]
enum Awaited {
    /// A request, at a server.
    Request,
    /// A response to a request that the server has received,
    Response,
    /// or not.
    LaterResponse,
    /// Room in a server's queue.
    RoomToAsk,
    /// Room in the queue of a pending response.
    RoomToAnswer,
}

/// The other thread's change.
#[derive(Clone, Copy, Debug, PartialEq)]
enum Change {
    RequestQueued,
    ResponseQueued,
    RequestTaken,
    ResponseTaken,
    PendingResponseEnded,
    ActiveRequestEnded,
    ServerLeft,
    /// A server whose value was released before leaves as its last response is sent,
    LastResponseSent,
    /// tried to be sent,
    LastResponseTried,
    /// or released.
    LastResponseReleased,
    Closed,
}

/// Each change and a wait that it ends, as the table in `waking.rt` of `rr_shared_ports` has them.
const ROWS: [(Awaited, Change); 15] = [
    (Awaited::Request, Change::RequestQueued),
    (Awaited::Request, Change::Closed),
    (Awaited::Response, Change::ResponseQueued),
    (Awaited::Response, Change::ActiveRequestEnded),
    (Awaited::Response, Change::Closed),
    (Awaited::LaterResponse, Change::ServerLeft),
    (Awaited::RoomToAsk, Change::RequestTaken),
    (Awaited::RoomToAsk, Change::ServerLeft),
    (Awaited::RoomToAsk, Change::LastResponseSent),
    (Awaited::RoomToAsk, Change::LastResponseTried),
    (Awaited::RoomToAsk, Change::LastResponseReleased),
    (Awaited::RoomToAsk, Change::Closed),
    (Awaited::RoomToAnswer, Change::ResponseTaken),
    (Awaited::RoomToAnswer, Change::PendingResponseEnded),
    (Awaited::RoomToAnswer, Change::Closed),
];

/// Queues of two. A server receives requests whose client awaits no answer, too.
const NARROW: Limits = Limits {
    max_active_requests_per_client: 2,
    max_response_buffer_size: 2,
    enable_fire_and_forget_requests: true,
    ..Limits::SMALLEST
};

/// How far the threads are: the server is created, a request is received, a thread waits, and has been woken.
const IS_READY: u64 = 1;

const IS_HEARD: u64 = 2;

const WAITS: u64 = 3;

const IS_WOKEN: u64 = 4;

/// The waits. Each returns whether it ended as expected: by a close, or with the awaited event.
impl<N: Naming, R: Abort + Wait> Worker<'_, N, R> {
    fn wait_to_hear(&mut self, server: &Server<N, u64>, change: Change, stage: &AtomicU64) -> bool {
        stage.store(WAITS, Ordering::SeqCst);
        match server.receive_wait(self.hub, self.rt, &mut self.seat) {
            Ok(active) => {
                self.finish(active);
                change != Change::Closed
            }
            Err(error) => change == Change::Closed && error == WaitError::Closed,
        }
    }

    fn wait_to_take(&mut self, pending: &Pending<N>, change: Change, stage: &AtomicU64) -> bool {
        stage.store(WAITS, Ordering::SeqCst);
        match pending.receive_wait(self.hub, self.rt, &mut self.seat) {
            Ok(Some(response)) => {
                response.release(self.hub, self.rt, &mut self.seat);
                change != Change::Closed
            }
            Ok(None) => change != Change::Closed,
            Err(error) => change == Change::Closed && error == WaitError::Closed,
        }
    }

    fn wait_to_ask(&mut self, client: &Client<N, u64>, change: Change, stage: &AtomicU64) -> bool {
        self.tell(client, 0);
        self.tell(client, 1);
        let request = self.loan_request(client);
        let request = self.write_request(request, 2);
        let tried = request.try_send(self.hub, self.rt, &mut self.seat);
        let full = RequestSendError::SendError(SendError::UnableToDeliver);
        let request = given_back(self.rt, tried, full);
        stage.store(WAITS, Ordering::SeqCst);
        match request.send_wait(self.hub, self.rt, &mut self.seat) {
            Ok(pending) => {
                self.forget(pending);
                change != Change::Closed
            }
            Err(Refused { message, error }) => {
                message.release(self.hub, self.rt, &mut self.seat);
                change == Change::Closed && error == WaitError::Closed
            }
        }
    }

    fn wait_to_answer(&mut self, active: &Active<N>, change: Change, stage: &AtomicU64) -> bool {
        self.answer(active, 0);
        self.answer(active, 1);
        let response = self.loan_response(active);
        let response = self.write_response(response, 2);
        let tried = response.try_send(self.hub, self.rt, &mut self.seat);
        let response = given_back(self.rt, tried, SendError::UnableToDeliver);
        stage.store(WAITS, Ordering::SeqCst);
        match response.send_wait(self.hub, self.rt, &mut self.seat) {
            Ok(()) => change != Change::Closed,
            Err(Refused { message, error }) => {
                message.release(self.hub, self.rt, &mut self.seat);
                change == Change::Closed && error == WaitError::Closed
            }
        }
    }
}

/// The changes. Each returns whether it ends the wait within a second.
impl<N: Naming, R: Abort + Wait + Clock> Worker<'_, N, R> {
    /// Sleeps until the threads are so far, at most for a second. Returns whether they are.
    fn until(&self, at: &AtomicU64, stage: u64) -> bool {
        for _ in 0..1_000 {
            if at.load(Ordering::SeqCst) >= stage {
                return true;
            }
            thread::sleep(self.rt, Duration::from_millis(1));
        }
        false
    }

    /// Sleeps until the other thread sleeps.
    fn before_change(&self, stage: &AtomicU64) {
        self.until(stage, WAITS);
        thread::sleep(self.rt, Duration::from_millis(20));
    }

    /// Returns whether the wait is over within a second, and closes the hub then.
    fn has_woken(&self, stage: &AtomicU64) -> bool {
        let is_woken = self.until(stage, IS_WOKEN);
        self.hub.close();
        is_woken
    }

    fn change_as_client(
        &mut self,
        client: &Client<N, u64>,
        pending: Pending<N>,
        change: Change,
        stage: &AtomicU64,
    ) -> bool {
        self.before_change(stage);
        match change {
            Change::PendingResponseEnded => {
                self.forget(pending);
                return self.has_woken(stage);
            }
            Change::RequestQueued => self.tell(client, 3),
            Change::ResponseTaken => {
                let _ = pending.receive_copy(self.hub, self.rt, &mut self.seat);
            }
            _ => self.hub.close(),
        }
        let has_woken = self.has_woken(stage);
        self.forget(pending);
        has_woken
    }

    fn change_as_server(
        &mut self,
        server: &Server<N, u64>,
        active: Active<N>,
        change: Change,
        stage: &AtomicU64,
    ) -> bool {
        self.before_change(stage);
        match change {
            Change::ActiveRequestEnded => {
                self.finish(active);
                return self.has_woken(stage);
            }
            Change::ResponseQueued => self.answer(&active, 3),
            Change::RequestTaken => {
                let _ = server.receive_copy(self.hub, self.rt, &mut self.seat);
            }
            _ => self.hub.close(),
        }
        let has_woken = self.has_woken(stage);
        self.finish(active);
        has_woken
    }

    /// Makes the server leave.
    fn leave(
        &mut self,
        server: Server<N, u64>,
        active: Active<N>,
        change: Change,
        stage: &AtomicU64,
    ) -> bool {
        if change == Change::ServerLeft {
            self.finish(active);
            self.before_change(stage);
            server.release(self.hub, self.rt, &mut self.seat);
            return self.has_woken(stage);
        }
        let response = self.loan_response(&active);
        let response = self.write_response(response, 9);
        self.finish(active);
        server.release(self.hub, self.rt, &mut self.seat);
        self.before_change(stage);
        match change {
            Change::LastResponseSent => {
                let sent = response.send(self.hub, self.rt, &mut self.seat);
                assert!(self.rt; sent.is_ok());
            }
            Change::LastResponseTried => {
                let tried = response.try_send(self.hub, self.rt, &mut self.seat);
                made(self.rt, tried);
            }
            _ => response.release(self.hub, self.rt, &mut self.seat),
        }
        self.has_woken(stage)
    }
}

/// The threads. Each returns whether its wait ended as it should, or its change ended the other one's wait.
impl<N: Naming, R: Abort + Wait + Clock> Worker<'_, N, R> {
    fn play_client(&mut self, awaited: Awaited, change: Change, stage: &AtomicU64) -> bool {
        let client = self.client();
        self.until(stage, IS_READY);
        let pending = self.ask(&client, 1);
        self.until(stage, IS_HEARD);
        let is_right = match awaited {
            Awaited::Response => self.wait_to_take(&pending, change, stage),
            Awaited::LaterResponse => {
                let later = self.ask(&client, 2);
                let is_right = self.wait_to_take(&later, change, stage);
                self.forget(later);
                is_right
            }
            Awaited::RoomToAsk => self.wait_to_ask(&client, change, stage),
            Awaited::Request | Awaited::RoomToAnswer => {
                let has_woken = self.change_as_client(&client, pending, change, stage);
                client.release(self.hub, self.rt, &mut self.seat);
                return has_woken;
            }
        };
        stage.store(IS_WOKEN, Ordering::SeqCst);
        self.forget(pending);
        client.release(self.hub, self.rt, &mut self.seat);
        is_right
    }

    fn play_server(&mut self, awaited: Awaited, change: Change, stage: &AtomicU64) -> bool {
        let server = self.server();
        stage.store(IS_READY, Ordering::SeqCst);
        let active = self.hear(&server).expect(self.rt, "a request comes");
        stage.store(IS_HEARD, Ordering::SeqCst);
        let is_right = match (awaited, change) {
            (Awaited::Request, _) => self.wait_to_hear(&server, change, stage),
            (Awaited::RoomToAnswer, _) => self.wait_to_answer(&active, change, stage),
            (
                _,
                Change::ServerLeft
                | Change::LastResponseSent
                | Change::LastResponseTried
                | Change::LastResponseReleased,
            ) => return self.leave(server, active, change, stage),
            _ => {
                let has_woken = self.change_as_server(&server, active, change, stage);
                server.release(self.hub, self.rt, &mut self.seat);
                return has_woken;
            }
        };
        stage.store(IS_WOKEN, Ordering::SeqCst);
        self.finish(active);
        server.release(self.hub, self.rt, &mut self.seat);
        is_right
    }
}

/// Lets one thread wait and the other one end the wait. Returns whether that woke it within a second.
fn is_woken<N: Naming, R: Abort + Threads + Wait + Clock + Sync>(
    rt: &R,
    opened: Numbers,
    awaited: Awaited,
    change: Change,
) -> bool
    requires keeper { opened.keeper_id ≡ N.keeper_id }
    requires log { opened.log_id ≡ N.log_id }
    requires limits { opened.limits ≡ N.limits }
    requires node_id { opened.node_id ≡ N.node_id }
{
    let hub: Shared<N> = opened.named::<N>();
    let stage = AtomicU64::new(0);
    let (hub, stage) = (&hub, &stage);
    let (asked, answered) = thread::join(
        rt,
        || Worker::at(rt, hub).play_client(awaited, change, stage),
        || Worker::at(rt, hub).play_server(awaited, change, stage),
    );
    asked && answered
}

#[test]
fn each_change_wakes_who_waits_for_it(rt: HostRuntime) -> Result<(), Fail> {
    for (awaited, change) in ROWS {
        let opened = Numbers::new(rt.alloc(), NARROW, UniqueNodeId(3))?;
        let is_woken = is_woken::<Brand, _>(&rt, opened, awaited, change);
        assert!(rt; is_woken, "{awaited:?}, {change:?}");
    }
    Ok(())
}
