//! Numbers that a client and a server exchange, beside a server that leaves. The client spins first, and sleeps then.
ghost use Rattle.std.specs.Prelude.{◌≡◌, ◌⊎◌, IfOk, IfSome};
ghost use mathlib.Core.List.{IsPrefix};
ghost use Rattle.rr_protocol.specs.State.{empty_hub};
ghost use Rattle.rr_shared_ports.specs.Leading.{WasAnswered};

use super::worker::{Caller, Shared, Worker};
use rr_ports::{BackpressureFn, Body, Hub, ReceiveError, RequestSendError};
use rr_shared_ports::typed::{Client, Server};
use rr_shared_ports::{CallError, Claimed, Naming, Ports, Release};
use std::process::Abort;
use std::sync::Wait;

/// How many are exchanged while the client spins, and as many while it sleeps.
const HALF: u64 = 500;

/// Tells that two callers have seen one history, at a hub of any type.
pub fn meet<N: Naming, H: Ports>(
    hub: &rr_shared_ports::SharedPorts<N, H>,
    one: &mut rr_shared_ports::Seat<N, H>,
    other: &mut rr_shared_ports::Seat<N, H>,
)
    ensures { IsPrefix one.new.1 other.new.1 ⊎ IsPrefix other.new.1 one.new.1 }
{
    hub.compare(one, other);
}

/// Releases two ports or handles, of any type.
pub fn release_both<N: Naming, R: Wait, H: Ports, A: Release<H>, B: Release<H>>(
    rt: &R,
    hub: &rr_shared_ports::SharedPorts<N, H>,
    seat: &mut rr_shared_ports::Seat<N, H>,
    one: Claimed<N, A>,
    other: Claimed<N, B>,
) {
    one.release(hub, rt, seat);
    other.release(hub, rt, seat);
}

/// Receives a response. Calls that the client has seen by then loaned it from an active request of this request, and
/// sent it.
fn received<
    N: Naming,
    R: Wait,
    QB: Body,
    QH: Default + Drop,
    PB: Body,
    PH: Default + Drop,
    K: BackpressureFn,
>(
    rt: &R,
    hub: &rr_shared_ports::SharedPorts<N, Hub<QB, QH, PB, PH, K>>,
    seat: &mut rr_shared_ports::Seat<N, Hub<QB, QH, PB, PH, K>>,
    pending: &Claimed<N, rr_ports::PendingResponse<QB>>,
) -> Result<Option<Claimed<N, rr_ports::Response<PB>>>, ReceiveError>
    ensures { IfOk result (λ came. IfSome came (λ response.
        WasAnswered K.action QH.is_default PH.is_default (empty_hub N.limits N.node_id) seat.new.1 pending.now
        response)) }
{
    let received = pending.receive(hub, rt, seat);
    hub.legal(seat);
    received
}

/// Sends a number, and receives until a response comes. Returns what that says.
fn ask<N: Naming, R: Wait>(
    rt: &R,
    hub: &Shared<N>,
    seat: &mut Caller<N>,
    client: &Client<N, u64>,
    asked: u64,
) -> Result<Option<u64>, CallError<RequestSendError>> {
    let pending = client.send_copy(hub, rt, seat, asked)?;
    let mut answer = None;
    for _ in rt.forever() {
        match received(rt, hub, seat, &pending) {
            Ok(None) => {}
            Ok(Some(response)) => {
                answer = Some(response.into_payload(hub, rt, seat));
                break;
            }
            Err(_) => break,
        }
    }
    pending.release(hub, rt, seat);
    Ok(answer)
}

/// Sends `trips` requests, or fewer if the numbers run out. Returns the sum of the responses.
fn ask_all<N: Naming, R: Wait>(
    rt: &R,
    hub: &Shared<N>,
    seat: &mut Caller<N>,
    client: &Client<N, u64>,
    trips: u64,
) -> u64 {
    let mut sum = 0u64;
    for asked in 0..trips {
        match ask(rt, hub, seat, client, asked) {
            Ok(answer) => sum = sum.wrapping_add(answer.unwrap_or(0)),
            Err(CallError::Port(_refused)) => {}
            Err(CallError::NumbersExhausted) => return sum,
        }
    }
    sum
}

impl<N: Naming, R: Abort + Wait> Worker<'_, N, R> {
    /// Asks spinning, then sleeping, and closes the hub. Returns the sum of the answers.
    pub fn ask_and_close(&mut self, client: &Client<N, u64>) -> u64 {
        let mut sum = ask_all(self.rt, self.hub, &mut self.seat, client, HALF);
        for asked in HALF..2 * HALF {
            let pending = self.ask(client, asked);
            sum = sum.wrapping_add(self.take(&pending).unwrap_or(0));
            self.forget(pending);
        }
        self.hub.close();
        sum
    }

    /// Answers each request with the number after the one that it says, until the hub is closed. Returns how many.
    pub fn serve_until_closed(&mut self, server: &Server<N, u64>) -> u64 {
        let mut answered = 0u64;
        for _ in self.rt.forever() {
            let Some(active) = self.hear(server) else {
                break;
            };
            let asked = self.asked(&active);
            self.answer(&active, asked.wrapping_add(1));
            self.finish(active);
            answered = answered.wrapping_add(1);
        }
        answered
    }

    /// Makes a second server, which receives one request, gives up, and releases all it has.
    pub fn hear_and_leave(&mut self) {
        let server = self.server();
        if let Some(active) = self.hear(&server) {
            self.finish(active);
        }
        server.release(self.hub, self.rt, &mut self.seat);
    }
}
