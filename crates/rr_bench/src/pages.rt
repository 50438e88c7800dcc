//! Round trips of slices of 64 KiB through shared ports, by one thread.
ghost use Rattle.std.specs.Prelude.{◌≡◌};

use crate::rows::Timed;
use rr_ports::{Limits, UniqueNodeId};
use rr_shared_ports::Naming;
use rr_shared_ports::sliced::{
    ActiveRequest, Client, Opened, PendingResponse, Seat, Server, SharedPorts,
};
use std::alloc::Global;
use std::marker::Brand;
use std::sync::Wait;
use std::time::{Clock, Instant};

/// How many numbers a slice has.
const LEN: usize = 8_192;

/// A hub of slices.
type Hub<N> = SharedPorts<N, u64, (), u64, ()>;

/// Such a hub without a name.
type OpenedHub = Opened<u64, (), u64, ()>;

/// A seat at it.
type HubSeat<N> = Seat<N, u64, (), u64, ()>;

/// Returns the last of some numbers, or 0.
fn last_of(numbers: &[u64]) -> u64 {
    numbers.last().copied().unwrap_or(0)
}

/// A caller at the hub.
#[derive(Drop)]
struct At<'a, N: Naming, R> {
    rt: &'a R,
    hub: &'a Hub<N>,
    seat: HubSeat<N>,
}

/// Sends a slice of a number. Returns `None` if the send is refused.
fn ask<N: Naming, R: Wait>(
    at: &mut At<N, R>,
    client: &Client<N, u64>,
    asked: u64,
) -> Option<PendingResponse<N, u64>> {
    let request = client
        .loan_slice_uninit(at.hub, at.rt, &mut at.seat, LEN)
        .ok()?;
    let request = request.fill(at.hub, at.rt, &mut at.seat, asked);
    request.send(at.hub, at.rt, &mut at.seat).ok()
}

/// Receives a request. Returns `None` if none arrives.
fn heard<N: Naming, R: Wait>(
    at: &mut At<N, R>,
    server: &Server<N, u64>,
) -> Option<ActiveRequest<N, u64>> {
    server.receive(at.hub, at.rt, &mut at.seat).ok()?
}

/// Answers a request with a slice of its last number plus one, and releases it. A refusal shows in the sum.
fn respond<N: Naming, R: Wait>(at: &mut At<N, R>, active: ActiveRequest<N, u64>) {
    let asked = active.read(at.hub, at.rt, &mut at.seat, |numbers| last_of(numbers));
    if let Ok(response) = active.loan_slice_uninit(at.hub, at.rt, &mut at.seat, LEN) {
        let response = response.fill(at.hub, at.rt, &mut at.seat, asked.wrapping_add(1));
        let _ = response.send(at.hub, at.rt, &mut at.seat);
    }
    active.release(at.hub, at.rt, &mut at.seat);
}

/// Receives a response, and releases it. Returns its last number, or `None` if none arrives.
fn take<N: Naming, R: Wait>(at: &mut At<N, R>, pending: &PendingResponse<N, u64>) -> Option<u64> {
    let response = pending.receive(at.hub, at.rt, &mut at.seat).ok()??;
    let answer = response.read(at.hub, at.rt, &mut at.seat, |numbers| last_of(numbers));
    response.release(at.hub, at.rt, &mut at.seat);
    Some(answer)
}

/// Makes `count` round trips. Returns the sum of the answers.
fn trips<N: Naming, R: Wait>(
    at: &mut At<N, R>,
    client: &Client<N, u64>,
    server: &Server<N, u64>,
    count: u64,
) -> u64 {
    let mut sum = 0u64;
    for asked in 0..count {
        if let Some(pending) = ask(at, client, asked) {
            if let Some(active) = heard(at, server) {
                respond(at, active);
            }
            sum = sum.wrapping_add(take(at, &pending).unwrap_or(0));
            pending.release(at.hub, at.rt, &mut at.seat);
        }
    }
    sum
}

/// Creates ports, and makes `count` round trips through them. Returns the sum of the answers.
fn with_ports<N: Naming, R: Wait>(mut at: At<N, R>, count: u64) -> anyhow::Result<u64> {
    let clients = at.hub.client_builder(at.rt).initial_max_slice_len(LEN);
    let client = at.hub.create_client(at.rt, &mut at.seat, clients)?;
    let servers = at.hub.server_builder(at.rt).initial_max_slice_len(LEN);
    let sum = match at.hub.create_server(at.rt, &mut at.seat, servers) {
        Ok(server) => {
            let sum = trips(&mut at, &client, &server, count);
            server.release(at.hub, at.rt, &mut at.seat);
            Ok(sum)
        }
        Err(error) => Err(error.into()),
    };
    client.release(at.hub, at.rt, &mut at.seat);
    sum
}

/// Makes a caller.
fn caller<'a, N: Naming, R>(rt: &'a R, hub: &'a Hub<N>) -> At<'a, N, R> {
    At {
        rt,
        hub,
        seat: hub.seat(),
    }
}

/// Makes `count` round trips at a hub.
fn through<N: Naming, R: Wait>(rt: &R, opened: OpenedHub, count: u64) -> anyhow::Result<u64>
    requires keeper { opened.keeper_id ≡ N.keeper_id }
    requires log { opened.log_id ≡ N.log_id }
    requires limits { opened.limits ≡ N.limits }
    requires node_id { opened.node_id ≡ N.node_id }
{
    let hub = opened.named::<N>();
    with_ports(caller(rt, &hub), count)
}

/// Times `count` round trips through a hub of one client and one server, creation of the ports included.
pub fn time_pages<R: Wait + Clock>(rt: &R, alloc: Global, count: u64) -> anyhow::Result<Timed> {
    let opened = OpenedHub::new(alloc, Limits::SMALLEST, UniqueNodeId(7))?;
    let start = Instant::now(rt)?;
    let sum = through::<Brand, R>(rt, opened, count)?;
    Timed::since(rt, start, sum)
}
