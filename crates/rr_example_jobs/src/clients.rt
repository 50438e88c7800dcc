//! A service of four clients, each with its own speed: the server doubles the number of each request.
ghost use Rattle.std.specs.Prelude.{◌≡◌};

use rr_ports::{Limits, UniqueNodeId};
use rr_shared_ports::typed::{Client, Opened, Seat, Server, SharedPorts};
use rr_shared_ports::{AskError, Naming, ServeError};
use std::alloc::Global;
use std::marker::Brand;
use std::sync::Wait;
use std::thread;
use std::thread::Threads;
use std::time::{Clock, Duration};

/// The clients.
pub const CLIENTS: usize = 4;

/// How often each asks.
const ASKED: u64 = 50;

/// A server, and the clients.
const LIMITS: Limits = Limits {
    max_clients: CLIENTS,
    ..Limits::SMALLEST
};

type Hub<N> = SharedPorts<N, u64, (), u64, ()>;

type Caller<N> = Seat<N, u64, (), u64, ()>;

/// The answers that clients received.
#[derive(Clone, Copy)]
pub struct Served {
    /// How many answers.
    pub answers: u64,
    /// Their sum.
    pub sum: u64,
}

/// Lets the server answer all clients.
pub fn run<R: Threads + Wait + Sync + Clock>(rt: &R, alloc: Global) -> anyhow::Result<Served> {
    let opened = Opened::new(alloc, LIMITS, UniqueNodeId(0))?;
    serve_all::<Brand, R>(rt, alloc, opened)
}

/// Lets the server answer in this thread, and each client ask in another.
fn serve_all<N: Naming, R: Threads + Wait + Sync + Clock>(
    rt: &R,
    alloc: Global,
    opened: Opened<u64, (), u64, ()>,
) -> anyhow::Result<Served>
    requires keeper { opened.keeper_id ≡ N.keeper_id }
    requires log { opened.log_id ≡ N.log_id }
    requires limits { opened.limits ≡ N.limits }
    requires node_id { opened.node_id ≡ N.node_id }
{
    let hub = opened.named::<N>();
    let mut seat = hub.seat();
    let server = hub.create_server(rt, &mut seat, hub.server_builder(rt))?;
    let (answers, asked) = thread::join(
        rt,
        || serve(rt, &hub, &mut seat, &server),
        || {
            let asked = thread::map_indices(
                rt,
                alloc,
                CLIENTS,
                &|place| ask_all(rt, &hub, place as u64),
            );
            hub.close();
            asked
        },
    );
    server.release(&hub, rt, &mut seat);
    let mut sum = 0u64;
    for part in asked? {
        sum = sum.wrapping_add(part?);
    }
    Ok(Served { answers, sum })
}

/// Answers each request with its double, until the hub is closed. Returns how many.
fn serve<N: Naming, R: Wait>(
    rt: &R,
    hub: &Hub<N>,
    seat: &mut Caller<N>,
    server: &Server<N, u64>,
) -> u64 {
    let mut answers = 0u64;
    for _ in rt.forever() {
        match server.serve(hub, rt, seat, |asked| asked.wrapping_mul(2)) {
            Ok(()) => answers = answers.wrapping_add(1),
            Err(ServeError::Send(_refused)) => {}
            Err(ServeError::Receive(_over)) => return answers,
        }
    }
    unreachable!()
}

/// Asks for numbers, with a pause in between that depends on its place. Returns the sum of the answers.
fn ask_all<N: Naming, R: Wait + Clock>(rt: &R, hub: &Hub<N>, place: u64) -> anyhow::Result<u64> {
    let mut seat = hub.seat();
    let client = hub.create_client(rt, &mut seat, hub.client_builder(rt))?;
    let mut sum = 0u64;
    for asked in 1..=ASKED {
        sum = sum.wrapping_add(ask(rt, hub, &mut seat, &client, asked));
        thread::sleep(rt, Duration::from_micros(place.wrapping_mul(100)));
    }
    client.release(hub, rt, &mut seat);
    Ok(sum)
}

/// Asks for a number, and waits for the answer. Returns 0 where none comes.
fn ask<N: Naming, R: Wait>(
    rt: &R,
    hub: &Hub<N>,
    seat: &mut Caller<N>,
    client: &Client<N, u64>,
    asked: u64,
) -> u64 {
    match client.call(hub, rt, seat, asked) {
        Ok(answer) => answer,
        Err(AskError::Send(_refused)) => 0,
        Err(AskError::Finish(_over)) => 0,
    }
}
