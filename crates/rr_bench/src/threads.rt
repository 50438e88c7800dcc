//! Round trips of numbers through ports that threads share: by one thread, or by clients and servers, each in a
//! thread of its own.
ghost use Rattle.std.specs.Prelude.{◌≡◌};

use crate::rows::{Timed, sum_of};
use crate::shared::TURNS;
use rand_core::{Rng, SeedableRng};
use rand_xoshiro::SplitMix64;
use rr_locked::Bell;
use rr_ports::{Limits, Refused, UniqueNodeId};
use rr_shared_ports::Naming;
use rr_shared_ports::typed::{
    ActiveRequest, Client, Opened, PendingResponse, Seat, Server, SharedPorts,
};
use std::alloc::Global;
use std::marker::Brand;
use std::sync::Wait;
use std::thread;
use std::thread::Threads;
use std::time::{Clock, Duration, Instant};

/// A hub of numbers.
pub type Hub<N> = SharedPorts<N, u64, (), u64, ()>;

/// Such a hub without a name.
pub type OpenedHub = Opened<u64, (), u64, ()>;

/// A seat at it.
pub type HubSeat<N> = Seat<N, u64, (), u64, ()>;

/// The ways in which a client and a server wait for each other.
#[derive(Clone, Copy)]
pub enum Pace {
    /// Not at all: both belong to one thread.
    Alone,
    /// By `call` and `serve`.
    Call,
    /// They sleep until a message arrives.
    Sleep,
    /// The same, and they also sleep at random times.
    Nap,
}

/// A thread at the hub.
#[derive(Drop)]
struct At<'a, N: Naming, R> {
    rt: &'a R,
    hub: &'a Hub<N>,
    created: &'a Bell,
    ended: &'a Bell,
    pace: Pace,
    seat: HubSeat<N>,
    naps: SplitMix64,
}

/// Sleeps for up to 63 microseconds, one time in 64, where threads nap.
fn nap<N: Naming, R: Clock>(at: &mut At<N, R>) {
    if matches!(at.pace, Pace::Nap) {
        let word = at.naps.next_u64();
        if word % 64 == 0 {
            thread::sleep(at.rt, Duration::from_micros(word >> 58));
        }
    }
}

/// Receives a request. Returns `None` if none arrives.
fn heard<N: Naming, R: Wait>(
    at: &mut At<N, R>,
    server: &Server<N, u64>,
) -> Option<ActiveRequest<N, u64>> {
    match at.pace {
        Pace::Alone => server.receive(at.hub, at.rt, &mut at.seat).ok()?,
        _ => server.receive_wait(at.hub, at.rt, &mut at.seat).ok(),
    }
}

/// Answers a request with its number plus one. Returns whether there was one.
fn answer<N: Naming, R: Wait + Clock>(at: &mut At<N, R>, server: &Server<N, u64>) -> bool {
    if matches!(at.pace, Pace::Call) {
        return server
            .serve(at.hub, at.rt, &mut at.seat, |asked| asked.wrapping_add(1))
            .is_ok();
    }
    let Some(active) = heard(at, server) else {
        return false;
    };
    nap(at);
    // A refusal shows in the sum.
    let _ = active.answer_with(at.hub, at.rt, &mut at.seat, |asked| asked.wrapping_add(1));
    true
}

/// Receives a response and releases it. Returns its number, or `None` if none arrives.
fn take<N: Naming, R: Wait>(at: &mut At<N, R>, pending: &PendingResponse<N, u64>) -> Option<u64> {
    let response = pending.receive_wait(at.hub, at.rt, &mut at.seat).ok()??;
    Some(response.into_payload(at.hub, at.rt, &mut at.seat))
}

/// Creates a server, which answers until the hub is closed. It rings once it exists.
fn serve<N: Naming, R: Wait + Clock>(mut at: At<N, R>) -> anyhow::Result<u64> {
    let servers = at.hub.server_builder(at.rt);
    let server = at.hub.create_server(at.rt, &mut at.seat, servers)?;
    at.created.ring();
    for _ in 0..u64::MAX {
        if !answer(&mut at, &server) {
            break;
        }
    }
    server.release(at.hub, at.rt, &mut at.seat);
    Ok(0)
}

/// Asks all servers for the number after this one. Returns the sum of their answers.
fn ask<N: Naming, R: Wait>(at: &mut At<N, R>, client: &Client<N, u64>, asked: u64) -> u64 {
    if matches!(at.pace, Pace::Call) {
        return client.call(at.hub, at.rt, &mut at.seat, asked).unwrap_or(0);
    }
    let Ok(pending) = client.send_copy(at.hub, at.rt, &mut at.seat, asked) else {
        return 0;
    };
    let mut sum = 0u64;
    for _ in 0..at.hub.limits().max_servers {
        sum = sum.wrapping_add(take(at, &pending).unwrap_or(0));
    }
    pending.release(at.hub, at.rt, &mut at.seat);
    sum
}

/// Asks `trips` times, once all servers are created. Returns the sum of the answers.
fn ask_all<N: Naming, R: Wait + Clock>(
    at: &mut At<N, R>,
    client: &Client<N, u64>,
    trips: u64,
) -> u64 {
    for rings in 0..at.hub.limits().max_servers as u64 {
        at.created.wait(rings, TURNS);
    }
    let mut sum = 0u64;
    for asked in 0..trips {
        nap(at);
        sum = sum.wrapping_add(ask(at, client, asked));
    }
    sum
}

/// Asks and answers `trips` times. Returns the sum of the answers.
fn alone<N: Naming, R: Wait + Clock>(
    at: &mut At<N, R>,
    client: &Client<N, u64>,
    server: &Server<N, u64>,
    trips: u64,
) -> u64 {
    let mut sum = 0u64;
    for asked in 0..trips {
        if let Ok(pending) = client.send_copy(at.hub, at.rt, &mut at.seat, asked) {
            answer(at, server);
            match pending.finish(at.hub, at.rt, &mut at.seat) {
                Ok(answer) => sum = sum.wrapping_add(answer),
                Err(Refused { message, error: _ }) => message.release(at.hub, at.rt, &mut at.seat),
            }
        }
    }
    sum
}

/// Makes `trips` round trips by a client and a server of this thread.
fn both<N: Naming, R: Wait + Clock>(mut at: At<N, R>, trips: u64) -> anyhow::Result<u64> {
    let clients = at.hub.client_builder(at.rt);
    let client = at.hub.create_client(at.rt, &mut at.seat, clients)?;
    let servers = at.hub.server_builder(at.rt);
    let sum = match at.hub.create_server(at.rt, &mut at.seat, servers) {
        Ok(server) => {
            let sum = alone(&mut at, &client, &server, trips);
            server.release(at.hub, at.rt, &mut at.seat);
            Ok(sum)
        }
        Err(error) => Err(error.into()),
    };
    client.release(at.hub, at.rt, &mut at.seat);
    sum
}

/// Creates a client, which asks `trips` times. The last client to end closes the hub.
fn inquire<N: Naming, R: Wait + Clock>(mut at: At<N, R>, trips: u64) -> anyhow::Result<u64> {
    let clients = at.hub.client_builder(at.rt);
    let sum = match at.hub.create_client(at.rt, &mut at.seat, clients) {
        Ok(client) => {
            let sum = ask_all(&mut at, &client, trips);
            client.release(at.hub, at.rt, &mut at.seat);
            Ok(sum)
        }
        Err(error) => Err(error.into()),
    };
    at.ended.ring();
    if at.ended.rings() == at.hub.limits().max_clients as u64 {
        at.hub.close();
    }
    sum
}

/// Runs one thread: asks if its place is one of the clients', and otherwise answers.
fn work<'a, N: Naming, R: Wait + Clock>(
    rt: &'a R,
    hub: &'a Hub<N>,
    created: &'a Bell,
    ended: &'a Bell,
    pace: Pace,
    place: usize,
    trips: u64,
) -> anyhow::Result<u64> {
    let at = At {
        rt,
        hub,
        created,
        ended,
        pace,
        seat: hub.seat(),
        naps: SplitMix64::seed_from_u64(place as u64),
    };
    if matches!(pace, Pace::Alone) {
        both(at, trips)
    } else if place < hub.limits().max_clients {
        inquire(at, trips)
    } else {
        serve(at)
    }
}

/// Runs the maximum of clients of the hub, which ask the maximum of servers. Returns the sum of the received answers.
fn together<N: Naming, R: Threads + Wait + Clock + Sync>(
    rt: &R,
    alloc: Global,
    opened: OpenedHub,
    pace: Pace,
    trips: u64,
) -> anyhow::Result<u64>
    requires keeper { opened.keeper_id ≡ N.keeper_id }
    requires log { opened.log_id ≡ N.log_id }
    requires limits { opened.limits ≡ N.limits }
    requires node_id { opened.node_id ≡ N.node_id }
{
    let hub = opened.named::<N>();
    let (created, ended) = (Bell::new(), Bell::new());
    let limits = hub.limits();
    let ports = limits.max_clients.saturating_add(limits.max_servers);
    let threads = if matches!(pace, Pace::Alone) {
        1
    } else {
        ports
    };
    let sums = thread::map_indices(
        rt,
        alloc,
        threads,
        &|place| work(rt, &hub, &created, &ended, pace, place, trips),
    )?;
    sum_of(sums)
}

/// Times `trips` round trips of each client with all servers, creation of the ports and start of the threads
/// included.
pub fn time_threads<R: Threads + Wait + Clock + Sync>(
    rt: &R,
    alloc: Global,
    pace: Pace,
    max_clients: usize,
    max_servers: usize,
    trips: u64,
) -> anyhow::Result<Timed> {
    let limits = Limits {
        max_clients,
        max_servers,
        ..Limits::SMALLEST
    };
    let opened = OpenedHub::new(alloc, limits, UniqueNodeId(7))?;
    let start = Instant::now(rt)?;
    let sum = together::<Brand, R>(rt, alloc, opened, pace, trips)?;
    Timed::since(rt, start, sum)
}
