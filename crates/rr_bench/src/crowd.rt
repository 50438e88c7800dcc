//! Round trips of 8 bytes among other ports and handles.
#![tactic(auto, using(rr_ports::proofs::Frames::callers, crate::proofs::Frames::servers), unfolding(rr_ports::specs::Facts::Keeps, rr_ports::specs::Facts::IsFree))]

ghost use Rattle.std.specs.Prelude.{◌≡◌, []};
ghost use Rattle.rr_protocol.specs.declared.kind.Kind.TheVariants as kind;
ghost use Rattle.rr_ports.specs.Facts.{Keeps, Names};
ghost use Rattle.rr_bench.specs.Onlookers.{AreServers};

use crate::family;
use crate::rows::Timed;
use crate::trip::{LIMITS, TripError, look, look_around, timed, trips};
use anyhow::bail;
use rr_ports::{Limits, UniqueNodeId, typed};
use std::alloc::{AllocError, AllocFailed, Global};
use std::time::{Clock, Instant};

/// A hub of words.
type Hub = family::Hub<Option<u64>>;

/// A client of words.
type Client = typed::Client<u64>;

/// A server of words.
type Server = typed::Server<u64>;

/// The ports and handles of a hub.
#[derive(Clone, Copy)]
pub struct Shape {
    /// The clients. The middle one asks.
    pub clients: usize,
    /// The servers. One answers, and the others poll for requests.
    pub servers: usize,
    /// The requests that a client may have on loan.
    pub loans: usize,
    /// The requests that the middle client has on loan all the time.
    pub held: usize,
    /// The clients that came, made one round trip and left before the others were created.
    pub passed: u64,
}

/// A client and a server.
pub const ALONE: Shape = Shape {
    clients: 1,
    servers: 1,
    loans: 2,
    held: 0,
    passed: 0,
};

/// Pools of at least 10,000 slots.
pub const POOLS: Shape = Shape {
    loans: 9_994,
    ..ALONE
};

/// A client that has 1,000 requests on loan.
pub const HANDLES: Shape = Shape {
    loans: 1_002,
    held: 1_000,
    ..ALONE
};

/// 1,000 clients that came, made one round trip each and left.
pub const PASSED: Shape = Shape {
    passed: 1_000,
    ..ALONE
};

/// 64 servers.
pub const SERVERS: Shape = Shape {
    servers: 64,
    ..ALONE
};

/// 1,000 clients.
pub const CLIENTS: Shape = Shape {
    clients: 1_000,
    ..ALONE
};

/// 10,000 clients.
pub const MOST: Shape = Shape {
    clients: 10_000,
    ..ALONE
};

/// The timed operation, and its number of repetitions.
#[derive(Clone, Copy)]
pub enum Job {
    /// Round trips.
    Trips(u64),
    /// Polls of each server for requests, with empty queues.
    Looks(u64),
}

/// Has a server and the onlookers poll for requests `count` times. Returns a sum as if each poll were a round trip.
#[inline(never)]
fn looks(hub: &mut Hub, server: &Server, onlookers: &[Server], count: u64) -> Result<u64, TripError>
    requires server { Names hub.old server.now kind.Server }
    requires onlookers { AreServers hub.old onlookers.now }
    ensures { Keeps [] hub.old hub.new }
{
    let mut sum = 0u64;
    for looked in 0..count {
        let number = looked.wrapping_add(1);
        sum = sum.wrapping_add(look(hub, server, number)?);
        sum = sum.wrapping_add(look_around(hub, onlookers, number)?);
    }
    Ok(sum)
}

/// Runs a job.
fn work<R: Clock>(
    rt: &R,
    hub: &mut Hub,
    client: &Client,
    server: &Server,
    onlookers: &[Server],
    job: Job,
) -> anyhow::Result<Timed>
    requires client { Names hub.old client.now kind.Client }
    requires server { Names hub.old server.now kind.Server }
    requires onlookers { AreServers hub.old onlookers.now }
    ensures { Keeps [] hub.old hub.new }
{
    match job {
        Job::Trips(count) => timed(rt, hub, client, server, onlookers, 1, count),
        Job::Looks(count) => {
            let start = Instant::now(rt)?;
            let sum = looks(hub, server, onlookers, count)?;
            Timed::since(rt, start, sum)
        }
    }
}

/// Runs a job while `left` more servers poll for requests.
fn beside_servers<R: Clock>(
    rt: &R,
    hub: &mut Hub,
    client: &Client,
    server: &Server,
    onlookers: &mut Vec<Server>,
    left: usize,
    job: Job,
) -> anyhow::Result<Timed>
    requires client { Names hub.old client.now kind.Client }
    requires server { Names hub.old server.now kind.Server }
    requires onlookers { AreServers hub.old onlookers.old.items }
    ensures keeps { Keeps [] hub.old hub.new }
    ensures onlookers { onlookers.new.items ≡ onlookers.old.items }
{
    if left == 0 {
        return work(rt, hub, client, server, onlookers, job);
    }
    let onlooker = hub.server_builder().create(hub)?;
    let done = match onlookers.push(onlooker) {
        Ok(()) => beside_servers(rt, hub, client, server, onlookers, left - 1, job),
        Err(AllocFailed { value }) => {
            value.release(hub);
            return Err(AllocError.into());
        }
    };
    if let Some(onlooker) = onlookers.pop() {
        onlooker.release(hub);
    }
    done
}

/// Runs a job while the client holds `left` more requests.
fn beside_loans<R: Clock>(
    rt: &R,
    alloc: Global,
    hub: &mut Hub,
    client: &Client,
    server: &Server,
    left: usize,
    job: Job,
) -> anyhow::Result<Timed>
    requires client { Names hub.old client.now kind.Client }
    requires server { Names hub.old server.now kind.Server }
    ensures { Keeps [] hub.old hub.new }
{
    if left == 0 {
        let mut onlookers = Vec::new(alloc);
        let more = hub.limits().max_servers.saturating_sub(1);
        let done = beside_servers(rt, hub, client, server, &mut onlookers, more, job);
        onlookers.destroy_empty();
        return done;
    }
    if hub.numbers_left() == 0 {
        bail!("the hub has no numbers left");
    }
    let request = client.loan_uninit(hub)?;
    let done = beside_loans(rt, alloc, hub, client, server, left - 1, job);
    request.release(hub);
    done
}

/// Creates `left` more clients, and runs a job with the middle one, which holds `held` requests.
fn beside_clients<R: Clock>(
    rt: &R,
    alloc: Global,
    hub: &mut Hub,
    client: &Client,
    server: &Server,
    left: usize,
    held: usize,
    job: Job,
) -> anyhow::Result<Timed>
    requires client { Names hub.old client.now kind.Client }
    requires server { Names hub.old server.now kind.Server }
    ensures { Keeps [] hub.old hub.new }
{
    if left == 0 {
        return beside_loans(rt, alloc, hub, client, server, held, job);
    }
    let next = hub.client_builder().create(hub)?;
    let done = if left == hub.limits().max_clients / 2 {
        beside_clients(rt, alloc, hub, &next, server, left - 1, held, job)
    } else {
        beside_clients(rt, alloc, hub, client, server, left - 1, held, job)
    };
    next.release(hub);
    done
}

/// Creates a client, which makes one round trip with the server and leaves.
fn come_and_leave(alloc: Global, hub: &mut Hub, server: &Server) -> anyhow::Result<()>
    requires { Names hub.old server.now kind.Server }
    ensures { Keeps [] hub.old hub.new }
{
    let client = hub.client_builder().create(hub)?;
    let nobody = Vec::new(alloc);
    let sum = trips(hub, &client, server, &nobody, 1, 1);
    nobody.destroy_empty();
    client.release(hub);
    let _sum = sum?;
    Ok(())
}

/// Creates a server, and runs a job beside it.
fn with_server<R: Clock>(
    rt: &R,
    alloc: Global,
    hub: &mut Hub,
    shape: &Shape,
    job: Job,
) -> anyhow::Result<Timed>
    ensures { Keeps [] hub.old hub.new }
{
    let server = hub.server_builder().create(hub)?;
    let done = serve(rt, alloc, hub, &server, shape, job);
    server.release(hub);
    done
}

/// Lets clients come and leave, and runs a job with one that is created afterwards.
fn serve<R: Clock>(
    rt: &R,
    alloc: Global,
    hub: &mut Hub,
    server: &Server,
    shape: &Shape,
    job: Job,
) -> anyhow::Result<Timed>
    requires { Names hub.old server.now kind.Server }
    ensures { Keeps [] hub.old hub.new }
{
    for _ in 0..shape.passed {
        come_and_leave(alloc, hub, server)?;
    }
    let client = hub.client_builder().create(hub)?;
    let more = shape.clients.saturating_sub(1);
    let done = beside_clients(rt, alloc, hub, &client, server, more, shape.held, job);
    client.release(hub);
    done
}

/// Times a job in a hub of a shape.
pub fn time_crowd<R: Clock>(
    rt: &R,
    alloc: Global,
    shape: &Shape,
    job: Job,
) -> anyhow::Result<Timed> {
    let limits = Limits {
        max_clients: shape.clients,
        max_servers: shape.servers,
        max_loaned_requests: shape.loans,
        ..LIMITS
    };
    let mut hub = Hub::new(alloc, limits, UniqueNodeId(7))?;
    with_server(rt, alloc, &mut hub, shape, job)
}
