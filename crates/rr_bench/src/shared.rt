//! Round trips by commands at a shared hub, submitted by one thread, or by several of which half ask and half answer.
ghost use Rattle.std.specs.Prelude.{◌≡◌};

use crate::rows::{Timed, sum_of};
use anyhow::{bail, ensure};
use rr_locked::{Bell, Bells, CREATE_CLIENT, CREATE_SERVER, HubCommand};
use rr_ports::{Limits, NoHandler, UniqueNodeId};
use rr_shared::{Command, Naming, Opened, Reply, Seat, SharedHub};
use std::alloc::Global;
use std::marker::Brand;
use std::sync::Wait;
use std::thread;
use std::thread::Threads;
use std::time::{Clock, Instant};

/// How often a thread reads its bell for one message.
pub const TURNS: u64 = 1_000_000_000;

/// A hub of numbers, which has no name yet.
type OpenedHub = Opened<u64, Option<u64>, u64, NoHandler>;

/// A hub of numbers.
type Hub<N> = SharedHub<N, u64, Option<u64>, u64, NoHandler>;

/// A caller at a hub, and its port.
#[derive(Drop)]
struct At<'a, N: Naming, R> {
    rt: &'a R,
    hub: &'a Hub<N>,
    seat: Seat<N, u64, u64, NoHandler>,
    port: u64,
}

/// Returns the number of the answer, or 0 if there is none.
fn call<N: Naming, R: Wait>(at: &mut At<N, R>, command: HubCommand) -> anyhow::Result<u64> {
    match at.hub.submit(at.rt, &mut at.seat, command) {
        Reply::Created(number)
        | Reply::Pending(number, _)
        | Reply::Active(number, _)
        | Reply::Sent(number)
        | Reply::Response(number) => Ok(number),
        Reply::Payload(elements) => Ok(elements.as_slice().first().copied().unwrap_or(0)),
        Reply::Done => Ok(0),
        other => bail!("a call was answered {other:?}"),
    }
}

/// Waits until a bell has rung more than `rings` times.
fn wait(bell: &Bell, rings: u64) -> anyhow::Result<()> {
    ensure!(bell.wait(rings, TURNS).is_some(), "a bell didn't ring");
    Ok(())
}

/// Receives until a message arrives. Returns its number.
fn receive<N: Naming, R: Wait>(
    at: &mut At<N, R>,
    bell: &Bell,
    receiver: u64,
) -> anyhow::Result<u64> {
    for _ in 0..u64::MAX {
        let rings = bell.rings();
        match at
            .hub
            .submit(at.rt, &mut at.seat, Command::Receive(receiver))
        {
            Reply::Active(number, _) | Reply::Response(number) => return Ok(number),
            Reply::Nothing => wait(bell, rings)?,
            other => bail!("a receive was answered {other:?}"),
        }
    }
    bail!("nothing came")
}

/// Receives a request, and answers with its number plus one.
fn answer<N: Naming, R: Wait>(at: &mut At<N, R>, bell: &Bell) -> anyhow::Result<()> {
    let server = at.port;
    let active = receive(at, bell, server)?;
    let asked = call(at, Command::Payload(active))?;
    call(at, Command::SendCopy(active, asked.wrapping_add(1)))?;
    call(at, Command::Release(active))?;
    Ok(())
}

/// Receives a response, and releases it. Returns the response's number.
fn take<N: Naming, R: Wait>(at: &mut At<N, R>, bell: &Bell, pending: u64) -> anyhow::Result<u64> {
    let response = receive(at, bell, pending)?;
    let answer = call(at, Command::Payload(response))?;
    call(at, Command::Release(response))?;
    Ok(answer)
}

/// Asks all servers `trips` times. If one of them is this thread's, it answers here; otherwise this waits at the bell
/// before its first receive. Returns the sum of the answers.
fn ask_all<'a, N: Naming, R: Wait>(
    at: &mut At<'a, N, R>,
    mut own: Option<At<'a, N, R>>,
    bells: &Bells,
    servers: u64,
    trips: u64,
) -> anyhow::Result<u64> {
    let client = at.port;
    let mut sum = 0u64;
    for asked in 0..trips {
        let rings = bells.client.rings();
        let pending = call(at, Command::SendCopy(client, asked))?;
        if let Some(server) = &mut own {
            answer(server, &bells.server)?;
        } else {
            bells.server.ring();
            wait(&bells.client, rings)?;
        }
        for _ in 0..servers {
            sum = sum.wrapping_add(take(at, &bells.client, pending)?);
        }
        call(at, Command::Release(pending))?;
    }
    Ok(sum)
}

/// Answers `requests` requests, and waits at the bell before each.
fn answer_all<N: Naming, R: Wait>(
    at: &mut At<N, R>,
    bells: &Bells,
    requests: u64,
) -> anyhow::Result<()> {
    for answered in 0..requests {
        wait(&bells.server, answered)?;
        answer(at, &bells.server)?;
        bells.client.ring();
    }
    Ok(())
}

/// Creates a port. Returns a caller with it.
fn with_port<'a, N: Naming, R: Wait>(
    rt: &'a R,
    hub: &'a Hub<N>,
    command: HubCommand,
) -> anyhow::Result<At<'a, N, R>> {
    let mut at = At {
        rt,
        hub,
        seat: hub.seat(),
        port: 0,
    };
    at.port = call(&mut at, command)?;
    Ok(at)
}

/// Asks once all servers exist if the place is even, and otherwise answers. Returns the sum of the received answers.
fn work<'a, N: Naming, R: Wait>(
    rt: &'a R,
    hub: &'a Hub<N>,
    bells: &Bells,
    place: usize,
    side: u64,
    trips: u64,
) -> anyhow::Result<u64> {
    if place % 2 == 0 {
        let mut at = with_port(rt, hub, CREATE_CLIENT)?;
        for rings in 0..side {
            wait(&bells.client, rings)?;
        }
        return ask_all(&mut at, None, bells, side, trips);
    }
    let mut at = with_port(rt, hub, CREATE_SERVER)?;
    bells.client.ring();
    answer_all(&mut at, bells, side.wrapping_mul(trips))?;
    Ok(0)
}

/// Makes round trips by `threads` threads, of which half ask and half answer. Returns the sum of the answers.
fn together<N: Naming, R: Threads + Wait + Sync>(
    rt: &R,
    alloc: Global,
    hub: &Hub<N>,
    threads: u64,
    trips: u64,
) -> anyhow::Result<u64> {
    let bells = Bells::new();
    let rung = &bells;
    let side = threads / 2;
    let sums = thread::map_indices(
        rt,
        alloc,
        threads as usize,
        &|place| work(rt, hub, rung, place, side, trips),
    )?;
    sum_of(sums)
}

/// Makes round trips by one thread. Returns the sum of the answers.
fn alone<N: Naming, R: Wait>(rt: &R, hub: &Hub<N>, trips: u64) -> anyhow::Result<u64> {
    let mut at = with_port(rt, hub, CREATE_CLIENT)?;
    let own = with_port(rt, hub, CREATE_SERVER)?;
    ask_all(&mut at, Some(own), &Bells::new(), 1, trips)
}

/// Makes round trips by one thread, or by more together. Returns the sum of the answers.
fn shared<N: Naming, R: Threads + Wait + Sync>(
    rt: &R,
    alloc: Global,
    opened: OpenedHub,
    threads: u64,
    trips: u64,
) -> anyhow::Result<u64>
    requires log { opened.log_id ≡ N.log_id }
    requires limits { opened.limits ≡ N.limits }
    requires node_id { opened.node_id ≡ N.node_id }
{
    let hub = opened.named::<N>();
    if threads == 1 {
        alone(rt, &hub, trips)
    } else {
        together(rt, alloc, &hub, threads, trips)
    }
}

/// Times round trips of `threads` threads, creation of the ports and start of the threads included.
pub fn time_shared<R: Threads + Wait + Sync + Clock>(
    rt: &R,
    alloc: Global,
    threads: u64,
    trips: u64,
) -> anyhow::Result<Timed> {
    let side = threads.max(2) as usize / 2;
    let limits = Limits {
        max_clients: side,
        max_servers: side,
        ..Limits::SMALLEST
    };
    let opened = OpenedHub::new(alloc, limits, UniqueNodeId(7))?;
    let start = Instant::now(rt)?;
    let sum = shared::<Brand, R>(rt, alloc, opened, threads, trips)?;
    Timed::since(rt, start, sum)
}
