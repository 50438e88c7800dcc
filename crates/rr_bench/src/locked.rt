//! Round trips at a locked hub.
ghost use Rattle.std.specs.Prelude.{◌≡◌};

use crate::rows::Timed;
use crate::shared::TURNS;
use anyhow::{anyhow, bail, ensure};
use rr_locked::{
    Bells, CREATE_CLIENT, CREATE_SERVER, HubCommand, LockedHub, PARTS, Seat, Submit, WorkerError,
    payload, receive, release, send_copy, take_response,
};
use rr_ports::{Limits, UniqueNodeId};
use rr_protocol::Reply;
use std::alloc::Global;
use std::marker::Brand;
use std::sync::Wait;
use std::sync::ledger::{Blank, Ledger};
use std::thread;
use std::thread::Threads;
use std::time::{Clock, Instant};

/// The calls of a round trip.
const CALLS_OF_A_TRIP: u64 = 9;

/// The seat and the number of a port, and how many round trips are made.
#[derive(Drop)]
struct Post<L: Ledger> {
    seat: Seat<L>,
    port: u64,
    trips: u64,
}

/// Creates a port.
fn with_port<L: Ledger, R: Wait>(
    rt: &R,
    hub: &LockedHub<L>,
    command: HubCommand,
    trips: u64,
) -> anyhow::Result<Post<L>> {
    let mut seat = hub.seat(rt).ok_or(anyhow!("no seat"))?;
    match hub.submit(rt, &mut seat, command) {
        Reply::Created(port) => Ok(Post { seat, port, trips }),
        other => bail!("no port: {other:?}"),
    }
}

/// Asks. A server of the same thread answers; otherwise it waits at the bell before the first receive. Returns the
/// sum of the answers.
fn ask_all<L: Ledger, R: Wait>(
    rt: &R,
    hub: &LockedHub<L>,
    bells: &Bells,
    mut post: Post<L>,
    mut own: Option<Post<L>>,
) -> Result<u64, WorkerError> {
    let mut sum = 0u64;
    for asked in 0..post.trips {
        let pending = send_copy(rt, hub, &mut post.seat, post.port, asked)?;
        if let Some(server) = &mut own {
            answer(rt, hub, bells, server)?;
        } else {
            bells.server.ring();
            bells.client.wait(asked, TURNS).ok_or(WorkerError::GaveUp)?;
        }
        let answer = take_response(rt, hub, &mut post.seat, &bells.client, pending, TURNS)?;
        sum = sum.wrapping_add(answer);
    }
    Ok(sum)
}

/// Receives a request, and answers with its number plus one.
fn answer<L: Ledger, R: Wait>(
    rt: &R,
    hub: &LockedHub<L>,
    bells: &Bells,
    post: &mut Post<L>,
) -> Result<(), WorkerError> {
    let active = receive(rt, hub, &mut post.seat, &bells.server, post.port, TURNS)?;
    let asked = payload(rt, hub, &mut post.seat, active)?;
    send_copy(rt, hub, &mut post.seat, active, asked.wrapping_add(1))?;
    release(rt, hub, &mut post.seat, active)
}

/// Answers, and waits at the bell before each receive. It rings for a response at the end of its calls, so that no
/// thread waits at the lock.
fn answer_all<L: Ledger, R: Wait>(
    rt: &R,
    hub: &LockedHub<L>,
    bells: &Bells,
    mut post: Post<L>,
) -> Result<(), WorkerError> {
    for answered in 0..post.trips {
        bells
            .server
            .wait(answered, TURNS)
            .ok_or(WorkerError::GaveUp)?;
        answer(rt, hub, bells, &mut post)?;
        bells.client.ring();
    }
    Ok(())
}

/// Asks and answers, each in a thread of its own. Returns the sum of the answers.
fn take_turns<L: Ledger + Send + Sync, R: Threads + Wait + Sync>(
    rt: &R,
    hub: &LockedHub<L>,
    asking: Post<L>,
    answering: Post<L>,
) -> Result<u64, WorkerError> {
    let bells = Bells::new();
    let rung = &bells;
    let (sum, end) = thread::join(
        rt,
        move || ask_all(rt, hub, rung, asking, None),
        move || answer_all(rt, hub, rung, answering),
    );
    end?;
    sum
}

/// Creates two callers with a port each, and times their round trips.
fn timed<L: Ledger + Send + Sync, R: Threads + Wait + Sync + Clock>(
    rt: &R,
    hub: &LockedHub<L>,
    threads: u64,
    trips: u64,
) -> anyhow::Result<Timed> {
    let asking = with_port(rt, hub, CREATE_CLIENT, trips)?;
    let answering = with_port(rt, hub, CREATE_SERVER, trips)?;
    let start = Instant::now(rt)?;
    let sum = if threads > 1 {
        take_turns(rt, hub, asking, answering)?
    } else {
        ask_all(rt, hub, &Bells::new(), asking, Some(answering))?
    };
    Timed::since(rt, start, sum)
}

/// Times round trips, and checks that each call is in the history.
fn pair<L: Ledger + Send + Sync, R: Threads + Wait + Sync + Clock>(
    rt: &R,
    alloc: Global,
    blank: Blank,
    threads: u64,
    trips: u64,
) -> anyhow::Result<Timed>
    requires name { blank.name ≡ L.name }
    requires parts { blank.parts ≡ L.parts }
    requires many { blank.parts ≡ 1048578 }
{
    let hub = LockedHub::<L>::new(alloc, Limits::SMALLEST, UniqueNodeId(7), blank)?;
    let timed = timed(rt, &hub, threads, trips)?;
    let noted = hub.finish(Vec::new(alloc)).history().len() as u64;
    let calls = trips.wrapping_mul(CALLS_OF_A_TRIP).wrapping_add(2);
    ensure!(noted == calls, "{noted} calls were noted");
    Ok(timed)
}

/// Times round trips of two callers.
pub fn time_pair<R: Threads + Wait + Sync + Clock>(
    rt: &R,
    alloc: Global,
    threads: u64,
    trips: u64,
) -> anyhow::Result<Timed> {
    pair::<Brand, R>(rt, alloc, Blank::new(PARTS), threads, trips)
}
