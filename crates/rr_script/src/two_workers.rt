//! Two workers at one hub.
ghost use Rattle.std.specs.Prelude.{◌≡◌};

use crate::output::refuse_hub;
use crate::stop::Stop;
use rr_locked::{
    Bells, CREATE_CLIENT, CREATE_SERVER, HubReply, LockedHub, Plan, Seat, Submit, WorkerError,
    answer_all, ask_all,
};
use rr_protocol::{Limits, Reply, UniqueNodeId};
use std::alloc::Global;
use std::io::Write;
use std::sync::Wait;
use std::sync::ledger::{Blank, Ledger};
use std::thread;
use std::thread::Threads;

/// The limits of the hub: two clients, one server, two loaned and two active requests, two queued and one borrowed
/// response.
const LIMITS: Limits = Limits {
    max_clients: 2,
    max_loaned_requests: 2,
    max_active_requests_per_client: 2,
    max_response_buffer_size: 2,
    client_expired_connection_buffer: 1,
    server_expired_connection_buffer: 1,
    ..Limits::SMALLEST
};

/// Makes a hub with a client and a server, and lets a worker of each send and answer requests, each in its own
/// thread. Returns the sum of the answers, modulo 2^64.
///
/// The blank must have `PARTS` parts, and is consumed. Ports are created through a seat of the caller's own; all
/// seats are handed to `finish`. Not in iceoryx2.
///
/// # Errors
///
/// - `Refused` if no hub was made; why is written to the output first, or `WriteFault` is returned.
/// - `NoMemory` if a port was refused, or a command found no memory.
/// - `Turns` if a worker gave up.
pub fn exchange<L: Ledger + Send + Sync, T: Threads + Wait + Sync, W: Write>(
    rt: &T,
    alloc: Global,
    blank: Blank,
    plan: Plan,
    output: &mut W,
) -> Result<u64, Stop>
    requires name { blank.name ≡ L.name }
    requires parts { blank.parts ≡ L.parts }
    requires many { blank.parts ≡ 1048578 }
{
    let hub = match LockedHub::<L>::new(alloc, LIMITS, UniqueNodeId(0), blank) {
        Ok(hub) => hub,
        Err(error) => return Err(refuse_hub(output, error)),
    };
    let mut own = seat(rt, &hub)?;
    let client = created(hub.submit(rt, &mut own, CREATE_CLIENT))?;
    let server = created(hub.submit(rt, &mut own, CREATE_SERVER))?;
    let asking = Post {
        seat: seat(rt, &hub)?,
        port: client,
    };
    let answering = Post {
        seat: seat(rt, &hub)?,
        port: server,
    };
    let ((asking, sum), (answering, end)) = work(rt, &hub, asking, answering, plan);
    match Vec::from_array(alloc, [own, asking, answering]) {
        Ok(seats) => hub.finish(seats),
        Err(_) => return Err(Stop::NoMemory),
    };
    outcome(sum, end)
}

/// A worker's seat, and the number of the port that it works for.
#[derive(Drop)]
struct Post<L: Ledger> {
    seat: Seat<L>,
    port: u64,
}

/// Takes a seat for a worker.
fn seat<L: Ledger, T: Wait>(rt: &T, hub: &LockedHub<L>) -> Result<Seat<L>, Stop> {
    hub.seat(rt).ok_or(Stop::Turns)
}

/// Returns the number of a port that was created. A refusal can only be one for want of memory here.
fn created(reply: HubReply) -> Result<u64, Stop> {
    match reply {
        Reply::Created(number) => Ok(number),
        _ => Err(Stop::NoMemory),
    }
}

/// Runs both workers, each in its own thread. Returns their seats and the result.
fn work<L: Ledger + Send + Sync, T: Threads + Wait + Sync>(
    rt: &T,
    hub: &LockedHub<L>,
    asking: Post<L>,
    answering: Post<L>,
    plan: Plan,
) -> (
    (Seat<L>, Result<u64, WorkerError>),
    (Seat<L>, Result<(), WorkerError>),
) {
    let bells = Bells::new();
    let rung = &bells;
    thread::join(
        rt,
        move || ask_from(rt, hub, rung, asking, plan),
        move || answer_from(rt, hub, rung, answering, plan),
    )
}

/// Asks by a client. Returns the seat, and the sum of the answers.
fn ask_from<L: Ledger, T: Wait>(
    rt: &T,
    hub: &LockedHub<L>,
    bells: &Bells,
    post: Post<L>,
    plan: Plan,
) -> (Seat<L>, Result<u64, WorkerError>) {
    let Post { mut seat, port } = post;
    let sum = ask_all(rt, hub, &mut seat, bells, port, plan);
    (seat, sum)
}

/// Answers by a server. Returns the seat.
fn answer_from<L: Ledger, T: Wait>(
    rt: &T,
    hub: &LockedHub<L>,
    bells: &Bells,
    post: Post<L>,
    plan: Plan,
) -> (Seat<L>, Result<(), WorkerError>) {
    let Post { mut seat, port } = post;
    let end = answer_all(rt, hub, &mut seat, bells, port, plan);
    (seat, end)
}

/// Returns the sum if both workers did all rounds, and otherwise why the program ends.
fn outcome(sum: Result<u64, WorkerError>, end: Result<(), WorkerError>) -> Result<u64, Stop> {
    match (sum, end) {
        (Ok(sum), Ok(())) => Ok(sum),
        (Err(WorkerError::NoMemory), _) | (_, Err(WorkerError::NoMemory)) => Err(Stop::NoMemory),
        _ => Err(Stop::Turns),
    }
}
