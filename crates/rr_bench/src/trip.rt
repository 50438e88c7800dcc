//! Round trips through ports of one thread.
#![tactic(auto, using(rr_ports::proofs::Frames::callers, crate::proofs::Frames::servers), unfolding(rr_ports::specs::Facts::Keeps, rr_ports::specs::Facts::IsFree))]

ghost use Rattle.std.specs.Prelude.{◌<◌, []};
ghost use Rattle.rr_protocol.specs.declared.kind.Kind.TheVariants as kind;
ghost use Rattle.rr_ports.specs.Facts.{Keeps, Names, numbers_left};
ghost use Rattle.rr_bench.specs.Onlookers.{AreServers};

use crate::family::{Family, Hub};
use crate::rows::Timed;
use rr_ports::{
    Client, Limits, PendingResponse, ReceiveError, RequestSendError, SendError, Server,
    UniqueNodeId,
};
use std::alloc::Global;
use std::time::{Clock, Instant};
use thiserror::Error;

/// The limits of one client and one server.
pub const LIMITS: Limits = Limits {
    max_loaned_requests: 2,
    max_active_requests_per_client: 2,
    max_response_buffer_size: 2,
    max_borrowed_responses_per_pending_response: 2,
    client_expired_connection_buffer: 1,
    server_expired_connection_buffer: 1,
    ..Limits::SMALLEST
};

/// The round trips before the timed ones, which touch the memory for the first time.
const FIRST: u64 = 10;

/// Why a round trip failed. It is small, since clearing the memory of an `anyhow::Error` takes as many instructions
/// as the trip.
#[derive(Debug, Drop, Error)]
pub enum TripError {
    /// The send of the request was refused.
    #[error("{0}")]
    RequestSend(#[from] RequestSendError),
    /// The send of the response was refused.
    #[error("{0}")]
    Send(#[from] SendError),
    /// A receive was refused.
    #[error("{0}")]
    Receive(#[from] ReceiveError),
    /// No message arrived.
    #[error("no message came")]
    NothingCame,
    /// No number is left for a handle.
    #[error("the hub has no numbers left")]
    NoNumbersLeft,
}

/// Returns an error. Lets the compiler move the code that leads to it out of the path of a whole round trip, as it
/// does with a panic.
#[cold]
#[inline(never)]
fn unlikely(error: TripError) -> TripError {
    error
}

/// Receives a request and responds to it.
#[inline(always)]
fn answer<B: Family>(hub: &mut Hub<B>, server: &Server<B>, len: usize) -> Result<(), TripError>
    requires server { Names hub.old server.now kind.Server }
    requires numbers { 1 < numbers_left hub.old }
    ensures { Keeps [] hub.old hub.new }
{
    let Some(active) = server.receive(hub)? else {
        return Err(unlikely(TripError::NothingCame));
    };
    if let Err(error) = B::respond(hub, &active, len) {
        active.release(hub);
        return Err(unlikely(error.into()));
    }
    active.release(hub);
    Ok(())
}

/// Answers a request and receives the response. Returns the response's word.
#[inline(always)]
fn exchange<B: Family>(
    hub: &mut Hub<B>,
    server: &Server<B>,
    pending: &PendingResponse<B>,
    len: usize,
) -> Result<u64, TripError>
    requires server { Names hub.old server.now kind.Server }
    requires pending { Names hub.old pending.now kind.PendingResponse }
    requires numbers { 1 < numbers_left hub.old }
    ensures { Keeps [] hub.old hub.new }
{
    answer(hub, server, len)?;
    match B::take(hub, pending)? {
        Some(word) => Ok(word),
        None => Err(unlikely(TripError::NothingCame)),
    }
}

/// Makes a round trip with a word. Returns the response's word.
#[inline(always)]
fn round_trip<B: Family>(
    hub: &mut Hub<B>,
    client: &Client<B>,
    server: &Server<B>,
    len: usize,
    word: u64,
) -> Result<u64, TripError>
    requires client { Names hub.old client.now kind.Client }
    requires server { Names hub.old server.now kind.Server }
    requires numbers { 2 < numbers_left hub.old }
    ensures { Keeps [] hub.old hub.new }
{
    let pending = B::ask(hub, client, len, word)?;
    match exchange(hub, server, &pending, len) {
        Ok(word) => {
            pending.release(hub);
            Ok(word)
        }
        Err(error) => {
            pending.release(hub);
            Err(unlikely(error))
        }
    }
}

/// Makes a server receive, and releases the request if one arrives. Returns a number if none arrives, and otherwise
/// 0.
#[inline(always)]
pub fn look<B: Family>(hub: &mut Hub<B>, server: &Server<B>, number: u64) -> Result<u64, TripError>
    requires { Names hub.old server.now kind.Server }
    ensures { Keeps [] hub.old hub.new }
{
    if hub.numbers_left() == 0 {
        return Err(TripError::NoNumbersLeft);
    }
    match server.receive(hub)? {
        Some(active) => {
            active.release(hub);
            Ok(0)
        }
        None => Ok(number),
    }
}

/// Makes servers receive. Returns the sum of the numbers of those that received nothing.
#[inline(always)]
pub fn look_around<B: Family>(
    hub: &mut Hub<B>,
    onlookers: &[Server<B>],
    number: u64,
) -> Result<u64, TripError>
    requires { AreServers hub.old onlookers.now }
    ensures { Keeps [] hub.old hub.new }
{
    let mut sum = 0u64;
    for server in onlookers {
        sum = sum.wrapping_add(look(hub, server, number)?);
    }
    Ok(sum)
}

/// Makes round trips with 0, 1, .., and lets the onlookers poll after each. Returns the sum of the responses' words.
#[inline(never)]
pub fn trips<B: Family>(
    hub: &mut Hub<B>,
    client: &Client<B>,
    server: &Server<B>,
    onlookers: &[Server<B>],
    len: usize,
    count: u64,
) -> Result<u64, TripError>
    requires client { Names hub.old client.now kind.Client }
    requires server { Names hub.old server.now kind.Server }
    requires onlookers { AreServers hub.old onlookers.now }
    ensures { Keeps [] hub.old hub.new }
{
    let mut sum = 0u64;
    for asked in 0..count {
        if hub.numbers_left() < 3 {
            return Err(TripError::NoNumbersLeft);
        }
        match round_trip(hub, client, server, len, asked) {
            Ok(word) => sum = sum.wrapping_add(word),
            Err(error) => return Err(unlikely(error)),
        }
        look_around(hub, onlookers, 0)?;
    }
    Ok(sum)
}

/// Times round trips.
pub fn timed<B: Family, R: Clock>(
    rt: &R,
    hub: &mut Hub<B>,
    client: &Client<B>,
    server: &Server<B>,
    onlookers: &[Server<B>],
    len: usize,
    count: u64,
) -> anyhow::Result<Timed>
    requires client { Names hub.old client.now kind.Client }
    requires server { Names hub.old server.now kind.Server }
    requires onlookers { AreServers hub.old onlookers.now }
    ensures { Keeps [] hub.old hub.new }
{
    trips(hub, client, server, onlookers, len, FIRST)?;
    let start = Instant::now(rt)?;
    let sum = trips(hub, client, server, onlookers, len, count)?;
    Timed::since(rt, start, sum)
}

/// Creates a client and a server, and times round trips of messages of `len` elements.
fn with_ports<B: Family, R: Clock>(
    rt: &R,
    alloc: Global,
    hub: &mut Hub<B>,
    len: usize,
    count: u64,
) -> anyhow::Result<Timed> {
    let server = B::server(hub, len)?;
    let done = match B::client(hub, len) {
        Ok(client) => {
            let nobody = Vec::new(alloc);
            let done = timed(rt, hub, &client, &server, &nobody, len, count);
            nobody.destroy_empty();
            client.release(hub);
            done
        }
        Err(error) => Err(error.into()),
    };
    server.release(hub);
    done
}

/// Times round trips of messages of `len` elements by one client and one server.
pub fn time_ports<B: Family, R: Clock>(
    rt: &R,
    alloc: Global,
    len: usize,
    count: u64,
) -> anyhow::Result<Timed> {
    let mut hub = Hub::<B>::new(alloc, LIMITS, UniqueNodeId(7))?;
    with_ports(rt, alloc, &mut hub, len, count)
}
