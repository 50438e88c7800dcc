//! A stream of answers to one request, which the client ends by a hint once it has enough.
#![tactic(auto, using(rr_ports::proofs::Frames::callers), unfolding(rr_ports::specs::Facts::Keeps, rr_ports::specs::Facts::IsFree))]

ghost use Rattle.std.specs.Prelude.{◌≤◌, IfOk, []};
ghost use Rattle.rr_protocol.specs.declared.kind.Kind.TheVariants as kind;
ghost use Rattle.rr_ports.specs.Facts.{Keeps, Names};

use rr_ports::RequestSendError;
use rr_ports::typed::{ActiveRequest, Client, Hub, PendingResponse, Server};
use thiserror::Error;

/// A service that answers numbers with numbers.
pub type Service = Hub<u64, u64, u64, u64>;

/// Sends a number as the next response, unless the client has set its hint or no number is left. Returns whether it
/// was sent.
fn is_sent(hub: &mut Service, active: &ActiveRequest<u64>, value: u64) -> bool
    requires { Names hub.old active.now kind.ActiveRequest }
    ensures { Keeps [] hub.old hub.new }
{
    if active.has_disconnect_hint(hub) || hub.numbers_left() == 0 {
        return false;
    }
    active.send_copy(hub, value).is_ok()
}

/// Sends numbers from 0 on as responses, up to `most` of them, and stops as soon as the client has set its hint, a
/// send is refused or no number is left. Returns how many were sent.
pub fn answer(hub: &mut Service, active: &ActiveRequest<u64>, most: u64) -> u64
    requires { Names hub.old active.now kind.ActiveRequest }
    ensures keeps { Keeps [] hub.old hub.new }
    ensures most { result ≤ most }
{
    for value in 0..most {
        if !is_sent(hub, active, value) {
            return value;
        }
    }
    most
}

/// Receives the next response and releases it. Returns whether there was one.
fn is_received(hub: &mut Service, pending: &PendingResponse<u64>) -> bool
    requires { Names hub.old pending.now kind.PendingResponse }
    ensures { Keeps [] hub.old hub.new }
{
    matches!(pending.receive_copy(hub), Ok(Some(_)))
}

/// Receives responses until none is queued, or the client has as many as it wants; in that case sets its hint.
/// Returns how many it still wants.
pub fn receive(hub: &mut Service, pending: &PendingResponse<u64>, wanted: u64) -> u64
    requires { Names hub.old pending.now kind.PendingResponse }
    ensures keeps { Keeps [] hub.old hub.new }
    ensures wanted { result ≤ wanted }
{
    for received in 0..wanted {
        if !is_received(hub, pending) {
            return wanted - received;
        }
    }
    pending.set_disconnect_hint(hub);
    0
}

/// Why no stream began.
#[derive(Clone, Copy, Debug, PartialEq, Eq, Error)]
pub enum StreamError {
    /// The request was not sent.
    #[error("not asked: {0}")]
    NotAsked(#[from] RequestSendError),
    /// The server didn't receive the request.
    #[error("not heard")]
    NotHeard,
    /// The hub has no numbers left for handles.
    #[error("no numbers left")]
    NoNumbersLeft,
}

/// The counts of a stream.
#[derive(Clone, Copy, Debug, PartialEq, Eq)]
pub struct Streamed {
    /// How many responses the server sent.
    pub sent: u64,
    /// How many of them the client received.
    pub came: u64,
}

/// Makes the server send two responses and the client receive them, over and over, until the server sends none.
fn take_turns(
    hub: &mut Service,
    active: &ActiveRequest<u64>,
    pending: &PendingResponse<u64>,
    wanted: u64,
) -> Streamed
    requires active { Names hub.old active.now kind.ActiveRequest }
    requires pending { Names hub.old pending.now kind.PendingResponse }
    ensures keeps { Keeps [] hub.old hub.new }
    ensures came { result.came ≤ wanted }
{
    let mut sent = 0_u64;
    let mut left = wanted;
    for _ in 0..wanted {
        let more = answer(hub, active, 2);
        if more == 0 {
            return Streamed {
                sent,
                came: wanted - left,
            };
        }
        sent = sent.saturating_add(more);
        left = receive(hub, pending, left);
    }
    Streamed {
        sent,
        came: wanted - left,
    }
}

/// Asks a server for a stream of responses, and ends it once the client has as many as it wants. Returns how many
/// were sent, and how many were received.
///
/// # Errors
///
/// Each variant of `StreamError` says which call failed.
pub fn stream(
    hub: &mut Service,
    client: &Client<u64>,
    server: &Server<u64>,
    wanted: u64,
) -> Result<Streamed, StreamError>
    requires client { Names hub.old client.now kind.Client }
    requires server { Names hub.old server.now kind.Server }
    ensures came { IfOk result (λ streamed. streamed.came ≤ wanted) }
    ensures keeps { Keeps [] hub.old hub.new }
{
    if hub.numbers_left() < 2 {
        return Err(StreamError::NoNumbersLeft);
    }
    let pending = client.send_copy(hub, wanted)?;
    let Ok(Some(active)) = server.receive(hub) else {
        pending.release(hub);
        return Err(StreamError::NotHeard);
    };
    let streamed = take_turns(hub, &active, &pending, wanted);
    active.release(hub);
    pending.release(hub);
    Ok(streamed)
}
