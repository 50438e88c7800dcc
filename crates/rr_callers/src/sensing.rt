//! A sensor: it streams slices of samples, each written in place of the channels that the request names.
#![tactic(auto, using(rr_ports::proofs::Frames::callers), unfolding(rr_ports::specs::Facts::Keeps, rr_ports::specs::Facts::IsFree))]

ghost use Rattle.std.specs.Prelude.{◌+◌, ◌<◌, ◌≤◌, ◌≡◌, ◌∷◌, [], IfOk, List, OnOk, Some, ℕ};
ghost use Rattle.rr_protocol.specs.declared.kind.Kind.TheVariants as kind;
ghost use Rattle.rr_ports.specs.Facts.{Asks, Has, Keeps, Names, Of, numbers_left};
ghost use Rattle.rr_ports.specs.Queues.{Awaits, AwaitsNothing, HearsNothing};
ghost use Rattle.rr_callers.specs.Sensing.{extremes_of, extremes_over, frame};

use crate::calling::CallError;
use rr_ports::sliced::{ActiveRequest, Client, Hub, PendingResponse, Server};
use rr_ports::{ReceiveError, SendError};
use std::alloc::Global;

/// A service that answers the numbers of channels with frames, a sample of each channel.
pub type Service = Hub<u64, u64, u64, u64>;

/// The least and the most of a frame's samples.
#[derive(Clone, Copy, Debug, PartialEq, Eq)]
pub struct Extremes {
    /// The least sample, or `u64::MAX` if there is none.
    pub least: u64,
    /// The most, or 0 if there is none.
    pub most: u64,
}

/// Returns the extremes of samples.
fn range_of(samples: &[u64]) -> Extremes
    ensures { result ≡ extremes_of samples.now }
{
    Extremes {
        least: samples
            .iter()
            .fold(u64::MAX, |least: u64, sample: &u64| least.min(*sample)),
        most: samples
            .iter()
            .fold(0, |most: u64, sample: &u64| most.max(*sample)),
    }
}

/// Sends a frame: a sample of each channel that the request names, written in place. The sample takes the place of a
/// device's measurement.
///
/// # Errors
///
/// As `ActiveRequest::respond_with`.
fn send_frame(
    hub: &mut Service,
    server: &Server<u64>,
    pending: &PendingResponse<u64>,
    active: &ActiveRequest<u64>,
    time: u64,
) -> Result<(), SendError>
    requires active { Names hub.old active.now kind.ActiveRequest }
    requires server { Names hub.old server.now kind.Server }
    requires of { Has hub.old active.now (Of server.now pending.now) }
    requires awaits { AwaitsNothing hub.old pending.now }
    requires number { 0 < numbers_left hub.old }
    ensures frame { (channels : List ℕ) → Has hub.old active.now (Asks channels)
        → OnOk result (Awaits hub.new pending.now server.now (frame channels time ∷ [])) }
    ensures keeps { Keeps [] hub.old hub.new }
    ensures numbers { numbers_left hub.old ≤ numbers_left hub.new + 1 }
{
    let len = active.payload(hub).len();
    active.respond_with(
        hub,
        len,
        |channels: &[u64], index: usize| channels[index].wrapping_mul(100).wrapping_add(time),
    )
}

/// Receives a frame, and returns its extremes. Returns `None` if none is queued.
///
/// # Errors
///
/// As `PendingResponse::receive`.
fn read(
    hub: &mut Service,
    client: &Client<u64>,
    server: &Server<u64>,
    pending: &PendingResponse<u64>,
) -> Result<Option<Extremes>, ReceiveError>
    requires client { Names hub.old client.now kind.Client }
    requires pending { Names hub.old pending.now kind.PendingResponse }
    requires of { Has hub.old pending.now (Of client.now pending.now) }
    ensures extremes { (samples : List ℕ) → Awaits hub.old pending.now server.now (samples ∷ [])
        → IfOk result (λ came. came ≡ Some (extremes_of samples)) }
    ensures done { (samples : List ℕ) → Awaits hub.old pending.now server.now (samples ∷ [])
        → IfOk result (λ came. AwaitsNothing hub.new pending.now) }
    ensures keeps { Keeps [] hub.old hub.new }
    ensures numbers { numbers_left hub.new ≡ numbers_left hub.old }
{
    match pending.receive(hub) {
        Ok(Some(response)) => {
            let extremes = range_of(response.payload(hub));
            response.release(hub);
            Ok(Some(extremes))
        }
        Ok(None) => Ok(None),
        Err(error) => Err(error),
    }
}

/// Sends frames, and receives each before the next is sent.
fn frames_of(
    alloc: Global,
    hub: &mut Service,
    client: &Client<u64>,
    server: &Server<u64>,
    pending: &PendingResponse<u64>,
    active: &ActiveRequest<u64>,
    channels: &[u64],
    frames: u64,
) -> Result<Vec<Extremes>, CallError>
    requires client { Names hub.old client.now kind.Client }
    requires server { Names hub.old server.now kind.Server }
    requires pending { Names hub.old pending.now kind.PendingResponse }
    requires active { Names hub.old active.now kind.ActiveRequest }
    requires sent { Has hub.old pending.now (Of client.now pending.now) }
    requires heard { Has hub.old active.now (Of server.now pending.now) }
    requires asks { Has hub.old active.now (Asks channels.now) }
    requires awaits { AwaitsNothing hub.old pending.now }
    requires numbers { frames ≤ numbers_left hub.old }
    ensures frames { IfOk result (λ came. came.items ≡ extremes_over channels.now frames) }
    ensures keeps { Keeps [] hub.old hub.new }
{
    let mut came = Vec::new(alloc);
    for time in 0..frames {
        match send_frame(hub, server, pending, active, time) {
            Ok(()) => {}
            Err(error) => return Err(CallError::NotAnswered(error)),
        }
        match read(hub, client, server, pending) {
            Ok(Some(extremes)) => {
                if came.push(extremes).is_err() {
                    return Err(CallError::OutOfMemory);
                }
            }
            Ok(None) => unreachable!(),
            Err(error) => return Err(CallError::NotReceived(error)),
        }
    }
    Ok(came)
}

/// Asks a sensor for frames of some channels, and returns the extremes of each.
///
/// # Errors
///
/// Each variant of `CallError` says which call failed.
pub fn sense(
    alloc: Global,
    hub: &mut Service,
    client: &Client<u64>,
    server: &Server<u64>,
    channels: &[u64],
    frames: u64,
) -> Result<Vec<Extremes>, CallError>
    requires client { Names hub.old client.now kind.Client }
    requires server { Names hub.old server.now kind.Server }
    requires quiet { HearsNothing hub.old server.now }
    requires numbers { frames + 2 ≤ numbers_left hub.old }
    ensures frames { IfOk result (λ came. came.items ≡ extremes_over channels.now frames) }
    ensures keeps { Keeps [] hub.old hub.new }
{
    let pending = client
        .send_slice(hub, channels)
        .map_err(CallError::NotAsked)?;
    let came = match server.receive(hub) {
        Ok(Some(active)) => {
            let came = frames_of(
                alloc, hub, client, server, &pending, &active, channels, frames,
            );
            active.release(hub);
            came
        }
        Ok(None) => unreachable!(),
        Err(error) => Err(CallError::NotHeard(error)),
    };
    pending.release(hub);
    came
}
