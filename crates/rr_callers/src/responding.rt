//! Answers that are computed from the request in place.
#![tactic(auto, using(rr_ports::proofs::Frames::callers), unfolding(rr_ports::specs::Facts::Keeps, rr_ports::specs::Facts::IsFree))]

ghost use Rattle.std.specs.Prelude.{◌*◌, ◌%◌, ◌^◌, ◌<◌, [], ◌∷◌, ℕ, List, OnOk, map};
ghost use Rattle.rr_protocol.specs.declared.kind.Kind.TheVariants as kind;
ghost use Rattle.rr_ports.specs.Facts.{Asks, Has, Keeps, Names, Of, numbers_left};
ghost use Rattle.rr_ports.specs.Queues.{Awaits, AwaitsNothing};

use crate::frames::Service;
use rr_ports::typed::{ActiveRequest, PendingResponse, Server};
use rr_ports::{SendError, sliced};

/// A service that answers slices of numbers with slices of numbers.
type Slices = sliced::Hub<u64, u64, u64, u64>;

/// Answers a request with twice its number.
///
/// # Errors
///
/// As `ActiveRequest::send_copy`.
pub fn double(
    hub: &mut Service,
    server: &Server<u64>,
    pending: &PendingResponse<u64>,
    active: &ActiveRequest<u64>,
) -> Result<(), SendError>
    requires active { Names hub.old active.now kind.ActiveRequest }
    requires server { Names hub.old server.now kind.Server }
    requires of { Has hub.old active.now (Of server.now pending.now) }
    requires awaits { AwaitsNothing hub.old pending.now }
    requires number { 0 < numbers_left hub.old }
    ensures answers { (asked : ℕ) → Has hub.old active.now (Asks (asked ∷ []))
        → OnOk result (Awaits hub.new pending.now server.now ((asked * 2 % 2 ^ 64 ∷ []) ∷ [])) }
    ensures keeps { Keeps [] hub.old hub.new }
{
    active.respond_with(hub, |asked: &u64| asked.wrapping_mul(2))
}

/// Answers a request with each of its elements, scaled.
///
/// # Errors
///
/// As `ActiveRequest::send_slice`.
pub fn scale(
    hub: &mut Slices,
    server: &sliced::Server<u64>,
    pending: &sliced::PendingResponse<u64>,
    active: &sliced::ActiveRequest<u64>,
    by: u64,
) -> Result<(), SendError>
    requires active { Names hub.old active.now kind.ActiveRequest }
    requires server { Names hub.old server.now kind.Server }
    requires of { Has hub.old active.now (Of server.now pending.now) }
    requires awaits { AwaitsNothing hub.old pending.now }
    requires number { 0 < numbers_left hub.old }
    ensures answers { (asked : List ℕ) → Has hub.old active.now (Asks asked)
        → OnOk result (Awaits hub.new pending.now server.now (map (λ x. x * by % 2 ^ 64) asked ∷ [])) }
    ensures keeps { Keeps [] hub.old hub.new }
{
    let len = active.payload(hub).len();
    active.respond_with(
        hub,
        len,
        |asked: &[u64], index: usize| asked[index].wrapping_mul(by),
    )
}
