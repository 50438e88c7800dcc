//! Sums of all queued messages.
#![tactic(auto, using(rr_ports::proofs::Frames::callers), unfolding(rr_ports::specs::Facts::Keeps, rr_ports::specs::Facts::IsFree))]

ghost use Rattle.std.specs.Prelude.{◌≡◌, ◌+◌, ◌-◌, ◌%◌, ◌^◌, ◌<◌, [], ◌∷◌, ℕ, List, IfOk, fold, length, map};
ghost use Rattle.rr_protocol.specs.declared.kind.Kind.TheVariants as kind;
ghost use Rattle.rr_ports.specs.Facts.{Has, Keeps, Names, Of, numbers_left};
ghost use Rattle.rr_ports.specs.Queues.{Awaits};

use crate::frames::Service;
use rr_ports::typed::{Client, PendingResponse, Server};
use rr_ports::{Error, ReceiveError};

/// Receives all answers that are queued for a request. Returns their wrapped sum.
///
/// # Errors
///
/// As `PendingResponse::fold_responses`.
pub fn sum_of_answers(
    hub: &mut Service,
    client: &Client<u64>,
    server: &Server<u64>,
    pending: &PendingResponse<u64>,
) -> Result<u64, ReceiveError>
    requires client { Names hub.old client.now kind.Client }
    requires pending { Names hub.old pending.now kind.PendingResponse }
    requires of { Has hub.old pending.now (Of client.now pending.now) }
    ensures sum { (answers : List ℕ) → Awaits hub.old pending.now server.now (map (λ x. x ∷ []) answers)
        → length answers < 2 ^ 64 - 1 → IfOk result (λ total. total ≡ fold (λ sum x. (sum + x) % 2 ^ 64) 0 answers) }
    ensures keeps { Keeps [] hub.old hub.new }
    ensures numbers { numbers_left hub.new ≡ numbers_left hub.old }
{
    pending.fold_responses(
        hub,
        0_u64,
        |sum: u64, answer: &u64| sum.wrapping_add(*answer),
    )
}

/// Tells a server two numbers. Returns the wrapped sum of all numbers in its queue.
///
/// # Errors
///
/// As `Client::tell` and `Server::fold_requests`.
pub fn told(
    hub: &mut Service,
    client: &Client<u64>,
    server: &Server<u64>,
    one: u64,
    two: u64,
) -> Result<u64, Error>
    requires client { Names hub.old client.now kind.Client }
    requires server { Names hub.old server.now kind.Server }
    requires numbers { 1 < numbers_left hub.old }
    ensures { Keeps [] hub.old hub.new }
{
    client.tell(hub, one)?;
    client.tell(hub, two)?;
    Ok(server.fold_requests(hub, 0_u64, |sum: u64, value: &u64| sum.wrapping_add(*value))?)
}
