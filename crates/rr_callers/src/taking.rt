//! Payloads that are taken by value, and need not be `Copy`.
#![tactic(auto, using(rr_ports::proofs::Frames::callers), unfolding(rr_ports::specs::Facts::Keeps, rr_ports::specs::Facts::IsFree))]

ghost use Rattle.std.specs.Prelude.{◌≡◌, ◌∷◌, [], ℕ, IfSome, List};
ghost use Rattle.rr_protocol.specs.declared.kind.Kind.TheVariants as kind;
ghost use Rattle.rr_ports.specs.Facts.{Keeps, Names, numbers_left};
ghost use Rattle.rr_ports.specs.Queues.{Awaits};

use rr_ports::typed::{Hub, PendingResponse};

/// Receives a response and returns its payload, if one is queued: a server's answer, if that is the oldest one
/// queued.
pub fn taken<T: Drop>(hub: &mut Hub<u64, u64, T, u64>, pending: &PendingResponse<u64>) -> Option<T>
    requires { Names hub.old pending.now kind.PendingResponse }
    ensures keeps { Keeps [] hub.old hub.new }
    ensures numbers { numbers_left hub.new ≡ numbers_left hub.old }
    ensures answers { (server : ℕ) (value : T) (later : List (List T))
        → Awaits hub.old pending.now server ((value ∷ []) ∷ later) → IfSome result (λ taken. taken ≡ value) }
{
    match pending.receive(hub) {
        Ok(Some(response)) => Some(response.into_payload(hub)),
        Ok(None) => None,
        Err(_) => None,
    }
}
