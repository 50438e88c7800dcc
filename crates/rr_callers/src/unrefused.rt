//! A remote procedure call that is never refused: of a client and a server that have no handles and whole pools.
#![tactic(auto, using(rr_ports::proofs::Frames::callers), unfolding(rr_ports::specs::Facts::Keeps, rr_ports::specs::Facts::IsFree, rr_ports::specs::Queues::KeepsHeard, rr_ports::specs::Owning::KeepsOwned))]

ghost use Rattle.std.specs.Prelude.{◌+◌, ◌≤◌, ◌<◌, ◌≡◌, ◌∷◌, []};
ghost use Rattle.rr_protocol.specs.declared.kind.Kind.TheVariants as kind;
ghost use Rattle.rr_ports.specs.Facts.{Asks, Discards, Has, Keeps, Names, Of, WholePool, numbers_left};
ghost use Rattle.rr_ports.specs.Owning.{KeepsOwned, Owns};
ghost use Rattle.rr_ports.specs.Queues.{Awaits, AwaitsNothing, Hears, HearsNothing, KeepsHeard};

use crate::frames::Service;
use rr_ports::typed::{ActiveRequest, Client, PendingResponse, Server};

/// Answers a request that is its server's only handle, and for which no response is queued yet.
pub fn reply(
    hub: &mut Service,
    server: &Server<u64>,
    pending: &PendingResponse<u64>,
    active: &ActiveRequest<u64>,
    answer: u64,
)
    requires server { Names hub.old server.now kind.Server }
    requires active { Names hub.old active.now kind.ActiveRequest }
    requires of { Has hub.old active.now (Of server.now pending.now) }
    requires pool { Has hub.old active.now (WholePool 1) }
    requires owns { Owns hub.old server.now 1 }
    requires awaits { AwaitsNothing hub.old pending.now }
    requires number { 0 < numbers_left hub.old }
    ensures awaits { Awaits hub.new pending.now server.now ((answer ∷ []) ∷ []) }
    ensures owned { KeepsOwned [] hub.old hub.new }
    ensures heard { KeepsHeard [] hub.old hub.new }
    ensures keeps { Keeps [] hub.old hub.new }
    ensures numbers { numbers_left hub.old ≤ numbers_left hub.new + 1 }
{
    match active.send_copy(hub, answer) {
        Ok(()) => {}
        Err(_) => unreachable!(),
    }
}

/// Answers the only question in the queue of a server that has no handle, as `answer_by` does. Returns the answer.
pub fn answer<F: FnOnce(u64) -> u64>(
    hub: &mut Service,
    server: &Server<u64>,
    pending: &PendingResponse<u64>,
    question: u64,
    answer_by: F,
) -> u64
    requires server { Names hub.old server.now kind.Server }
    requires pool { Has hub.old server.now (WholePool 1) }
    requires owns { Owns hub.old server.now 0 }
    requires asks { Has hub.old pending.now (Asks (question ∷ [])) }
    requires hears { Hears hub.old server.now pending.now }
    requires awaits { AwaitsNothing hub.old pending.now }
    requires numbers { 1 < numbers_left hub.old }
    requires callable { F.pre answer_by question }
    ensures answers { F.post answer_by question result }
    ensures awaits { Awaits hub.new pending.now server.now ((result ∷ []) ∷ []) }
    ensures quiet { HearsNothing hub.new server.now }
    ensures owns { Owns hub.new server.now 0 }
    ensures owned { KeepsOwned (server.now ∷ []) hub.old hub.new }
    ensures heard { KeepsHeard (server.now ∷ []) hub.old hub.new }
    ensures keeps { Keeps [] hub.old hub.new }
    ensures numbers { numbers_left hub.old ≤ numbers_left hub.new + 2 }
{
    match server.receive(hub) {
        Ok(Some(active)) => {
            let asked = *active.payload(hub);
            let answer = answer_by(asked);
            reply(hub, server, pending, &active, answer);
            active.release(hub);
            answer
        }
        Ok(None) => unreachable!(),
        Err(_) => unreachable!(),
    }
}

/// Receives the only answer that is queued for the only handle of a client.
pub fn receive(
    hub: &mut Service,
    client: &Client<u64>,
    server: &Server<u64>,
    pending: &PendingResponse<u64>,
    answer: u64,
) -> u64
    requires client { Names hub.old client.now kind.Client }
    requires pending { Names hub.old pending.now kind.PendingResponse }
    requires of { Has hub.old pending.now (Of client.now pending.now) }
    requires owns { Owns hub.old client.now 1 }
    requires awaits { Awaits hub.old pending.now server.now ((answer ∷ []) ∷ []) }
    ensures answers { result ≡ answer }
    ensures owned { KeepsOwned [] hub.old hub.new }
    ensures heard { KeepsHeard [] hub.old hub.new }
    ensures keeps { Keeps [] hub.old hub.new }
    ensures numbers { numbers_left hub.new ≡ numbers_left hub.old }
{
    match pending.receive_copy(hub) {
        Ok(Some(value)) => value,
        Ok(None) => unreachable!(),
        Err(_) => unreachable!(),
    }
}

/// Sends a question, makes the server answer it as `answer_by` does, and returns the answer. None of its calls is
/// refused, and both ports have no handle afterwards.
pub fn call<F: FnOnce(u64) -> u64>(
    hub: &mut Service,
    client: &Client<u64>,
    server: &Server<u64>,
    question: u64,
    answer_by: F,
) -> u64
    requires client { Names hub.old client.now kind.Client }
    requires server { Names hub.old server.now kind.Server }
    requires client_pool { Has hub.old client.now (WholePool 1) }
    requires server_pool { Has hub.old server.now (WholePool 1) }
    requires discards { Has hub.old client.now Discards }
    requires client_owns { Owns hub.old client.now 0 }
    requires server_owns { Owns hub.old server.now 0 }
    requires quiet { HearsNothing hub.old server.now }
    requires numbers { 2 < numbers_left hub.old }
    requires callable { F.pre answer_by question }
    ensures answers { F.post answer_by question result }
    ensures client_owns { Owns hub.new client.now 0 }
    ensures server_owns { Owns hub.new server.now 0 }
    ensures quiet { HearsNothing hub.new server.now }
    ensures keeps { Keeps [] hub.old hub.new }
    ensures numbers { numbers_left hub.old ≤ numbers_left hub.new + 3 }
{
    match client.send_copy(hub, question) {
        Ok(pending) => {
            let answered = answer(hub, server, &pending, question, answer_by);
            let received = receive(hub, client, server, &pending, answered);
            pending.release(hub);
            received
        }
        Err(_) => unreachable!(),
    }
}
