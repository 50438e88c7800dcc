//! A remote procedure call: the client receives what the server answers to its question.
#![tactic(auto, using(rr_ports::proofs::Frames::callers), unfolding(rr_ports::specs::Facts::Keeps, rr_ports::specs::Facts::IsFree, rr_ports::specs::Queues::KeepsHeard))]

ghost use Rattle.std.specs.Prelude.{◌+◌, ◌≤◌, ◌<◌, ◌≡◌, ◌≢◌, ◌∷◌, [], IfOk};
ghost use Rattle.rr_protocol.specs.declared.kind.Kind.TheVariants as kind;
ghost use Rattle.rr_ports.specs.Facts.{Asks, Has, Keeps, Names, Of, numbers_left};
ghost use Rattle.rr_ports.specs.Queues.{Awaits, AwaitsNothing, Hears, HearsNothing, KeepsHeard};

use rr_ports::typed::{Client, Hub, PendingResponse, Server};
use rr_ports::{ReceiveError, RequestSendError, SendError};
use thiserror::Error;

/// A service that answers questions of one type with answers of another. A crate that names it need not know its user
/// headers.
pub type Service<Q, P> = Hub<Q, u64, P, u64>;

/// Why no answer was received.
#[derive(Clone, Copy, Debug, PartialEq, Eq, Error)]
pub enum CallError {
    /// The question was not sent.
    #[error("not asked: {0}")]
    NotAsked(RequestSendError),
    /// The server didn't receive the question.
    #[error("not heard: {0}")]
    NotHeard(ReceiveError),
    /// The answer was not sent.
    #[error("not answered: {0}")]
    NotAnswered(SendError),
    /// The client didn't receive the answer.
    #[error("not received: {0}")]
    NotReceived(ReceiveError),
    /// There was no memory for the answers.
    #[error("no memory")]
    OutOfMemory,
}

/// Answers the only question in a server's queue, as `answer_by` does. Returns the answer.
///
/// # Errors
///
/// `NotHeard` as `Server::receive`, `NotAnswered` as `ActiveRequest::send_copy`.
pub fn answer<Q: Copy, P: Copy, F: FnOnce(Q) -> P>(
    hub: &mut Service<Q, P>,
    server: &Server<P>,
    pending: &PendingResponse<Q>,
    question: Q,
    answer_by: F,
) -> Result<P, CallError>
    requires server { Names hub.old server.now kind.Server }
    requires asks { Has hub.old pending.now (Asks (question ∷ [])) }
    requires hears { Hears hub.old server.now pending.now }
    requires awaits { AwaitsNothing hub.old pending.now }
    requires numbers { 1 < numbers_left hub.old }
    requires callable { F.pre answer_by question }
    ensures answers { IfOk result (λ answer. F.post answer_by question answer) }
    ensures awaits { IfOk result (λ answer. Awaits hub.new pending.now server.now ((answer ∷ []) ∷ [])) }
    ensures quiet { IfOk result (λ answer. HearsNothing hub.new server.now) }
    ensures heard { KeepsHeard (server.now ∷ []) hub.old hub.new }
    ensures keeps { Keeps [] hub.old hub.new }
    ensures numbers { numbers_left hub.old ≤ numbers_left hub.new + 2 }
{
    match server.receive(hub) {
        Ok(Some(active)) => {
            let asked = *active.payload(hub);
            let answer = answer_by(asked);
            match active.send_copy(hub, answer) {
                Ok(()) => {
                    active.release(hub);
                    Ok(answer)
                }
                Err(error) => {
                    active.release(hub);
                    Err(CallError::NotAnswered(error))
                }
            }
        }
        Ok(None) => unreachable!(),
        Err(error) => Err(CallError::NotHeard(error)),
    }
}

/// Receives the only answer that is queued for a question. No answer is queued afterwards.
///
/// # Errors
///
/// `NotReceived` as `PendingResponse::receive`.
pub fn received<Q: Copy, P: Copy>(
    hub: &mut Service<Q, P>,
    client: &Client<Q>,
    server: &Server<P>,
    pending: &PendingResponse<Q>,
    answer: P,
) -> Result<P, CallError>
    requires client { Names hub.old client.now kind.Client }
    requires pending { Names hub.old pending.now kind.PendingResponse }
    requires of { Has hub.old pending.now (Of client.now pending.now) }
    requires awaits { Awaits hub.old pending.now server.now ((answer ∷ []) ∷ []) }
    ensures answers { IfOk result (λ received. received ≡ answer) }
    ensures done { IfOk result (λ received. AwaitsNothing hub.new pending.now) }
    ensures heard { KeepsHeard [] hub.old hub.new }
    ensures keeps { Keeps [] hub.old hub.new }
    ensures numbers { numbers_left hub.new ≡ numbers_left hub.old }
{
    match pending.receive_copy(hub) {
        Ok(Some(value)) => Ok(value),
        Ok(None) => unreachable!(),
        Err(error) => Err(CallError::NotReceived(error)),
    }
}

/// Makes a server answer a question that was sent, and returns the client's received value.
///
/// # Errors
///
/// As `answer` and `received`.
pub fn exchange<Q: Copy, P: Copy, F: FnOnce(Q) -> P>(
    hub: &mut Service<Q, P>,
    client: &Client<Q>,
    server: &Server<P>,
    pending: &PendingResponse<Q>,
    question: Q,
    answer_by: F,
) -> Result<P, CallError>
    requires client { Names hub.old client.now kind.Client }
    requires server { Names hub.old server.now kind.Server }
    requires pending { Names hub.old pending.now kind.PendingResponse }
    requires of { Has hub.old pending.now (Of client.now pending.now) }
    requires asks { Has hub.old pending.now (Asks (question ∷ [])) }
    requires hears { Hears hub.old server.now pending.now }
    requires awaits { AwaitsNothing hub.old pending.now }
    requires numbers { 1 < numbers_left hub.old }
    requires callable { F.pre answer_by question }
    ensures answers { IfOk result (λ answer. F.post answer_by question answer) }
    ensures quiet { IfOk result (λ answer. HearsNothing hub.new server.now) }
    ensures done { IfOk result (λ answer. AwaitsNothing hub.new pending.now) }
    ensures heard { KeepsHeard (server.now ∷ []) hub.old hub.new }
    ensures keeps { Keeps [] hub.old hub.new }
    ensures numbers { numbers_left hub.old ≤ numbers_left hub.new + 2 }
{
    match answer(hub, server, pending, question, answer_by) {
        Ok(answer) => received(hub, client, server, pending, answer),
        Err(error) => Err(error),
    }
}

/// Sends a question, makes the server answer it as `answer_by` does, and returns the client's received value: the
/// answer to this question.
///
/// # Errors
///
/// Each variant of `CallError` says which call failed.
pub fn call<Q: Copy, P: Copy, F: FnOnce(Q) -> P>(
    hub: &mut Service<Q, P>,
    client: &Client<Q>,
    server: &Server<P>,
    question: Q,
    answer_by: F,
) -> Result<P, CallError>
    requires client { Names hub.old client.now kind.Client }
    requires server { Names hub.old server.now kind.Server }
    requires quiet { HearsNothing hub.old server.now }
    requires numbers { 2 < numbers_left hub.old }
    requires callable { F.pre answer_by question }
    ensures answers { IfOk result (λ answer. F.post answer_by question answer) }
    ensures quiet { IfOk result (λ answer. HearsNothing hub.new server.now) }
    ensures keeps { Keeps [] hub.old hub.new }
    ensures numbers { numbers_left hub.old ≤ numbers_left hub.new + 3 }
{
    let pending = client
        .send_copy(hub, question)
        .map_err(CallError::NotAsked)?;
    let result = exchange(hub, client, server, &pending, question, answer_by);
    pending.release(hub);
    result
}

/// Sends a question to two servers, makes each answer it, and returns the client's received values: the first
/// server's answer to this question, and the second one's.
///
/// # Errors
///
/// Each variant of `CallError` says which call failed.
pub fn call_both<Q: Copy, P: Copy, F: FnOnce(Q) -> P, G: FnOnce(Q) -> P>(
    hub: &mut Service<Q, P>,
    client: &Client<Q>,
    first: &Server<P>,
    second: &Server<P>,
    question: Q,
    first_answers: F,
    second_answers: G,
) -> Result<(P, P), CallError>
    requires client { Names hub.old client.now kind.Client }
    requires first { Names hub.old first.now kind.Server }
    requires second { Names hub.old second.now kind.Server }
    requires differ { second.now ≢ first.now }
    requires first_quiet { HearsNothing hub.old first.now }
    requires second_quiet { HearsNothing hub.old second.now }
    requires numbers { 4 < numbers_left hub.old }
    requires first_callable { F.pre first_answers question }
    requires second_callable { G.pre second_answers question }
    ensures first { IfOk result (λ answers. F.post first_answers question answers.0) }
    ensures second { IfOk result (λ answers. G.post second_answers question answers.1) }
    ensures keeps { Keeps [] hub.old hub.new }
{
    let pending = client
        .send_copy(hub, question)
        .map_err(CallError::NotAsked)?;
    let one = exchange(hub, client, first, &pending, question, first_answers);
    let result = match one {
        Ok(one) => match exchange(hub, client, second, &pending, question, second_answers) {
            Ok(two) => Ok((one, two)),
            Err(error) => Err(error),
        },
        Err(error) => Err(error),
    };
    pending.release(hub);
    result
}
