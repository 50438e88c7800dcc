//! A parameter service: a server keeps values under keys, which clients get, set and list. A question is one value,
//! and its answer a slice.
#![tactic(auto, using(rr_ports::proofs::Frames::callers), unfolding(rr_ports::specs::Facts::Keeps, rr_ports::specs::Facts::IsFree, rr_ports::specs::Queues::KeepsHeard))]

ghost use Rattle.std.specs.Prelude.{◌+◌, ◌*◌, ◌<◌, ◌≤◌, ◌≡◌, ◌∷◌, [], IfOk, length, map};
ghost use Rattle.rr_protocol.specs.declared.kind.Kind.TheVariants as kind;
ghost use Rattle.rr_ports.specs.Facts.{Asks, Has, Keeps, Names, Of, numbers_left};
ghost use Rattle.rr_ports.specs.Queues.{Awaits, AwaitsNothing, Hears, HearsNothing, KeepsHeard};
ghost use Rattle.rr_callers.specs.Parameters.{answer_of, answers_of, values_after};

use crate::calling::CallError;
use rr_ports::sliced::Server;
use rr_ports::typed::{Client, PendingResponse};
use rr_ports::{Hub, NoHandler, SliceBody};
use std::alloc::Global;
use std::slice;

/// A client's question.
#[derive(Clone, Copy, Debug, PartialEq, Eq)]
pub enum Asked {
    /// The value under a key.
    Get(usize),
    /// Another value under a key.
    Set(usize, u64),
    /// All values.
    List,
}

/// A parameter service: questions are single values, and answers slices.
pub type Service = Hub<Option<Asked>, (), SliceBody<u64>, (), NoHandler>;

/// Carries out the write of a question. A key without a value writes nothing.
fn store(values: &mut [u64], asked: Asked)
    ensures { values.new ≡ values_after asked values.old }
{
    if let Asked::Set(key, value) = asked {
        if key < values.len() {
            values[key] = value;
        }
    }
}

/// Returns the answer to a question: the value under its key, or nothing if there is none, or all values.
fn told(values: &[u64], asked: Asked) -> &[u64]
    ensures { result.now ≡ answer_of asked values.now }
{
    match asked {
        Asked::Get(key) | Asked::Set(key, _) => match values.get(key) {
            Some(value) => slice::from_ref(value),
            None => &[],
        },
        Asked::List => values,
    }
}

/// Receives the only question in a server's queue, carries out its write, and answers it.
///
/// # Errors
///
/// `NotHeard` as `Server::receive`; `NotAnswered` as `ActiveRequest::send_slice`. No clause speaks of the values
/// then.
pub fn serve(
    hub: &mut Service,
    server: &Server<u64>,
    pending: &PendingResponse<Asked>,
    values: &mut [u64],
    asked: Asked,
) -> Result<(), CallError>
    requires server { Names hub.old server.now kind.Server }
    requires asks { Has hub.old pending.now (Asks (asked ∷ [])) }
    requires hears { Hears hub.old server.now pending.now }
    requires awaits { AwaitsNothing hub.old pending.now }
    requires numbers { 1 < numbers_left hub.old }
    ensures values { IfOk result (λ done. values.new ≡ values_after asked values.old) }
    ensures awaits { IfOk result (λ done. Awaits hub.new pending.now server.now (answer_of asked values.new ∷ [])) }
    ensures quiet { IfOk result (λ done. HearsNothing hub.new server.now) }
    ensures keeps { Keeps [] hub.old hub.new }
    ensures numbers { numbers_left hub.old ≤ numbers_left hub.new + 2 }
{
    match server.receive(hub) {
        Ok(Some(active)) => {
            let asked = *active.payload(hub);
            store(values, asked);
            match active.send_slice(hub, told(values, asked)) {
                Ok(()) => {
                    active.release(hub);
                    Ok(())
                }
                Err(error) => {
                    active.release(hub);
                    Err(CallError::NotAnswered(error))
                }
            }
        }
        Ok(None) => unreachable!(),
        Err(error) => Err(CallError::NotHeard(error)),
    }
}

/// Receives the only answer that is queued for a question, and copies it.
///
/// # Errors
///
/// `NotReceived` as `PendingResponse::receive`, `OutOfMemory` if there was no memory for the copy.
fn received(
    alloc: Global,
    hub: &mut Service,
    client: &Client<Asked>,
    server: &Server<u64>,
    pending: &PendingResponse<Asked>,
) -> Result<Vec<u64>, CallError>
    requires client { Names hub.old client.now kind.Client }
    requires pending { Names hub.old pending.now kind.PendingResponse }
    requires of { Has hub.old pending.now (Of client.now pending.now) }
    ensures answer { (values : _) → Awaits hub.old pending.now server.now (values ∷ [])
        → IfOk result (λ came. came.items ≡ values) }
    ensures keeps { Keeps [] hub.old hub.new }
    ensures heard { KeepsHeard [] hub.old hub.new }
    ensures numbers { numbers_left hub.new ≡ numbers_left hub.old }
{
    match pending.receive(hub) {
        Ok(Some(response)) => {
            let copy = Vec::from_slice(alloc, response.payload(hub));
            response.release(hub);
            copy.map_err(|_| CallError::OutOfMemory)
        }
        Ok(None) => Ok(Vec::new(alloc)),
        Err(error) => Err(CallError::NotReceived(error)),
    }
}

/// Asks, makes the server answer, and returns the answer.
///
/// # Errors
///
/// Each variant of `CallError` says which call failed.
pub fn ask(
    alloc: Global,
    hub: &mut Service,
    client: &Client<Asked>,
    server: &Server<u64>,
    values: &mut [u64],
    asked: Asked,
) -> Result<Vec<u64>, CallError>
    requires client { Names hub.old client.now kind.Client }
    requires server { Names hub.old server.now kind.Server }
    requires quiet { HearsNothing hub.old server.now }
    requires numbers { 2 < numbers_left hub.old }
    ensures values { IfOk result (λ told. values.new ≡ values_after asked values.old) }
    ensures answer { IfOk result (λ told. told.items ≡ answer_of asked values.new) }
    ensures quiet { IfOk result (λ told. HearsNothing hub.new server.now) }
    ensures keeps { Keeps [] hub.old hub.new }
    ensures numbers { numbers_left hub.old ≤ numbers_left hub.new + 3 }
{
    let pending = client.send_copy(hub, asked).map_err(CallError::NotAsked)?;
    let told = match serve(hub, server, &pending, values, asked) {
        Ok(()) => received(alloc, hub, client, server, &pending),
        Err(error) => Err(error),
    };
    pending.release(hub);
    told
}

/// Asks the questions one after another, alternating between the two clients. Returns the answers in the order of the
/// questions.
///
/// # Errors
///
/// As `ask`. No clause speaks of the values then.
pub fn ask_in_turn(
    alloc: Global,
    hub: &mut Service,
    first: &Client<Asked>,
    second: &Client<Asked>,
    server: &Server<u64>,
    values: &mut [u64],
    questions: &[Asked],
) -> Result<Vec<Vec<u64>>, CallError>
    requires first { Names hub.old first.now kind.Client }
    requires second { Names hub.old second.now kind.Client }
    requires server { Names hub.old server.now kind.Server }
    requires quiet { HearsNothing hub.old server.now }
    requires numbers { length questions.now * 3 ≤ numbers_left hub.old }
    ensures answers { IfOk result (λ told. map (λ answer. answer.items) told.items
        ≡ answers_of questions.now values.old) }
    ensures keeps { Keeps [] hub.old hub.new }
{
    let mut answers = Vec::new(alloc);
    for index in 0..questions.len() {
        let client = if index % 2 == 0 { first } else { second };
        let answer = ask(alloc, hub, client, server, values, questions[index])?;
        if answers.push(answer).is_err() {
            return Err(CallError::OutOfMemory);
        }
    }
    Ok(answers)
}
