//! Remote procedure calls one after another.
#![tactic(auto, using(rr_ports::proofs::Frames::callers), unfolding(rr_ports::specs::Facts::Keeps, rr_ports::specs::Facts::IsFree))]

ghost use Rattle.std.specs.Prelude.{◌*◌, ◌≤◌, [], IfOk, length};
ghost use Rattle.std.specs.List.{AllZip};
ghost use Rattle.rr_protocol.specs.declared.kind.Kind.TheVariants as kind;
ghost use Rattle.rr_ports.specs.Facts.{Keeps, Names, numbers_left};
ghost use Rattle.rr_ports.specs.Queues.{HearsNothing};

use crate::calling::{CallError, Service, call};
use rr_ports::typed::{Client, Server};
use std::alloc::Global;

/// Asks one question after another, makes the server answer each as `answer_by` does, and returns the answers in the
/// same order.
///
/// # Errors
///
/// Each variant of `CallError` says which call failed.
pub fn call_each<Q: Copy, P: Copy, F: Fn(Q) -> P>(
    alloc: Global,
    hub: &mut Service<Q, P>,
    client: &Client<Q>,
    server: &Server<P>,
    questions: &[Q],
    answer_by: &F,
) -> Result<Vec<P>, CallError>
    requires client { Names hub.old client.now kind.Client }
    requires server { Names hub.old server.now kind.Server }
    requires quiet { HearsNothing hub.old server.now }
    requires numbers { length questions.now * 3 ≤ numbers_left hub.old }
    requires callable { F.IsAlwaysCallable answer_by.now }
    ensures answers { IfOk result (λ answers. AllZip (F.post answer_by.now) questions.now answers.items) }
    ensures keeps { Keeps [] hub.old hub.new }
{
    let mut answers = Vec::new(alloc);
    for index in 0..questions.len() {
        let answer = call(hub, client, server, questions[index], |asked: Q| {
            answer_by(asked)
        })?;
        if answers.push(answer).is_err() {
            return Err(CallError::OutOfMemory);
        }
    }
    Ok(answers)
}
