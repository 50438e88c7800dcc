//! Workers: a client that asks and a server that answers, each in its own thread.
use crate::bells::Bells;
use crate::calls::{payload, receive, release, send_copy, take_response};
use crate::seat::Seat;
use crate::submit::Submit;
use crate::worker_error::WorkerError;
use std::sync::Wait;
use std::sync::ledger::Ledger;

/// How much workers do.
///
/// # Examples
///
/// Sends ten numbers, and returns the sum of the responses (`rr_test_runs::tests::hubs::examples`):
///
/// ```
/// use rr_locked::{Bells, Plan, Seat, Submit, WorkerError, ask_all};
/// use std::sync::Wait;
/// use std::sync::ledger::Ledger;
///
/// fn ask_ten<L: Ledger, S: Submit<L>, R: Wait>(
///     rt: &R,
///     hub: &S,
///     seat: &mut Seat<L>,
///     client: u64,
/// ) -> Result<u64, WorkerError> {
///     let plan = Plan {
///         rounds: 10,
///         turns: 1000,
///     };
///     ask_all(rt, hub, seat, &Bells::new(), client, plan)
/// }
/// ```
#[derive(Clone, Copy, Debug, PartialEq, Eq, Hash)]
pub struct Plan {
    /// How many requests are sent and answered.
    pub rounds: u64,
    /// How often a worker polls the bell for one message before it gives up.
    pub turns: u64,
}

/// Sends the numbers from 0 on as requests of a client, as many as the plan has rounds, each after the previous
/// response was received and released. Returns the sum of the responses, modulo 2^64.
///
/// It rings the server's bell after each request, and waits at the client's. Not in iceoryx2.
///
/// # Errors
///
/// - `NoMemory` if a command found no memory.
/// - `GaveUp` if a response did not arrive within the plan's turns, or a reply is not one that its command can have
///   here.
pub fn ask_all<L: Ledger, S: Submit<L>, R: Wait>(
    rt: &R,
    hub: &S,
    seat: &mut Seat<L>,
    bells: &Bells,
    client: u64,
    plan: Plan,
) -> Result<u64, WorkerError> {
    let mut sum = 0u64;
    for asked in 0..plan.rounds {
        sum = sum.wrapping_add(ask(rt, hub, seat, bells, client, asked, plan.turns)?);
    }
    Ok(sum)
}

/// Sends a number as a request, receives the response, and returns the response's number.
fn ask<L: Ledger, S: Submit<L>, R: Wait>(
    rt: &R,
    hub: &S,
    seat: &mut Seat<L>,
    bells: &Bells,
    client: u64,
    asked: u64,
    turns: u64,
) -> Result<u64, WorkerError> {
    let pending = send_copy(rt, hub, seat, client, asked)?;
    bells.server.ring();
    take_response(rt, hub, seat, &bells.client, pending, turns)
}

/// Answers as many requests of a server as the plan has rounds, each with the request's number plus one.
///
/// It waits at the server's bell, and rings the client's after each response. Not in iceoryx2.
///
/// # Errors
///
/// - `NoMemory` if a command found no memory.
/// - `GaveUp` if a request did not arrive within the plan's turns, or a reply is not one that its command can have
///   here.
pub fn answer_all<L: Ledger, S: Submit<L>, R: Wait>(
    rt: &R,
    hub: &S,
    seat: &mut Seat<L>,
    bells: &Bells,
    server: u64,
    plan: Plan,
) -> Result<(), WorkerError> {
    for _ in 0..plan.rounds {
        answer(rt, hub, seat, bells, server, plan.turns)?;
    }
    Ok(())
}

/// Receives a request, and answers with its number plus one.
fn answer<L: Ledger, S: Submit<L>, R: Wait>(
    rt: &R,
    hub: &S,
    seat: &mut Seat<L>,
    bells: &Bells,
    server: u64,
    turns: u64,
) -> Result<(), WorkerError> {
    let active = receive(rt, hub, seat, &bells.server, server, turns)?;
    let asked = payload(rt, hub, seat, active)?;
    send_copy(rt, hub, seat, active, asked.wrapping_add(1))?;
    bells.client.ring();
    release(rt, hub, seat, active)
}
