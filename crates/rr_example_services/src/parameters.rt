//! A parameter service: two clients in turn get, set and list the values that a server keeps.
//!
//! ```text
//! Get(1): [20]
//! Set(1, 21): [21]
//! Get(7): []
//! List: [10, 21, 30]
//! ```
//!
//! `rr_callers::parameters::ask_in_turn` sends each question, makes the server answer it, and receives the answer.
//! The ports must belong to this hub; its contract gives the answers.
#![tactic(auto, using(rr_ports::proofs::Frames::callers), unfolding(rr_ports::specs::Facts::Keeps, rr_ports::specs::Facts::IsFree))]

use rr_callers::connected::Connected;
use rr_callers::parameters::{Asked, Service, ask_in_turn};
use rr_ports::UniqueNodeId;

/// The questions, asked by the first and the second client alternately.
const QUESTIONS: [Asked; 4] = [Asked::Get(1), Asked::Set(1, 21), Asked::Get(7), Asked::List];

/// Asks the questions, and prints the answers.
pub(crate) fn show(rt: &HostRuntime) -> anyhow::Result<()> {
    let alloc = rt.alloc();
    let mut values = [10, 20, 30];
    let hub = Service::with_default_limits(alloc, UniqueNodeId(0));
    let clients = hub.client_builder();
    let servers = hub.server_builder().initial_max_slice_len(values.len());
    let mut ports = Connected::by(hub, clients, servers)?;
    let second = match ports.hub.client_builder().create(&mut ports.hub) {
        Ok(second) => second,
        Err(error) => {
            ports.end();
            return Err(error.into());
        }
    };
    let told = ask_in_turn(
        alloc,
        &mut ports.hub,
        &ports.client,
        &second,
        &ports.server,
        &mut values,
        &QUESTIONS,
    );
    second.release(&mut ports.hub);
    ports.end();
    for (asked, answer) in QUESTIONS.iter().zip(told?.iter()) {
        println!(rt; "{asked:?}: {answer:?}")?;
    }
    Ok(())
}
