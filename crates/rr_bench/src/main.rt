//! Times and counts round trips: through the ports of `rr_ports`, of threads at hubs of `rr_locked` and `rr_shared`,
//! and through the ports of `rr_shared_ports`. Without arguments it makes some of each kind, and checks the sums of
//! their answers.
#![tactic(auto)]

mod crowd;
mod family;
mod idle;
mod locked;
mod pages;
mod rows;
mod shared;
mod stress;
mod threads;
mod trip;

use crate::crowd::{ALONE, Shape};
use crate::idle::idle;
use crate::rows::{FOUR, GROWN, LARGEST, MANY, NAP, Row, SLEEP, TIMED, TRIPS, Work, make, sample};
use crate::stress::stress;
use anyhow::bail;
use std::alloc::Global;
use std::env;
use std::sync::Wait;
use std::thread::Threads;
use std::time::Clock;

/// The words of the program. Without any it makes 1,000 round trips of each row. `time` takes samples of all rows,
/// `grow` of those in larger hubs. `count` makes N round trips after CLIENTS clients came and left, `trips` N by one
/// thread at a hub of `rr_shared`, `four` by four, `sleep` by two threads that sleep, `nap` by two that also nap at
/// random times, `many` by two such clients with four servers. `stress` has two threads make random calls, and then
/// eight, of which each client's sends about N requests. `idle` lets a server wait for a second.
const USAGE: &str =
    "usage: rr_bench [time | grow | count N [CLIENTS] | (trips | four | sleep | nap | many | stress) N | idle]";

/// How often each client asks if no argument says it.
const CHECKED: u64 = 1_000;

/// Returns the row of an argument.
fn row_of(word: &str) -> anyhow::Result<Row> {
    match word {
        "trips" => Ok(TRIPS),
        "four" => Ok(FOUR),
        "sleep" => Ok(SLEEP),
        "nap" => Ok(NAP),
        "many" => Ok(MANY),
        _ => bail!("{USAGE}"),
    }
}

/// The modes of the program.
enum Plan {
    /// A thousand round trips of each row, and random calls.
    Check,
    /// Samples of all rows.
    Time,
    /// Samples of the rows in larger hubs.
    Grow,
    /// A server waits while no request comes.
    Idle,
    /// This many round trips of a row.
    Make(Row, u64),
    /// Random calls, about this many requests.
    Stress(u64),
}

/// Parses the program's arguments into a plan.
fn plan_of(words: &[String]) -> anyhow::Result<Plan> {
    let mut words = words.iter().map(|word| word.as_str());
    match (words.next(), words.next(), words.next(), words.next()) {
        (None, ..) => Ok(Plan::Check),
        (Some("time"), None, ..) => Ok(Plan::Time),
        (Some("grow"), None, ..) => Ok(Plan::Grow),
        (Some("idle"), None, ..) => Ok(Plan::Idle),
        (Some("count"), Some(trips), clients, None) => {
            let passed = clients.unwrap_or("0").parse()?;
            let row = Row("ports", 1, 8, 0, 1, Work::Crowd(Shape { passed, ..ALONE }));
            Ok(Plan::Make(row, trips.parse()?))
        }
        (Some("stress"), Some(requests), None, _) => Ok(Plan::Stress(requests.parse()?)),
        (Some(word), Some(trips), None, _) => Ok(Plan::Make(row_of(word)?, trips.parse()?)),
        _ => bail!("{USAGE}"),
    }
}

/// Carries out the plan of the program's arguments.
fn carry_out<R: Threads + Wait + Sync + Clock + Print>(
    rt: &R,
    alloc: Global,
    plan: Plan,
) -> anyhow::Result<()> {
    match plan {
        Plan::Check => {
            make(rt, alloc, &TIMED, CHECKED)?;
            make(rt, alloc, &GROWN, CHECKED)?;
            make(rt, alloc, &[FOUR, NAP, MANY], CHECKED)?;
            stress(rt, alloc, CHECKED)
        }
        Plan::Time => sample(rt, alloc, &TIMED),
        Plan::Grow => {
            sample(rt, alloc, &GROWN)?;
            sample(rt, alloc, &LARGEST)
        }
        Plan::Idle => idle(rt, alloc),
        Plan::Make(row, trips) => make(rt, alloc, &[row], trips),
        Plan::Stress(requests) => stress(rt, alloc, requests),
    }
}

/// Returns the program's arguments.
fn words(rt: &HostRuntime) -> anyhow::Result<Vec<String>> {
    let mut words = Vec::new(rt.alloc());
    for word in env::args(rt)?.skip(1) {
        words.push(word)?;
    }
    Ok(words)
}

fn main(rt: HostRuntime) -> anyhow::Result<()> {
    let words = words(&rt)?;
    let plan = plan_of(&words)?;
    carry_out(&rt, rt.alloc(), plan)
}
