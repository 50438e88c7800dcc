//! Calls that take memory. `tests/memory/run.py` refuses it to them, one request after another.
//!
//! The two words after the program's name select a story; without them all stories run. A story prints `call` and its
//! words once everything before its call is done; then the call's result, and, if that is want of memory, the result
//! of the same call when it was made again; and then the state. The status is 4 if memory for the commands before a
//! call was refused.
#![tactic(auto)]

mod books;
mod commands;
mod copies;
mod lists;
mod ports;
mod stage;

use crate::stage::Stage;
use std::process::ExitCode;
use std::rt::Env;
use std::sync::Wait;
use std::{env, io};

/// Runs the story of these words, or all. Returns whether there was memory for everything before the calls.
fn tell<R: AllocGlobal + Print + Wait>(rt: &R, only: Option<(&str, &str)>) -> io::Result<bool> {
    let alloc = rt.alloc();
    let mut stage = Stage {
        output: io::writer(rt),
        only,
    };
    Ok(
        commands::tell(alloc, &mut stage)?
            && lists::tell(alloc, &mut stage)?
            && copies::tell(alloc, &mut stage)?
            && ports::tell(alloc, &mut stage)?
            && books::tell(rt, alloc, &mut stage)?,
    )
}

/// Tells the story of the program's words, or all stories.
fn tell_words<R: AllocGlobal + Env + Print + Wait>(rt: &R) -> io::Result<bool> {
    let mut words = env::args(rt)?.skip(1);
    match (words.next(), words.next()) {
        (Some(group), Some(name)) => tell(rt, Some((group.as_str(), name.as_str()))),
        _ => tell(rt, None),
    }
}

fn main(rt: HostRuntime) -> ExitCode {
    match tell_words(&rt) {
        Ok(true) => ExitCode::SUCCESS,
        _ => ExitCode::from(4),
    }
}
