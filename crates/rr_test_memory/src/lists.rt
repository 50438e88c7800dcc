//! Making a runner, lists of commands, and lists that show a pool.
use crate::commands::{Asked, CLIENT, SERVER, prepare};
use crate::stage::{LIMITS, Stage};
use rr_protocol::{Command, NoHandler, UniqueNodeId};
use rr_run::{LeastPoolError, Runner, least_pool, run};
use std::alloc::Global;
use std::io::{self, Write};

/// A runner of numbers, one in each message.
type Typed = Runner<u64, Option<u64>, u64, NoHandler>;

/// A list for `run`, of commands of a client 0 and a server 1.
const LIST: [Asked; 3] = [
    Command::SendCopy(0, 123),
    Command::Receive(1),
    Command::SendCopy(3, 456),
];

/// Makes a runner. Takes no memory.
fn make<W: Write>(alloc: Global, stage: &mut Stage<W>) -> io::Result<()> {
    if !stage.has("runner", "new") {
        return Ok(());
    }
    stage.call("runner", "new")?;
    match Typed::new(alloc, LIMITS, UniqueNodeId(7)) {
        Ok(runner) => stage.show(runner.kind(0)),
        Err(error) => stage.show(error),
    }
}

/// Runs a list, and runs it again if there was no memory for its replies. Returns whether there was memory for the
/// ports before.
fn run_list<W: Write>(alloc: Global, stage: &mut Stage<W>) -> io::Result<bool> {
    if !stage.has("runner", "run") {
        return Ok(true);
    }
    let Ok(mut runner) = Typed::new(alloc, LIMITS, UniqueNodeId(7)) else {
        return Ok(false);
    };
    if !prepare(&mut runner, &[CLIENT, SERVER]) {
        return Ok(false);
    }
    let mut replies = Vec::new(alloc);
    stage.call("runner", "run")?;
    for _ in 0..2 {
        match run(&mut runner, LIST.as_slice(), &mut replies) {
            Ok(()) => break,
            Err(_) => stage.show("OutOfMemory")?,
        }
    }
    for reply in &replies {
        stage.show(reply)?;
    }
    Ok(true)
}

/// Writes the replies that show a pool of three slots, or returns why there are none.
fn show_pool<W: Write>(alloc: Global, stage: &mut Stage<W>) -> io::Result<Option<LeastPoolError>> {
    match least_pool(alloc, &LIMITS, 3) {
        Ok((_, replies)) => {
            for reply in &replies {
                stage.show(reply)?;
            }
            Ok(None)
        }
        Err(error) => Ok(Some(error)),
    }
}

/// Fills a pool, and fills one again if there was no memory.
fn fill<W: Write>(alloc: Global, stage: &mut Stage<W>) -> io::Result<()> {
    if !stage.has("runner", "least_pool") {
        return Ok(());
    }
    stage.call("runner", "least_pool")?;
    for _ in 0..2 {
        match show_pool(alloc, stage)? {
            Some(error) => stage.show(error)?,
            None => break,
        }
    }
    Ok(())
}

/// Runs the stories of runners and their lists. Returns whether there was memory for everything before the calls.
pub(crate) fn tell<W: Write>(alloc: Global, stage: &mut Stage<W>) -> io::Result<bool> {
    make(alloc, stage)?;
    fill(alloc, stage)?;
    run_list(alloc, stage)
}
