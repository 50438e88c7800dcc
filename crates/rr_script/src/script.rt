//! Scripts: a line is a command of a runner, and its reply is a line.
use crate::line::{Line, ScriptCommand};
use crate::lines::Lines;
use crate::output::{refuse_hub, tell, write_replies};
use crate::stop::Stop;
use rr_protocol::{Limits, NoHandler, Reply, UniqueNodeId};
use rr_run::{OutOfMemory, Runner, run};
use rr_slots::{Family, SliceBody, WriteBody};
use std::alloc::Global;
use std::io::{BufRead, Write};

/// A runner of numbers, whose messages have bodies of one family.
type ScriptRunner<B> = Runner<u64, B, u64, NoHandler>;

/// Reads a script, and carries it out.
pub(crate) fn script<R: BufRead + Drop, W: Write>(
    alloc: Global,
    input: R,
    output: &mut W,
) -> Result<(), Stop> {
    let mut lines = Lines::new(alloc, input)?;
    play(alloc, &mut lines, output)
}

/// Makes the hub of the first line, which names its family, and carries out the other lines.
fn play<R: BufRead + Drop, W: Write>(
    alloc: Global,
    lines: &mut Lines<R>,
    output: &mut W,
) -> Result<(), Stop> {
    match lines.read()? {
        Some(Line::Hub(Family::Typed, limits)) => {
            play_on::<Option<u64>, R, W>(alloc, limits, lines, output)
        }
        Some(Line::Hub(Family::Sliced, limits)) => {
            play_on::<SliceBody<u64>, R, W>(alloc, limits, lines, output)
        }
        Some(Line::Command(_)) => Err(lines.bad_line()),
        None => Ok(()),
    }
}

/// Makes a hub whose messages have such bodies, and carries out the lines that are left.
fn play_on<B: WriteBody<Item = u64>, R: BufRead + Drop, W: Write>(
    alloc: Global,
    limits: Limits,
    lines: &mut Lines<R>,
    output: &mut W,
) -> Result<(), Stop> {
    match hub::<B, W>(alloc, limits, output) {
        Ok(mut runner) => commands(alloc, &mut runner, lines, output),
        Err(stop) => Err(stop),
    }
}

/// Makes a hub, and writes `done`.
fn hub<B: WriteBody<Item = u64>, W: Write>(
    alloc: Global,
    limits: Limits,
    output: &mut W,
) -> Result<ScriptRunner<B>, Stop> {
    match Runner::new(alloc, limits, UniqueNodeId(0)) {
        Ok(runner) => {
            tell(output, "done", "")?;
            Ok(runner)
        }
        Err(error) => Err(refuse_hub(output, error)),
    }
}

/// Carries out the commands of the lines that are left.
fn commands<B: WriteBody<Item = u64>, R: BufRead + Drop, W: Write>(
    alloc: Global,
    runner: &mut ScriptRunner<B>,
    lines: &mut Lines<R>,
    output: &mut W,
) -> Result<(), Stop> {
    for _ in 0..u64::MAX {
        match lines.read()? {
            Some(Line::Command(command)) => carry_out(alloc, runner, command, output)?,
            Some(Line::Hub(_, _)) => return Err(lines.bad_line()),
            None => return Ok(()),
        }
    }
    Err(Stop::ReadFault)
}

/// Carries out one command, and writes its reply.
fn carry_out<B: WriteBody<Item = u64>, W: Write>(
    alloc: Global,
    runner: &mut ScriptRunner<B>,
    command: ScriptCommand,
    output: &mut W,
) -> Result<(), Stop> {
    match replies_to(alloc, runner, command) {
        Ok(replies) => write_replies(output, replies.as_slice()),
        Err(_) => Err(Stop::NoMemory),
    }
}

/// Runs one command, and gives its reply.
fn replies_to<B: WriteBody<Item = u64>>(
    alloc: Global,
    runner: &mut ScriptRunner<B>,
    command: ScriptCommand,
) -> Result<Vec<Reply<u64, u64>>, OutOfMemory> {
    let mut replies = Vec::new(alloc);
    run(runner, &[command], &mut replies)?;
    Ok(replies)
}
