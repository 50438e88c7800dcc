//! The words of the program.
use crate::least::least;
use crate::script::script;
use crate::stop::Stop;
use crate::two_workers::exchange;
use crate::words::number;
use rr_locked::{PARTS, Plan};
use std::alloc::Global;
use std::io::{BufRead, Write};
use std::marker::Brand;
use std::sync::Wait;
use std::sync::ledger::Blank;
use std::thread::Threads;

/// The most rounds of two workers.
const MOST_ROUNDS: u64 = 100_000;

/// How often a worker reads its bell for one message.
const TURNS: u64 = 1_000_000_000;

/// Runs the program as its arguments say, and returns its status.
///
/// `threads` and a number of rounds, from 0 to 100000, make two threads at one hub send and answer that number of
/// requests, and write the sum of the answers; no input is read. All other words are those of `serve_alone`. In
/// addition to its statuses it returns 4 if a command of a worker found no memory, or a worker gave up. Not in
/// iceoryx2.
pub fn serve<T: Threads + Wait + Sync, R: BufRead + Drop, W: Write, F: Write>(
    rt: &T,
    alloc: Global,
    words: &[String],
    input: R,
    output: &mut W,
    faults: &mut F,
) -> u8 {
    match words.first() {
        Some(word) if word.as_str() == "threads" && words.len() == 2 => {
            ended(threads(rt, alloc, words[1].as_str(), output), faults)
        }
        _ => serve_alone(alloc, words, input, output, faults),
    }
}

/// Makes two workers send and answer as many requests as the argument says, and writes the sum of the answers.
fn threads<T: Threads + Wait + Sync, W: Write>(
    rt: &T,
    alloc: Global,
    word: &str,
    output: &mut W,
) -> Result<(), Stop> {
    let rounds = match number(word) {
        Some(rounds) if rounds <= MOST_ROUNDS => rounds,
        _ => return Err(Stop::Usage),
    };
    let plan = Plan {
        rounds,
        turns: TURNS,
    };
    let sum = exchange::<Brand, T, W>(rt, alloc, Blank::new(PARTS), plan, output)?;
    match writeln!(output, "{sum}") {
        Ok(()) => Ok(()),
        Err(_) => Err(Stop::WriteFault),
    }
}

/// Runs the program in one thread as its arguments say, and returns its status.
///
/// `script` alone reads commands from the input, one per line, and writes each reply before it reads the next line.
/// `least` and a number, from 0 to 2^64 - 1, read one line that makes a hub, and write the replies of `least_pool`
/// for its limits and a pool of that number. The status is 0 if all was done. Otherwise one line goes to `faults`,
/// and the status is 1 for a line that isn't one of the script's (`bad line L`), 2 for a read or write that failed, 3
/// for other arguments, and 4 if the hub or `least_pool` was refused or there was no memory for a buffer. Output that
/// was written before stays. Not in iceoryx2.
pub fn serve_alone<R: BufRead + Drop, W: Write, F: Write>(
    alloc: Global,
    words: &[String],
    input: R,
    output: &mut W,
    faults: &mut F,
) -> u8 {
    let end = match words.first() {
        Some(word) if word.as_str() == "script" && words.len() == 1 => {
            script(alloc, input, output)
        }
        Some(word) if word.as_str() == "least" && words.len() == 2 => {
            least(alloc, words[1].as_str(), input, output)
        }
        _ => Err(Stop::Usage),
    };
    ended(end, faults)
}

/// Returns the status of a program that ends so. Writes why it stopped early, in one line; a failed write of that
/// line is ignored.
pub fn ended<F: Write>(end: Result<(), Stop>, faults: &mut F) -> u8 {
    match end {
        Ok(()) => 0,
        Err(stop) => {
            let _ = stop.tell(faults);
            stop.status()
        }
    }
}
