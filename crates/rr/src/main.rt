//! The program `rr`: hands its words and the standard streams to `serve`, and ends with its answer.
#![tactic(auto)]

use rr_script::{Stop, ended, serve};
use std::env;
use std::io::{self, BufReader, ErrorKind, Write};
use std::process::ExitCode;
use std::rt::Env;
use std::sync::Wait;
use std::thread::Threads;

/// Returns the words after the program's name.
///
/// # Errors
///
/// - `NoMemory` if there was no memory for them.
/// - `Usage` if one of them is not UTF-8, or they can't be read.
fn words<R: AllocGlobal + Env>(rt: &R) -> Result<Vec<String>, Stop> {
    let args = match env::args(rt) {
        Ok(args) => args,
        Err(error) if error.kind() == ErrorKind::OutOfMemory => return Err(Stop::NoMemory),
        Err(_) => return Err(Stop::Usage),
    };
    let mut words = Vec::new(rt.alloc());
    for word in args.skip(1) {
        if words.push(word).is_err() {
            return Err(Stop::NoMemory);
        }
    }
    Ok(words)
}

/// Serves the words. Returns the status, or why the program ends before it can serve them.
fn status<R: AllocGlobal + Env + Input + Print + Threads + Wait + Sync, F: Write>(
    rt: &R,
    faults: &mut F,
) -> Result<u8, Stop> {
    let words = words(rt)?;
    match BufReader::new(rt.alloc(), rt.reader()) {
        Ok(input) => Ok(serve(
            rt,
            rt.alloc(),
            words.as_slice(),
            input,
            &mut io::writer(rt),
            faults,
        )),
        Err(_) => Err(Stop::NoMemory),
    }
}

fn main(rt: HostRuntime) -> ExitCode {
    let mut faults = rt.stderr();
    match status(&rt, &mut faults) {
        Ok(status) => ExitCode::from(status),
        Err(stop) => ExitCode::from(ended(Err(stop), &mut faults)),
    }
}
