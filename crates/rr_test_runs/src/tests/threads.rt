//! Two threads at one hub, as the program lets them work.
use super::scripts::{BASE_PATH, Ended, PORTS, told, words};
use rr_script::serve;
use std::alloc::{AllocError, Global};
use std::sync::Wait;
use std::thread::Threads;

/// Words after the program's name, and the sum that is printed.
const SUMS: [(&str, &str); 4] = [
    ("threads 1000", "500500\n"),
    ("threads 0", "0\n"),
    ("threads 1", "1\n"),
    ("threads 0007", "28\n"),
];

/// Words that are none.
const OTHERS: [&str; 8] = [
    "threads",
    "threads 100001",
    "threads 18446744073709551616",
    "threads -1",
    "threads +1",
    "threads x",
    "threads 1 1",
    "thread 1",
];

/// Hands an input to the program, with the words of a line after its name.
fn served<R: Threads + Wait + Sync>(
    rt: &R,
    alloc: Global,
    line: &str,
    input: &[u8],
) -> Result<Ended, AllocError> {
    let words = words(alloc, line)?;
    let mut output = Vec::new(alloc);
    let mut fault = Vec::new(alloc);
    let status = serve(rt, alloc, words.as_slice(), input, &mut output, &mut fault);
    Ok(Ended {
        status,
        output,
        fault,
    })
}

/// Returns whether the program ends so. No input is read: it would be a bad line.
fn ends<R: Threads + Wait + Sync>(
    rt: &R,
    alloc: Global,
    words: &str,
    status: u8,
    output: &str,
    fault: &str,
) -> Result<bool, AllocError> {
    let ended = served(rt, alloc, words, b"no line\n")?;
    Ok(
        ended.status == status
            && ended.output.as_slice() == output.as_bytes()
            && ended.fault.as_slice() == fault.as_bytes(),
    )
}

#[test]
fn two_threads_sum_the_answers(rt: HostRuntime) -> Result<(), AllocError> {
    for (words, sum) in SUMS {
        assert!(rt; ends(&rt, rt.alloc(), words, 0, sum, "")?, "{words}");
    }
    Ok(())
}

#[test]
fn words_that_are_no_number_of_rounds_are_told_the_usage(
    rt: HostRuntime,
) -> Result<(), AllocError> {
    let usage = "usage: rr script or rr threads K or rr least N\n";
    for words in OTHERS {
        assert!(rt; ends(&rt, rt.alloc(), words, 3, "", usage)?, "{words}");
    }
    Ok(())
}

#[test]
fn the_program_plays_scripts_too(rt: HostRuntime) -> Result<(), AllocError> {
    let story = told(rt.alloc(), PORTS, BASE_PATH)?;
    let ended = served(&rt, rt.alloc(), "script", story.input.as_bytes())?;
    assert_eq!(rt; (ended.status, ended.fault.len()), (0, 0));
    assert!(rt; ended.output.as_slice() == story.wanted.as_bytes());
    Ok(())
}
