//! Reads and writes that fail: of every row, each call in turn.
use super::least::PoolRow;
use super::scripts::{Row, told, words};
use super::{defaults, least, leaving, pools, questions, queues, rewriting, rows, slices, turns};
use rr_script::serve_alone;
use std::alloc::Global;
use std::io::{self, BufReader, Read, Write};

/// How many bytes a read gives at most.
const STEP: usize = 7;

/// Bytes of which the first reads give a few each, and the next one fails.
#[derive(Drop)]
struct FailingReader<'a> {
    bytes: &'a [u8],
    reads: usize,
}

impl Read for FailingReader<'_> {
    fn read(&mut self, buf: &mut [u8]) -> io::Result<usize> {
        if self.reads == 0 {
            return Err(io::Error::from(io::ErrorKind::Other));
        }
        self.reads -= 1;
        let len = buf.len().min(STEP);
        self.bytes.read(&mut buf[..len])
    }
}

/// Keeps the output of the first writes, and fails at the next one.
#[derive(Drop)]
struct FailingWriter {
    written: Vec<u8>,
    writes: usize,
}

impl Write for FailingWriter {
    fn write(&mut self, buf: &[u8]) -> io::Result<usize> {
        if self.writes == 0 {
            return Err(io::Error::from(io::ErrorKind::Other));
        }
        self.writes -= 1;
        self.written.extend_from_slice(buf)?;
        Ok(buf.len())
    }

    fn flush(&mut self) -> io::Result<()> {
        Ok(())
    }
}

/// The arguments and the input of a program, and its result if nothing fails.
#[derive(Clone, Copy)]
struct Case<'a> {
    words: &'a [String],
    input: &'a [u8],
    status: u8,
    output: &'a [u8],
    fault: &'a [u8],
}

/// Which calls fail.
#[derive(Clone, Copy)]
enum Side {
    Reads,
    Writes,
}

/// How a run ended of which a call failed, or was to fail.
#[derive(Clone, Copy, PartialEq, Eq)]
enum End {
    /// With status 2 and the fault's text, after a prefix of the wanted output.
    Fault,
    /// As where nothing fails: the call was not reached.
    Whole,
    /// In another way.
    Other,
}

/// Runs a case in which the first `calls` reads or writes succeed and the next one fails.
fn end_of(alloc: Global, case: &Case, side: Side, calls: usize) -> io::Result<End> {
    let (reads, writes, text) = match side {
        Side::Reads => (calls, usize::MAX, "read fault\n"),
        Side::Writes => (usize::MAX, calls, "write fault\n"),
    };
    let input = FailingReader {
        bytes: case.input,
        reads,
    };
    let input = BufReader::new(alloc, input)?;
    let mut output = FailingWriter {
        written: Vec::new(alloc),
        writes,
    };
    let mut fault = Vec::new(alloc);
    let status = serve_alone(alloc, case.words, input, &mut output, &mut fault);
    let written = output.written.as_slice();
    if status == case.status && written == case.output && fault.as_slice() == case.fault {
        return Ok(End::Whole);
    }
    let is_fault = status == 2 && fault.as_slice() == text.as_bytes();
    if is_fault && case.output.starts_with(written) {
        return Ok(End::Fault);
    }
    Ok(End::Other)
}

/// The most calls that a run may take.
const MOST: usize = 1000;

/// Returns whether a case ends with a fault at each of its calls, of which there is one at least.
fn fails_at_each(alloc: Global, case: &Case, side: Side) -> io::Result<bool> {
    for calls in 0..MOST {
        match end_of(alloc, case, side, calls)? {
            End::Fault => {}
            End::Whole => return Ok(0 < calls),
            End::Other => return Ok(false),
        }
    }
    Ok(false)
}

/// Returns the name of the first script that doesn't end with a fault at each of its calls.
fn failing(
    alloc: Global,
    rows: &[Row],
    status: u8,
    side: Side,
) -> io::Result<Option<&'static str>> {
    let words = words(alloc, "script")?;
    for row in rows {
        let story = told(alloc, row.start, row.lines)?;
        let case = Case {
            words: words.as_slice(),
            input: story.input.as_bytes(),
            status,
            output: story.wanted.as_bytes(),
            fault: if status == 0 { b"" } else { b"refused\n" },
        };
        if !fails_at_each(alloc, &case, side)? {
            return Ok(Some(row.name));
        }
    }
    Ok(None)
}

/// Returns the words of the first pool that reads its input and doesn't end with a fault at each of its calls.
fn failing_pool(alloc: Global, pools: &[PoolRow], side: Side) -> io::Result<Option<&'static str>> {
    for row in pools {
        let words = words(alloc, row.words)?;
        let case = Case {
            words: words.as_slice(),
            input: row.input.as_bytes(),
            status: row.status,
            output: row.output.as_bytes(),
            fault: row.fault.as_bytes(),
        };
        if row.status == 0 && !fails_at_each(alloc, &case, side)? {
            return Ok(Some(row.words));
        }
    }
    Ok(None)
}

/// All rows whose scripts end well.
const ROWS: [&[Row]; 19] = [
    &rows::REQUESTS,
    &rows::WRITING,
    &rows::LIMITS,
    &rows::STRANGERS,
    &queues::FULL_QUEUES,
    &queues::LATE_ANSWERS,
    &leaving::PLACES,
    &leaving::SERVERS,
    &leaving::CLIENTS,
    &pools::POOLS,
    &slices::SLICES,
    &questions::HANDLES,
    &questions::QUEUES,
    &rewriting::ELEMENTS,
    &rewriting::HEADERS,
    &defaults::WRITTEN,
    &defaults::REFUSED,
    &defaults::SLICES,
    &turns::TURNS,
];

/// Returns the name of the first row, of all, that doesn't end with a fault at each of its calls.
fn failing_row(alloc: Global, side: Side) -> io::Result<Option<&'static str>> {
    for rows in ROWS {
        if let Some(name) = failing(alloc, rows, 0, side)? {
            return Ok(Some(name));
        }
    }
    if let Some(name) = failing(alloc, &rows::NO_HUBS, 4, side)? {
        return Ok(Some(name));
    }
    failing_pool(alloc, &least::POOLS, side)
}

#[test]
fn each_read_that_fails_ends_a_row(rt: HostRuntime) -> io::Result<()> {
    assert_eq!(rt; failing_row(rt.alloc(), Side::Reads)?, None);
    Ok(())
}

#[test]
fn each_write_that_fails_ends_a_row(rt: HostRuntime) -> io::Result<()> {
    assert_eq!(rt; failing_row(rt.alloc(), Side::Writes)?, None);
    Ok(())
}
