//! Lines that are none, and words that are none.
use super::scripts::{Ended, served};
use rr_script::{Stop, ended};
use std::alloc::{AllocError, Global};

/// Whether a program ended with this status, output and fault.
fn is_end(ended: &Ended, status: u8, output: &str, fault: &str) -> bool {
    ended.status == status
        && ended.output.as_slice() == output.as_bytes()
        && ended.fault.as_slice() == fault.as_bytes()
}

/// A script with a bad line, the output before it, and its fault.
#[derive(Clone, Copy)]
struct BadLine {
    input: &'static str,
    output: &'static str,
    fault: &'static str,
}

const BAD_LINES: [BadLine; 10] = [
    BadLine {
        input: "hub typed 2 1 2 2 2 1 - 1 1\ncopy 0 -1\n",
        output: "done\n",
        fault: "bad line 2\n",
    },
    BadLine {
        input: "hub typed 2 1 2 2 2 1 - 1 1\ncopy 0",
        output: "done\n",
        fault: "bad line 2\n",
    },
    BadLine {
        input: "hub typed 2 1 2 2 2 1 - 1 1\n\n  \ncopy 0 +1",
        output: "done\n",
        fault: "bad line 4\n",
    },
    BadLine {
        input: "hub typed 2 1 2 2 2 1 - 1 1\ncopy 0 18446744073709551616",
        output: "done\n",
        fault: "bad line 2\n",
    },
    BadLine {
        input: "hub typed 2 1 2 2 2 1 - 1 1\nset 0 1",
        output: "done\n",
        fault: "bad line 2\n",
    },
    BadLine {
        input: "hub typed 2 1 2 2 2 1 - 1 1\nhub typed 2 1 2 2 2 1 - 1 1\n",
        output: "done\n",
        fault: "bad line 2\n",
    },
    BadLine {
        input: "copy 0 1\n",
        output: "",
        fault: "bad line 1\n",
    },
    BadLine {
        input: "hub typed 2 1 2 2 2 1 pq 1 1\n",
        output: "",
        fault: "bad line 1\n",
    },
    BadLine {
        input: "hub slices 2 1 2 2 2 1 - 1 1\n",
        output: "",
        fault: "bad line 1\n",
    },
    BadLine {
        input: "hub typed 2 1 2 2 2 1 - 1 1\r\nclient discard 1 static -\r\ndrop -1\r\n",
        output: "done\ncreated 0\n",
        fault: "bad line 3\n",
    },
];

/// Returns the first script that doesn't end at its bad line.
fn unstopped(alloc: Global) -> Result<Option<&'static str>, AllocError> {
    for line in BAD_LINES {
        let ended = served(alloc, "script", line.input.as_bytes())?;
        if !is_end(&ended, 1, line.output, line.fault) {
            return Ok(Some(line.input));
        }
    }
    Ok(None)
}

#[test]
fn a_bad_line_ends_a_script(rt: HostRuntime) {
    assert_eq!(rt; unstopped(rt.alloc()), Ok(None));
}

/// Bytes of an input, and how the program ends.
#[derive(Clone, Copy)]
struct Bytes {
    input: &'static [u8],
    status: u8,
    output: &'static str,
    fault: &'static str,
}

/// No line at all, a last line without a line feed, a lone carriage return, one before the end, and a byte that is
/// not UTF-8.
const ENDINGS: [Bytes; 5] = [
    Bytes {
        input: b"",
        status: 0,
        output: "",
        fault: "",
    },
    Bytes {
        input: b"hub typed 2 1 2 2 2 1 - 1 1\nclient discard 1 static -",
        status: 0,
        output: "done\ncreated 0\n",
        fault: "",
    },
    Bytes {
        input: b"hub typed 2 1 2 2 2 1 - 1 1\n\r\nclient discard 1 static -\ncopy 0\n",
        status: 1,
        output: "done\ncreated 0\n",
        fault: "bad line 4\n",
    },
    Bytes {
        input: b"hub typed 2 1 2 2 2 1 - 1 1\r\nclient discard 1 static -\r",
        status: 0,
        output: "done\ncreated 0\n",
        fault: "",
    },
    Bytes {
        input: b"hub typed 2 1 2 2 2 1 - 1 1\ncopy 0 \xff\n",
        status: 1,
        output: "done\n",
        fault: "bad line 2\n",
    },
];

#[test]
fn lines_end_with_a_line_feed_or_the_input(rt: HostRuntime) -> Result<(), AllocError> {
    for bytes in ENDINGS {
        let ended = served(rt.alloc(), "script", bytes.input)?;
        assert!(rt; is_end(&ended, bytes.status, bytes.output, bytes.fault));
    }
    Ok(())
}

/// Returns a script whose second line creates a client, is padded with spaces to `len` bytes, and ends with `ending`.
fn padded(alloc: Global, len: usize, ending: &str) -> Result<String, AllocError> {
    let mut input = String::from_str(alloc, "hub typed 2 1 2 2 2 1 - 1 1\n")?;
    let line = "client discard 1 static -";
    input.push_str(line)?;
    for _ in line.len()..len {
        input.push(' ')?;
    }
    input.push_str(ending)?;
    Ok(input)
}

#[test]
fn a_line_has_at_most_4096_bytes(rt: HostRuntime) -> Result<(), AllocError> {
    for ending in ["\n", ""] {
        let longest = padded(rt.alloc(), 4096, ending)?;
        let ended = served(rt.alloc(), "script", longest.as_bytes())?;
        assert!(rt; is_end(&ended, 0, "done\ncreated 0\n", ""));
        let longer = padded(rt.alloc(), 4097, ending)?;
        let ended = served(rt.alloc(), "script", longer.as_bytes())?;
        assert!(rt; is_end(&ended, 1, "done\n", "bad line 2\n"));
    }
    Ok(())
}

/// Why a program stops, its status then, and its line.
const STOPS: [(Stop, u8, &str); 7] = [
    (Stop::BadLine(7), 1, "bad line 7\n"),
    (Stop::ReadFault, 2, "read fault\n"),
    (Stop::WriteFault, 2, "write fault\n"),
    (
        Stop::Usage,
        3,
        "usage: rr script or rr threads K or rr least N\n",
    ),
    (Stop::Refused, 4, "refused\n"),
    (Stop::NoMemory, 4, "no memory\n"),
    (Stop::Turns, 4, "turns\n"),
];

#[test]
fn a_stop_has_a_status_and_a_line(rt: HostRuntime) {
    for (stop, status, text) in STOPS {
        let mut fault = Vec::new(rt.alloc());
        assert_eq!(rt; ended(Err(stop), &mut fault), status, "{text}");
        assert!(rt; fault.as_slice() == text.as_bytes(), "{text}");
    }
    let mut fault = Vec::new(rt.alloc());
    assert_eq!(rt; ended(Ok(()), &mut fault), 0);
    assert!(rt; fault.is_empty());
}

#[test]
fn other_words_are_told_the_usage(rt: HostRuntime) -> Result<(), AllocError> {
    let ended = served(rt.alloc(), "play", "".as_bytes())?;
    assert!(rt;
        is_end(
            &ended,
            3,
            "",
            "usage: rr script or rr threads K or rr least N\n"
        )
    );
    Ok(())
}
