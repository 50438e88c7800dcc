//! Why a program ends before its input does.
use std::io::{self, Write};

/// Why a program ended early.
#[derive(Clone, Copy, Debug, PartialEq, Eq)]
pub enum Stop {
    /// This line, counted from 1, isn't one of the script's.
    BadLine(u64),
    /// A read failed.
    ReadFault,
    /// A write failed.
    WriteFault,
    /// The program's arguments are invalid.
    Usage,
    /// The hub was refused.
    Refused,
    /// There was no memory for a buffer of the program, or for a command of its workers.
    NoMemory,
    /// A worker gave up after its limit of turns.
    Turns,
}

impl Stop {
    /// The program's status.
    pub fn status(self) -> u8 {
        match self {
            Stop::BadLine(_) => 1,
            Stop::ReadFault | Stop::WriteFault => 2,
            Stop::Usage => 3,
            Stop::Refused | Stop::NoMemory | Stop::Turns => 4,
        }
    }

    /// Writes it in one line. A write error is returned, and reported nowhere else.
    pub fn tell<W: Write>(self, faults: &mut W) -> io::Result<()> {
        match self {
            Stop::BadLine(number) => writeln!(faults, "{} {number}", self.text()),
            stop => writeln!(faults, "{}", stop.text()),
        }
    }

    /// Returns its text, without a line's number.
    fn text(self) -> &'static str {
        match self {
            Stop::BadLine(_) => "bad line",
            Stop::ReadFault => "read fault",
            Stop::WriteFault => "write fault",
            Stop::Usage => "usage: rr script or rr threads K or rr least N",
            Stop::Refused => "refused",
            Stop::NoMemory => "no memory",
            Stop::Turns => "turns",
        }
    }
}
