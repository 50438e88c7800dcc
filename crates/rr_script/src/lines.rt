//! The lines of a script that have words, and which line is at fault.
use crate::line::{Line, line_of};
use crate::source::{Found, Source};
use crate::stop::Stop;
use crate::words::Words;
use std::alloc::Global;
use std::io::BufRead;

/// Reads the lines of a script, and counts them.
#[derive(Drop)]
pub(crate) struct Lines<R: BufRead + Drop> {
    source: Source<R>,
    number: u64,
}

impl<R: BufRead + Drop> Lines<R> {
    /// The lines of this input.
    pub(crate) fn new(alloc: Global, input: R) -> Result<Self, Stop> {
        match Source::new(alloc, input) {
            Ok(source) => Ok(Lines { source, number: 0 }),
            Err(_) => Err(Stop::NoMemory),
        }
    }

    /// Returns that the line that was read last isn't one of the script's.
    pub(crate) fn bad_line(&self) -> Stop {
        Stop::BadLine(self.number)
    }

    /// Returns that a line is missing after the last one.
    pub(crate) fn missing_line(&self) -> Stop {
        Stop::BadLine(self.number.saturating_add(1))
    }

    /// Parses the next line that has words. Returns `None` if no such line is left.
    pub(crate) fn read(&mut self) -> Result<Option<Line>, Stop> {
        for _ in 0..u64::MAX {
            if !self.advance()? {
                return Ok(None);
            }
            let Some(text) = self.source.text() else {
                return Err(self.bad_line());
            };
            let mut words = Words::new(text);
            if let Some(first) = words.take() {
                return match line_of(first, &mut words) {
                    Some(line) => Ok(Some(line)),
                    None => Err(self.bad_line()),
                };
            }
        }
        Err(Stop::ReadFault)
    }

    /// Reads one line, and returns whether there was one.
    fn advance(&mut self) -> Result<bool, Stop> {
        match self.source.read() {
            Ok(Found::Line) => {
                self.number = self.number.saturating_add(1);
                Ok(true)
            }
            Ok(Found::TooLong) => {
                self.number = self.number.saturating_add(1);
                Err(self.bad_line())
            }
            Ok(Found::End) => Ok(false),
            Err(_) => Err(Stop::ReadFault),
        }
    }
}
