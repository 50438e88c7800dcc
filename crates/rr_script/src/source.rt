//! Lines of an input, of bounded length.
use std::alloc::{AllocError, Global};
use std::io::{self, BufRead};

/// How many bytes a line may hold before its line feed.
const MOST: usize = 4096;

/// The result of reading a line.
#[derive(Clone, Copy, Debug, PartialEq, Eq)]
pub(crate) enum Found {
    /// The buffer has a line, without its line feed and one carriage return before it.
    Line,
    /// The line is longer than a line may be.
    TooLong,
    /// Nothing is left.
    End,
}

/// A part of a line, as it was read.
#[derive(Clone, Copy)]
enum Part {
    /// Some of it.
    More,
    /// All of it.
    LineFeed,
    /// More than a line may hold.
    TooLong,
    /// Nothing is left.
    End,
}

/// Reads lines into a buffer that was made once.
#[derive(Drop)]
pub(crate) struct Source<R: BufRead + Drop> {
    input: R,
    buffer: Vec<u8>,
}

impl<R: BufRead + Drop> Source<R> {
    /// Lines of this input. `Err` where there is no memory for one.
    pub(crate) fn new(alloc: Global, input: R) -> Result<Self, AllocError> {
        let buffer = Vec::with_capacity(alloc, MOST)?;
        Ok(Source { input, buffer })
    }

    /// Reads the next line.
    pub(crate) fn read(&mut self) -> io::Result<Found> {
        self.buffer.clear();
        for _ in 0..u64::MAX {
            match self.read_part()? {
                Part::More => {}
                Part::LineFeed => return Ok(self.found()),
                Part::TooLong => return Ok(Found::TooLong),
                Part::End if self.buffer.is_empty() => return Ok(Found::End),
                Part::End => return Ok(self.found()),
            }
        }
        Ok(Found::TooLong)
    }

    /// Reads the input's available bytes, up to a line feed.
    fn read_part(&mut self) -> io::Result<Part> {
        let bytes = self.input.fill_buf()?;
        if bytes.is_empty() {
            return Ok(Part::End);
        }
        let feed = bytes.iter().position(|byte| *byte == b'\n');
        let len = feed.unwrap_or(bytes.len());
        if self.buffer.len() + len > MOST {
            return Ok(Part::TooLong);
        }
        self.buffer.extend_from_slice(&bytes[..len])?;
        match feed {
            Some(_) => {
                self.input.consume(len + 1);
                Ok(Part::LineFeed)
            }
            None => {
                self.input.consume(len);
                Ok(Part::More)
            }
        }
    }

    /// A line, without one carriage return at its end.
    fn found(&mut self) -> Found {
        if self.buffer.last() == Some(&b'\r') {
            self.buffer.pop();
        }
        Found::Line
    }

    /// The line that was read last. `None` if it isn't UTF-8.
    pub(crate) fn text(&self) -> Option<&str> {
        std::str::from_utf8(self.buffer.as_slice()).ok()
    }
}
