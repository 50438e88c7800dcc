//! The words of a line.

/// The words of a line, separated by one or more spaces.
#[derive(Drop)]
pub(crate) struct Words<'a> {
    rest: &'a str,
}

impl<'a> Words<'a> {
    /// The words of this line.
    pub(crate) fn new(line: &'a str) -> Self {
        Words { rest: line }
    }

    /// The next word, if there is one.
    pub(crate) fn take(&mut self) -> Option<&'a str> {
        let text = self.rest.trim_start_matches(' ');
        if text.is_empty() {
            self.rest = text;
            return None;
        }
        match text.split_once(' ') {
            Some((word, rest)) => {
                self.rest = rest;
                Some(word)
            }
            None => {
                self.rest = "";
                Some(text)
            }
        }
    }

    /// The next word as a number: decimal digits, at most 2^64 - 1.
    pub(crate) fn number(&mut self) -> Option<u64> {
        number(self.take()?)
    }

    /// The next word as a count of things.
    pub(crate) fn count(&mut self) -> Option<usize> {
        usize::try_from(self.number()?).ok()
    }

    /// Returns the next `N` words as counts.
    pub(crate) fn counts<const N: usize>(&mut self) -> Option<[usize; N]> {
        let mut counts = [0; N];
        for index in 0..N {
            counts[index] = self.count()?;
        }
        Some(counts)
    }

    /// Takes a word, and returns whether none was left.
    pub(crate) fn is_done(&mut self) -> bool {
        self.take().is_none()
    }
}

/// Parses a word of decimal digits. Returns `None` for any other word, or if the number is above 2^64 - 1.
pub(crate) fn number(word: &str) -> Option<u64> {
    if word.bytes().all(|byte| byte.is_ascii_digit()) {
        word.parse::<u64>().ok()
    } else {
        None
    }
}
