//! Deadlines of waits.
use std::time::{Clock, Duration, Instant};

/// The longest sleep between two polls, in seconds.
const NAP: u64 = 3600;

/// A bound on the duration of a wait.
pub(crate) trait Deadline<R> {
    /// Returns how long the thread may sleep now, or `None` if the time is over.
    fn nap(&self, rt: &R) -> Option<Duration>;
}

/// No deadline: the wait goes on until something arrives or the hub is closed.
#[derive(Drop)]
pub(crate) struct Never;

impl<R> Deadline<R> for Never {
    fn nap(&self, _rt: &R) -> Option<Duration> {
        Some(Duration::from_secs(NAP))
    }
}

/// A deadline `most` after `start`; a clock that can't be read counts as expired.
#[derive(Drop)]
pub(crate) struct Timeout {
    start: Option<Instant>,
    most: Duration,
}

impl Timeout {
    /// Returns the deadline `most` from now.
    pub(crate) fn after<R: Clock>(rt: &R, most: Duration) -> Timeout {
        Timeout {
            start: Instant::now(rt).ok(),
            most,
        }
    }
}

impl<R: Clock> Deadline<R> for Timeout {
    fn nap(&self, rt: &R) -> Option<Duration> {
        let elapsed = Instant::now(rt).ok()?.duration_since(self.start?);
        self.most
            .checked_sub(elapsed)
            .filter(|left| *left != Duration::ZERO)
    }
}
