//! Bells, by which one thread notifies another that there may be something to receive.
use crossbeam_utils::CachePadded;
use std::hint::spin_loop;
use std::sync::atomic::{AtomicU64, Ordering};
use std::thread::yield_now;

/// How often a bell is read before the thread yields its processor.
const READINGS: u64 = 1024;

/// A counter that one thread increments and another polls. Nothing is proved of its value.
///
/// It has cache lines of its own, so a polling thread doesn't take a line from a working one.
///
/// # Examples
///
/// Rings a bell, and returns whether who waits at it hears it (`rr_test_runs::tests::hubs::examples`):
///
/// ```
/// use rr_locked::Bell;
///
/// fn is_heard(bell: &Bell) -> bool {
///     let rings = bell.rings();
///     bell.ring();
///     bell.wait(rings, 1).is_some()
/// }
/// ```
#[derive(Drop)]
pub struct Bell {
    rings: CachePadded<AtomicU64>,
}

impl Bell {
    /// Makes a bell that has not rung.
    pub fn new() -> Self {
        Bell {
            rings: CachePadded::new(AtomicU64::new(0)),
        }
    }

    /// Rings once more.
    pub fn ring(&self) {
        self.rings.fetch_add(1, Ordering::SeqCst);
    }

    /// Returns how many times the bell has rung.
    pub fn rings(&self) -> u64 {
        self.rings.load(Ordering::SeqCst)
    }

    /// Polls the bell until its count differs from `rings`, at most `readings` times. Returns how many readings are
    /// left, or `None` if it has not rung.
    pub fn wait(&self, rings: u64, readings: u64) -> Option<u64> {
        for reading in 0..readings {
            if self.rings() != rings {
                return Some(readings - reading - 1);
            }
            if reading % READINGS == READINGS - 1 {
                yield_now();
            } else {
                spin_loop();
            }
        }
        None
    }
}

/// A client's and a server's bell.
///
/// # Examples
///
/// Sends a number, and returns the number that came as a response (`rr_test_runs::tests::hubs::examples`):
///
/// ```
/// use rr_locked::{Bells, Seat, Submit, WorkerError, send_copy, take_response};
/// use std::sync::Wait;
/// use std::sync::ledger::Ledger;
///
/// fn ask<L: Ledger, S: Submit<L>, R: Wait>(
///     rt: &R,
///     hub: &S,
///     seat: &mut Seat<L>,
///     bells: &Bells,
///     client: u64,
/// ) -> Result<u64, WorkerError> {
///     let pending = send_copy(rt, hub, seat, client, 41)?;
///     bells.server.ring();
///     take_response(rt, hub, seat, &bells.client, pending, 1000)
/// }
/// ```
#[derive(Drop)]
pub struct Bells {
    /// Rings after a response was sent.
    pub client: Bell,
    /// Rings after a request was sent.
    pub server: Bell,
}

impl Bells {
    /// Makes two bells that have not rung.
    pub fn new() -> Self {
        Bells {
            client: Bell::new(),
            server: Bell::new(),
        }
    }
}
