//! Waits: which change of a hub may end which wait, and how a thread sleeps and is woken.
ghost use Rattle.std.specs.Prelude.{IfErr};
ghost use Rattle.rr_shared_ports.specs.Words.{IsOver};

use crate::WaitError;
use crate::deadline::Deadline;
use std::fmt::Display;
use std::hint::spin_loop;
use std::sync::atomic::{AtomicBool, AtomicU64, Ordering};
use std::sync::{Condvar, Wait};
use std::time::Duration;

/// How often a sole waiter polls before it sleeps.
const LOOKS: u64 = 256;

/// A change that a call may have made. Every call of a hub names its changes; `Waking::wake` says which waits each
/// change may end.
#[derive(Clone, Copy)]
pub(crate) enum Change {
    /// A request was queued for a server.
    RequestQueued,
    /// A response was queued for a pending response.
    ResponseQueued,
    /// An entry was taken out of a queue.
    EntryTaken,
    /// A pending response ended, and with it the queues of its responses. A client leaves after its pending
    /// responses, so its release ends no further wait.
    PendingResponseEnded,
    /// An active request ended: its server no longer answers it.
    ActiveRequestEnded,
    /// A server, or a handle of it, ended. If it was the last one, the server left: its queues are removed, and it no
    /// longer answers.
    ServerLeft,
}

/// The threads that wait: servers for requests, pending responses for responses, and senders for room in a queue. No
/// contract says that they are woken.
#[derive(Drop)]
pub(crate) struct Waking {
    pub(crate) requests: Sleepers,
    pub(crate) responses: Sleepers,
    pub(crate) room: Sleepers,
    is_closed: AtomicBool,
}

impl Waking {
    /// Makes the state of an open hub without waiters.
    pub(crate) fn new() -> Waking {
        Waking {
            requests: Sleepers::new(),
            responses: Sleepers::new(),
            room: Sleepers::new(),
            is_closed: AtomicBool::new(false),
        }
    }

    /// Wakes the threads whose waits these changes may end. A server waits until a request is queued; a pending
    /// response until a response is queued or no server may answer; a sender until the queue has room or its receiver
    /// has left.
    pub(crate) fn wake(&self, changes: &[Change]) {
        for change in changes {
            match change {
                Change::RequestQueued => self.requests.wake(),
                Change::ResponseQueued | Change::ActiveRequestEnded => self.responses.wake(),
                Change::EntryTaken | Change::PendingResponseEnded => self.room.wake(),
                Change::ServerLeft => {
                    self.room.wake();
                    self.responses.wake();
                }
            }
        }
    }

    /// Marks the hub as closed, and wakes all waiters.
    pub(crate) fn close(&self) {
        self.is_closed.store(true, Ordering::SeqCst);
        self.requests.wake();
        self.responses.wake();
        self.room.wake();
    }

    /// Returns how long a wait may sleep before its next poll.
    ///
    /// # Errors
    ///
    /// - `Closed` if the hub was closed.
    /// - `TimedOut` if the wait is over.
    pub(crate) fn pause<R, D: Deadline<R>, E: Display>(
        &self,
        rt: &R,
        deadline: &D,
    ) -> Result<Duration, WaitError<E>>
        ensures { IfErr result IsOver }
    {
        if self.is_closed.load(Ordering::SeqCst) {
            return Err(WaitError::Closed);
        }
        match deadline.nap(rt) {
            Some(nap) => Ok(nap),
            None => Err(WaitError::TimedOut),
        }
    }
}

/// The threads that wait for one kind of change.
///
/// A waiter registers before it checks the queue under the lock; a notifier checks for waiters after it has changed
/// the queue. So at least one of them sees the other. A sleeper sets `is_asleep` before it reads `turns` again; a
/// notifier advances `turns` before it clears `is_asleep`. A sleeper reads the notification count before it sets
/// `is_asleep`, and whoever clears `is_asleep` then notifies. So no wake-up is lost, and a thread that was notified
/// but has not run yet is not notified twice.
#[derive(Drop)]
pub(crate) struct Sleepers {
    inside: AtomicU64,
    turns: AtomicU64,
    is_asleep: AtomicBool,
    queued: Condvar,
}

impl Sleepers {
    fn new() -> Sleepers {
        Sleepers {
            inside: AtomicU64::new(0),
            turns: AtomicU64::new(0),
            is_asleep: AtomicBool::new(false),
            queued: Condvar::new(),
        }
    }

    /// Registers a waiter until the returned `Waiter` is dropped.
    pub(crate) fn enter(&self) -> Waiter<'_> {
        self.inside.fetch_add(1, Ordering::SeqCst);
        Waiter { among: self }
    }

    /// Returns the wake-up count of the waiters.
    pub(crate) fn turns(&self) -> u64 {
        self.turns.load(Ordering::SeqCst)
    }

    /// Wakes all waiters.
    fn wake(&self) {
        if self.inside.load(Ordering::SeqCst) == 0 {
            return;
        }
        self.turns.fetch_add(1, Ordering::SeqCst);
        if self.is_asleep.swap(false, Ordering::SeqCst) {
            self.queued.notify_all();
        }
    }

    /// Sleeps until `turns` changes or `most` has passed. A sole waiter polls a few times first; several polling
    /// waiters would starve the threads that they wait for.
    pub(crate) fn wait(&self, rt: &impl Wait, turns: u64, most: Duration) {
        if self.were_woken(turns) {
            return;
        }
        let notifications = self.queued.notifications();
        self.is_asleep.store(true, Ordering::SeqCst);
        if self.turns() == turns {
            self.queued.sleep(rt, notifications, most);
        }
    }

    /// Polls a few times whether `turns` has changed, if this is the sole waiter.
    pub(crate) fn were_woken(&self, turns: u64) -> bool {
        if self.inside.load(Ordering::SeqCst) != 1 {
            return false;
        }
        for _ in 0..LOOKS {
            if self.turns() != turns {
                return true;
            }
            spin_loop();
        }
        false
    }
}

/// One of the threads that wait.
pub(crate) struct Waiter<'a> {
    among: &'a Sleepers,
}

impl<'a> Drop for Waiter<'a> {
    fn drop(self) {
        let Self { among } = self;
        among.inside.fetch_sub(1, Ordering::SeqCst);
    }
}
