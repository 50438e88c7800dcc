//! Changes of a side when a port leaves.
ghost use Rattle.std.specs.Prelude.{◌≡◌, ℕ, ◌+◌, ◌≤◌, ◌==◌, ◌&&◌, ◌<◌, IsSomeAnd, OnOk, Some, length, slice_get, slice_index_or, slice_set, [], map, take, None, true};
ghost use Rattle.std.specs.List.{list_any};
ghost use Rattle.rr_store.specs.Creating.{idle_left, is_idle};
ghost use Rattle.rr_store.specs.Draining.{AreApart, AreThere, HaveQueues, SendersDrained};
ghost use Rattle.rr_store.specs.Leaving.{is_borrowing, is_of, outdated, valueless, has_queued, queued_left};
ghost use Rattle.rr_store.specs.Loaning.{with_sender_at};
ghost use Rattle.rr_store.specs.Sides.{without_port};
ghost use Rattle.rr_store.specs.Views.{sender_of};
ghost use Rattle.rr_store.specs.Ports.{sender_part};

use crate::side::Side;
use crate::{ConnectedPort, LeftPort, OwnedSender};
use rr_slots::Body;
use std::alloc::AllocError;

impl<B: Body, N: Copy, H: Drop, P: Drop> Side<B, N, H, P> {
    /// Reserves room for one more port that left, so that it can leave without memory. Returns `AllocError` if memory
    /// was refused; the room is unchanged then.
    pub fn reserve_left(&mut self) -> Result<(), AllocError>
        ensures rest { self.new ≡ record self.old { room = self.new.room } }
        ensures more { self.old.room ≤ self.new.room }
        ensures room { OnOk result (length self.old.ports + 1 + length self.old.left ≤ self.new.room) }
    {
        self.left.reserve(self.ports.len() + 1)
    }

    /// Returns the index of the first port that left whose sender nothing uses. Reads each at most once.
    pub fn idle_left(&self) -> Option<usize>
        requires { AreThere self.now.senders self.now.left }
        ensures { result ≡ idle_left self.now.senders self.now.left }
    {
        for (index, port) in self.left.iter().enumerate() {
            let messages = &self.senders[port.sender].messages;
            if messages.free_slots() == messages.slots() {
                return Some(index);
            }
        }
        None
    }

    /// Removes the port at `index` from the connected ones, and appends it to those that left.
    #[cold]
    pub fn remove_port(&mut self, index: usize, leaving: LeftPort)
        requires index { index < length self.old.ports }
        requires room { length self.old.left < self.old.room }
        ensures { self.new ≡ without_port self.old index leaving }
    {
        self.ports.remove(index);
        self.left.push_reserved(leaving);
    }

    /// Returns whether a receiver borrows a message from any sender. Reads each sender and channel at most once.
    #[cold]
    pub fn is_borrowing(&self, receiver: usize) -> bool
        requires { (l : ℕ) → l < length self.now.senders
            → receiver < length (sender_of l self.now.senders).messages.borrowed }
        ensures { result ≡ is_borrowing self.now.senders receiver }
    {
        for sender in &self.senders {
            if sender.messages.has_borrowed(receiver) {
                return true;
            }
        }
        false
    }

    /// Drops the entries for a receiver, in steps proportional to channels and entries. Reads the marked senders
    /// only.
    #[cold]
    pub fn clear_for(&mut self, receiver: usize)
        requires { HaveQueues self.old.senders receiver }
        ensures rest { self.new ≡ record self.old { senders = self.new.senders } }
        ensures drained { SendersDrained (λ l r. r == receiver) self.old.senders self.new.senders }
    {
        for channel in 0..self.channels() {
            self.clear_channel(receiver, channel);
        }
    }

    /// Returns on how many channels each sender has queues to each receiver.
    fn channels(&self) -> usize
        ensures { (l r : ℕ) → l < length self.now.senders → r < length (sender_of l self.now.senders).messages.queues
            → length (slice_index_or (sender_of l self.now.senders).messages.queues r []) ≡ result }
    {
        self.waiting.channels
    }

    /// Drops, for each of these receivers, the entries from the oldest ports that left, as many as exceed the room
    /// when one more leaves.
    #[cold]
    pub fn expire<R: ConnectedPort>(&mut self, receivers: &[R], leaving: LeftPort, room: usize)
        requires queues { (i : ℕ) (p : R) → slice_get receivers.now i ≡ Some p
            → HaveQueues self.old.senders (R.receiver p) }
        requires ports { AreApart R.receiver receivers.now }
        requires left { AreThere self.old.senders self.old.left }
        requires leaving { leaving.sender < length self.old.senders }
        requires apart { AreApart (λ l. l.sender) self.old.left }
        ensures rest { self.new ≡ record self.old { senders = self.new.senders } }
        ensures drained { SendersDrained (λ l r. list_any (λ p. R.receiver p == r) receivers.now && is_of
            (outdated self.old.senders self.old.left room leaving r) l) self.old.senders self.new.senders }
    {
        let senders = &mut self.senders;
        let left = self.left.as_slice();
        for port in receivers {
            let receiver = port.details().receiver;
            expire(senders, left, leaving, receiver, room);
        }
    }
}

impl<B: Body, N: Copy, H: Drop, P: ConnectedPort> Side<B, N, H, P> {
    /// Records that the value of the port at `index` was released.
    #[cold]
    pub fn end_value(&mut self, index: usize)
        requires index { index < length self.old.ports }
        requires sender { IsSomeAnd (slice_get self.old.ports index) (λ p. P.sender p < length self.old.senders) }
        ensures { IsSomeAnd (slice_get self.old.ports index)
            (λ p. self.new ≡ record self.old {
              ports = slice_set self.old.ports index (P.valueless p);
              senders = with_sender_at self.old.senders (P.sender p) valueless;
            }) }
    {
        let port = &mut self.ports[index];
        let sender = port.details().sender;
        port.end_value();
        self.senders[sender].has_value = false;
    }
}

/// Returns whether a sender has an entry for a receiver. Reads the channels in order up to the first entry.
#[inline(always)]
fn has_queued<B: Body, N: Copy, H: Drop>(
    senders: &[OwnedSender<B, N, H>],
    sender: usize,
    receiver: usize,
) -> bool
    requires sender { sender < length senders.now }
    requires queues { receiver < length (sender_of sender (map sender_part senders.now)).messages.queues }
    ensures { result ≡ has_queued (sender_of sender (map sender_part senders.now)) receiver }
{
    senders[sender].messages.has_any(receiver)
}

/// Drops a sender's entries for a receiver, in steps proportional to channels and entries.
fn clear_for<B: Body, N: Copy, H: Drop>(
    senders: &mut Vec<OwnedSender<B, N, H>>,
    sender: usize,
    receiver: usize,
)
    requires sender { sender < length senders.old.items }
    requires queues { receiver < length (sender_of sender (map sender_part senders.old.items)).messages.queues }
    ensures { SendersDrained (λ l r. l == sender && r == receiver) (map sender_part senders.old.items)
        (map sender_part senders.new.items) }
{
    senders[sender].messages.clear_receiver(receiver);
}

/// Returns how many of the ports that left have an entry for a receiver.
fn count_queued<B: Body, N: Copy, H: Drop>(
    senders: &[OwnedSender<B, N, H>],
    left: &[LeftPort],
    receiver: usize,
) -> usize
    requires queues { HaveQueues (map sender_part senders.now) receiver }
    requires left { AreThere (map sender_part senders.now) left.now }
    ensures { result ≡ length (queued_left (map sender_part senders.now) left.now receiver) }
{
    let mut count = 0;
    for port in left {
        if has_queued(senders, port.sender, receiver) {
            count += 1;
        }
    }
    count
}

/// Drops a receiver's entries from the `excess` oldest ports that left, of those that have an entry for it.
fn expire_oldest<B: Body, N: Copy, H: Drop>(
    senders: &mut Vec<OwnedSender<B, N, H>>,
    left: &[LeftPort],
    receiver: usize,
    excess: usize,
)
    requires queues { HaveQueues (map sender_part senders.old.items) receiver }
    requires left { AreThere (map sender_part senders.old.items) left.now }
    requires apart { AreApart (λ l. l.sender) left.now }
    ensures { SendersDrained (λ l r. r == receiver && is_of
        (take excess (queued_left (map sender_part senders.old.items) left.now receiver)) l)
        (map sender_part senders.old.items) (map sender_part senders.new.items) }
{
    let mut remaining = excess;
    for port in left {
        if remaining > 0 && has_queued(senders.as_slice(), port.sender, receiver) {
            clear_for(senders, port.sender, receiver);
            remaining -= 1;
        }
    }
}

/// Drops a receiver's entries from the oldest ports that left, as many as exceed the room when one more leaves.
fn expire<B: Body, N: Copy, H: Drop>(
    senders: &mut Vec<OwnedSender<B, N, H>>,
    left: &[LeftPort],
    leaving: LeftPort,
    receiver: usize,
    room: usize,
)
    requires queues { HaveQueues (map sender_part senders.old.items) receiver }
    requires left { AreThere (map sender_part senders.old.items) left.now }
    requires leaving { leaving.sender < length (map sender_part senders.old.items) }
    requires apart { AreApart (λ l. l.sender) left.now }
    ensures { SendersDrained (λ l r. r == receiver && is_of
        (outdated (map sender_part senders.old.items) left.now room leaving receiver) l)
        (map sender_part senders.old.items) (map sender_part senders.new.items) }
{
    if has_queued(senders.as_slice(), leaving.sender, receiver) {
        let queued = count_queued(senders.as_slice(), left, receiver);
        let excess = queued.saturating_sub(room.saturating_sub(1));
        expire_oldest(senders, left, receiver, excess);
        if room == 0 {
            clear_for(senders, leaving.sender, receiver);
        }
    }
}
