//! The queues to each receiver.
ghost use Rattle.std.specs.Prelude.{◌≡◌, ◌==◌, ◌+◌, ◌-◌, ◌<◌, ◌≤◌, ◌^◌, ◌↔◌, ◌++◌, ◌∷◌, [], All, IfSome, IsTrue, Some, drop, length, nat_lt, slice_get, slice_index, slice_index_or};
ghost use Rattle.std.specs.List.{list_any};
ghost use Rattle.rr_sender.specs.Draining.{MessagesDrained};
ghost use Rattle.rr_sender.specs.Senders.{borrowed_at, first_dropped, handed_over, is_full, put_into, queue_at, queue_cleared, taken, uses, with_borrowed, with_held, with_queue};

use crate::sender::Sender;
use rr_slots::Body;

impl<B: Body, N: Copy, H: Drop> Sender<B, N, H> {
    /// Enters a slot that a handle holds at the end of a queue, of which the capacity is not zero. A full queue gives
    /// up its oldest entry with `overflow`, and stays as it is without.
    ///
    /// The new entry holds the slot, and a displaced entry gives up its hold; the elements of a slot are dropped with
    /// its last use. After iceoryx2's safe overflow.
    #[inline(always)]
    pub fn put(&mut self, receiver: usize, channel: usize, slot: usize, overflow: bool)
        requires receiver { receiver < length self.old.queues }
        requires channel { channel < length (slice_index_or self.old.queues receiver []) }
        requires capacity { 0 < self.old.capacity }
        requires held { 0 < slice_index self.old.held slot }
        requires fits { uses self.old slot + 1 < 2 ^ 64 }
        ensures { self.new ≡ put_into overflow self.old receiver channel slot }
    {
        if !self.is_full(receiver, channel) {
            self.enter(receiver, channel, slot);
        } else if overflow {
            self.drop_first(receiver, channel);
            self.enter(receiver, channel, slot);
        }
    }

    /// Enters a slot that a handle holds at the end of a queue that is not full.
    #[inline(always)]
    fn enter(&mut self, receiver: usize, channel: usize, slot: usize)
        requires receiver { receiver < length self.old.queues }
        requires channel { channel < length (slice_index_or self.old.queues receiver []) }
        requires room { length (queue_at self.old receiver channel) < self.old.capacity }
        requires held { 0 < slice_index self.old.held slot }
        requires fits { uses self.old slot + 1 < 2 ^ 64 }
        ensures { self.new ≡ with_queue self.old receiver channel (queue_at self.old receiver channel ++ slot ∷ []) }
    {
        self.links.push(receiver, channel, slot);
        self.pool.hold(slot);
    }

    /// Turns a handle's hold on a slot into the hold of an entry at the end of a queue, whose capacity is not zero.
    /// With `overflow` a full queue drops its oldest entry; without, it stays as it is, and the hold is given back.
    /// The elements of a slot are dropped with its last use.
    ///
    /// Has the effect of `put` followed by `give_back`, and writes the slot's holders only if the hold is given back.
    #[inline(always)]
    pub fn hand_over(&mut self, receiver: usize, channel: usize, slot: usize, overflow: bool)
        requires receiver { receiver < length self.old.queues }
        requires channel { channel < length (slice_index_or self.old.queues receiver []) }
        requires capacity { 0 < self.old.capacity }
        requires held { 0 < slice_index self.old.held slot }
        ensures { self.new ≡ handed_over overflow self.old receiver channel slot }
    {
        if self.is_full(receiver, channel) {
            if overflow {
                self.drop_first(receiver, channel);
                self.append(receiver, channel, slot);
            } else {
                self.give_back(slot);
            }
        } else {
            self.append(receiver, channel, slot);
        }
    }

    /// Turns a handle's hold on a slot into the hold of an entry at the end of a queue that is not full.
    #[inline(always)]
    fn append(&mut self, receiver: usize, channel: usize, slot: usize)
        requires receiver { receiver < length self.old.queues }
        requires channel { channel < length (slice_index_or self.old.queues receiver []) }
        requires room { length (queue_at self.old receiver channel) < self.old.capacity }
        requires held { 0 < slice_index self.old.held slot }
        ensures { self.new ≡ with_held (with_queue self.old receiver channel
            (queue_at self.old receiver channel ++ slot ∷ [])) slot (slice_index self.old.held slot - 1) }
    {
        self.links.push(receiver, channel, slot);
    }

    /// The slot of a queue's oldest entry, which stays. `None` where it has none.
    #[inline(always)]
    pub fn first(&self, receiver: usize, channel: usize) -> Option<usize>
        requires receiver { receiver < length self.now.queues }
        requires channel { channel < length (slice_index_or self.now.queues receiver []) }
        ensures first { result ≡ slice_get (queue_at self.now receiver channel) 0 }
        ensures within { IfSome result (λ slot. slot < length self.now.held) }
    {
        self.links.first(receiver, channel)
    }

    /// Takes the oldest entry of a queue that has one, and returns its slot.
    ///
    /// Turns the entry's hold on the slot into a handle's, and increments the receiver's borrows from this channel.
    #[inline(always)]
    pub fn take(&mut self, receiver: usize, channel: usize) -> usize
        requires receiver { receiver < length self.old.queues }
        requires channel { channel < length (slice_index_or self.old.queues receiver []) }
        requires entry { 0 < length (queue_at self.old receiver channel) }
        requires fits { borrowed_at self.old receiver channel + 1 < 2 ^ 64 }
        ensures first { slice_get (queue_at self.old receiver channel) 0 ≡ Some result }
        ensures within { result < length self.old.held }
        ensures state { self.new ≡ taken self.old receiver channel result
            (drop 1 (queue_at self.old receiver channel)) }
    {
        self.links.take(receiver, channel)
    }

    /// Drops the oldest entry of a queue and its hold on the slot; if that was the last use, the elements of the slot
    /// are dropped. Does nothing if the queue is empty.
    #[inline(always)]
    pub fn drop_first(&mut self, receiver: usize, channel: usize)
        requires receiver { receiver < length self.old.queues }
        requires channel { channel < length (slice_index_or self.old.queues receiver []) }
        ensures { self.new ≡ first_dropped self.old receiver channel }
    {
        match self.links.pop(receiver, channel) {
            Some(slot) => self.pool.give_back(slot),
            None => {}
        }
    }

    /// Drops every entry of a queue and its hold on the slot, in one step per entry. The elements of a slot are
    /// dropped with its last use.
    #[inline(always)]
    pub fn clear_queue(&mut self, receiver: usize, channel: usize)
        requires receiver { receiver < length self.old.queues }
        requires channel { channel < length (slice_index_or self.old.queues receiver []) }
        ensures { self.new ≡ queue_cleared self.old receiver channel }
    {
        let count = self.len(receiver, channel);
        for _ in 0..count {
            self.drop_first(receiver, channel);
        }
    }

    /// Drops every entry of every queue to a receiver and its hold on the slot, in one step per channel and per
    /// entry. The elements of a slot are dropped with its last use.
    pub fn clear_receiver(&mut self, receiver: usize)
        requires { receiver < length self.old.queues }
        ensures { MessagesDrained (λ r. r == receiver) self.old self.new }
    {
        for channel in 0..self.channels(receiver) {
            self.clear_queue(receiver, channel);
        }
    }

    /// How many channels a receiver has.
    #[inline(always)]
    fn channels(&self, receiver: usize) -> usize
        requires { receiver < length self.now.queues }
        ensures { result ≡ length (slice_index_or self.now.queues receiver []) }
    {
        self.links.channels(receiver)
    }

    /// How many entries a queue has.
    #[inline(always)]
    fn len(&self, receiver: usize, channel: usize) -> usize
        requires receiver { receiver < length self.now.queues }
        requires channel { channel < length (slice_index_or self.now.queues receiver []) }
        ensures { result ≡ length (queue_at self.now receiver channel) }
    {
        self.links.len(receiver, channel)
    }

    /// Whether a queue has as many entries as its capacity.
    #[inline(always)]
    pub fn is_full(&self, receiver: usize, channel: usize) -> bool
        requires receiver { receiver < length self.now.queues }
        requires channel { channel < length (slice_index_or self.now.queues receiver []) }
        ensures full { result ≡ is_full self.now.capacity (queue_at self.now receiver channel) }
        ensures within { All (λ channels. All (λ queue. length queue ≤ self.now.capacity) channels) self.now.queues }
    {
        self.links.is_full(receiver, channel)
    }

    /// Whether a queue has an entry.
    #[inline(always)]
    pub fn has_entries(&self, receiver: usize, channel: usize) -> bool
        requires receiver { receiver < length self.now.queues }
        requires channel { channel < length (slice_index_or self.now.queues receiver []) }
        ensures { IsTrue result ↔ (0 < length (queue_at self.now receiver channel)) }
    {
        self.links.len(receiver, channel) > 0
    }

    /// Returns whether some queue to a receiver has an entry. Reads the channels in order up to the first entry.
    #[inline(always)]
    pub fn has_any(&self, receiver: usize) -> bool
        requires { receiver < length self.now.queues }
        ensures { ¬ IsTrue result ↔ All (λ queue. queue ≡ []) (slice_index_or self.now.queues receiver []) }
    {
        !self.links.is_empty(receiver)
    }

    /// How many messages a receiver took from a channel and has not given back.
    #[inline(always)]
    pub fn borrowed(&self, receiver: usize, channel: usize) -> usize
        requires receiver { receiver < length self.now.queues }
        requires channel { channel < length (slice_index_or self.now.queues receiver []) }
        ensures { result ≡ borrowed_at self.now receiver channel }
    {
        self.links.borrowed(receiver, channel)
    }

    /// Returns whether a receiver has a message that it has not given back. Reads each channel once.
    pub fn has_borrowed(&self, receiver: usize) -> bool
        requires { receiver < length self.now.borrowed }
        ensures { result ≡ list_any (λ n. nat_lt 0 n) (slice_index_or self.now.borrowed receiver []) }
    {
        self.links.has_borrowed(receiver)
    }

    /// Decrements a receiver's borrows from a channel. `give_back` gives back its handle on the slot.
    #[inline(always)]
    pub fn end_borrow(&mut self, receiver: usize, channel: usize)
        requires receiver { receiver < length self.old.queues }
        requires channel { channel < length (slice_index_or self.old.queues receiver []) }
        requires borrowed { 0 < borrowed_at self.old receiver channel }
        ensures { self.new ≡ with_borrowed self.old receiver channel (borrowed_at self.old receiver channel - 1) }
    {
        self.links.end_borrow(receiver, channel);
    }
}
