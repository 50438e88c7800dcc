//! The queues from one port to another.
ghost use Rattle.std.specs.Prelude.{◌≡◌, ◌==◌, ◌<◌, ◌≤◌, ◌↔◌, ◌++◌, ◌∷◌, [], None, All, IfOk, IsTrue, drop, length, replicate, slice_get};
ghost use Rattle.circular_buffer.specs.Buffer.{buffer};

use circular_buffer::HeapCircularBuffer;
use std::alloc::{AllocError, Global};
use std::marker::Model;

/// The queues from one sending port to one receiving port: one for each channel, all of one capacity. An entry is the
/// number of a slot in the sender's pool.
///
/// `new` takes all memory. Other calls take none, and, except for `is_empty`, run in constant time. Not in iceoryx2,
/// which leaves queues to the layers below its ports.
#[derive(Drop)]
pub struct Connection {
    queues: Vec<HeapCircularBuffer<usize>>,
    capacity: usize,
}

impl Model for Connection {
    ghost use Rattle.rr_slots.specs.Connections.{Entries, entries, queues_of, IsSound};

    ghost Value = { Entries };

    ghost view = { λ c. entries (queues_of c.queues.items) c.capacity };

    ghost invariant = { λ c. IsSound c.queues.items c.capacity };
}

impl Connection {
    ghost use Rattle.rr_slots.specs.Connections.{no_entries, queue_of, with_queue, pushed, evicted, is_full, has_entries};

    /// Makes `channels` empty queues, each of capacity `capacity`. `AllocError` if there is no memory for them.
    pub fn new(alloc: Global, channels: usize, capacity: usize) -> Result<Self, AllocError>
        ensures { IfOk result (λ connection. connection ≡ no_entries channels capacity) }
    {
        let queues = empty_queues(alloc, channels, capacity)?;
        Ok(Connection { queues, capacity })
    }

    /// Appends an entry to a channel's queue. Returns the entry that this displaced: the oldest if the queue was
    /// full, or the new one at capacity 0. Returns `None` if there was room.
    #[inline(always)]
    pub fn push(&mut self, channel: usize, entry: usize) -> Option<usize>
        requires { channel < length self.old.queues }
        ensures evicted { result ≡ evicted self.old.capacity (queue_of self.old channel) entry }
        ensures state { self.new ≡ with_queue self.old channel
            (pushed self.old.capacity (queue_of self.old channel) entry) }
    {
        let queue = &mut self.queues[channel];
        if has_no_room(queue) {
            let evicted = queue.push_back(entry);
            return evicted;
        }
        let _ = queue.try_push_back(entry);
        None
    }

    /// Enters an entry at the end of a channel's queue, which has room.
    #[inline(always)]
    pub fn append(&mut self, channel: usize, entry: usize)
        requires channel { channel < length self.old.queues }
        requires room { length (queue_of self.old channel) < self.old.capacity }
        ensures { self.new ≡ with_queue self.old channel (queue_of self.old channel ++ entry ∷ []) }
    {
        let queue = &mut self.queues[channel];
        let _ = queue.try_push_back(entry);
    }

    /// Takes the oldest entry of a channel. `None` where it has none, and nothing changes then.
    #[inline(always)]
    pub fn pop(&mut self, channel: usize) -> Option<usize>
        requires { channel < length self.old.queues }
        ensures first { result ≡ slice_get (queue_of self.old channel) 0 }
        ensures state { self.new ≡ with_queue self.old channel (drop 1 (queue_of self.old channel)) }
        ensures none { result ≡ None → self.new ≡ self.old }
    {
        let queue = &mut self.queues[channel];
        queue.pop_front()
    }

    /// The oldest entry of a channel, which stays. `None` where it has none.
    #[inline(always)]
    pub fn first(&self, channel: usize) -> Option<usize>
        requires { channel < length self.now.queues }
        ensures { result ≡ slice_get (queue_of self.now channel) 0 }
    {
        self.queues[channel].front().copied()
    }

    /// Returns whether a channel's queue is full, so that a push displaces an entry.
    #[inline(always)]
    pub fn is_full(&self, channel: usize) -> bool
        requires { channel < length self.now.queues }
        ensures { result ≡ is_full self.now.capacity (queue_of self.now channel) }
    {
        has_no_room(&self.queues[channel])
    }

    /// Whether a channel has an entry.
    #[inline(always)]
    pub fn has_entries(&self, channel: usize) -> bool
        requires { channel < length self.now.queues }
        ensures { result ≡ has_entries (queue_of self.now channel) }
    {
        !self.queues[channel].is_empty()
    }

    /// How many entries a channel has.
    #[inline(always)]
    pub fn len(&self, channel: usize) -> usize
        requires { channel < length self.now.queues }
        ensures len { result ≡ length (queue_of self.now channel) }
        ensures within { result ≤ self.now.capacity }
    {
        self.queues[channel].len()
    }

    /// Returns whether all queues are empty. Reads each channel once.
    pub fn is_empty(&self) -> bool
        ensures { IsTrue result ↔ All (λ queue. queue ≡ []) self.now.queues }
    {
        are_empty(self.queues.as_slice())
    }

    /// Returns the number of channels.
    pub fn channels(&self) -> usize
        ensures { result ≡ length self.now.queues }
    {
        self.queues.len()
    }

    /// How many entries a channel can have.
    pub fn capacity(&self) -> usize
        ensures capacity { result ≡ self.now.capacity }
        ensures within { All (λ queue. length queue ≤ result) self.now.queues }
    {
        self.capacity
    }
}

/// Returns whether a queue has as many entries as its capacity. Compares as `try_push_back` does, so that the
/// compiler asks once.
#[inline(always)]
fn has_no_room(queue: &HeapCircularBuffer<usize>) -> bool
    ensures { result ≡ (length queue.now.items == queue.now.capacity) }
{
    queue.len() >= queue.capacity()
}

/// Returns whether each of the queues is empty.
fn are_empty(queues: &[HeapCircularBuffer<usize>]) -> bool
    ensures { IsTrue result ↔ All (λ queue. queue.items ≡ []) queues.now }
{
    queues.iter().all(|queue| queue.is_empty())
}

/// Makes `channels` empty queues of one capacity. `AllocError` if there is no memory for them.
fn empty_queues(
    alloc: Global,
    channels: usize,
    capacity: usize,
) -> Result<Vec<HeapCircularBuffer<usize>>, AllocError>
    ensures { IfOk result (λ queues. queues.items ≡ replicate channels (buffer [] capacity)) }
{
    let mut queues = Vec::with_capacity(alloc, channels)?;
    for made in 0..channels {
        // The invariant alone counts.
        let _ = made;
        queues.push(HeapCircularBuffer::with_capacity(alloc, capacity)?)?;
    }
    Ok(queues)
}
