//! The links from one port to its receivers: the queues, and the receivers' borrows.
ghost use Rattle.std.specs.Prelude.{◌≡◌, ℕ, ◌+◌, ◌-◌, ◌<◌, ◌≤◌, ◌^◌, ◌↔◌, ◌++◌, ◌∷◌, [], All, IfOk, IsTrue, Some, drop, length, nat_lt, replicate, slice_get, slice_index_or};
ghost use Rattle.std.specs.List.{list_any};
ghost use Rattle.rr_sender.specs.Senders.{at_two, is_full};
ghost use Rattle.rr_slots.specs.Connections.{no_entries};

use rr_slots::Connection;
use std::alloc::{AllocError, Global};
use std::marker::Model;

/// The queues to one receiver, and the number of its borrows from each channel.
#[derive(Drop)]
pub(crate) struct Link {
    borrowed: Vec<usize>,
    connection: Connection,
    // With it a link has 64 bytes, so its address is computed from its index by a shift instead of a multiplication.
    padding: [u64; 1],
}

/// The links to each receiver, all of one capacity. `new` takes all memory.
#[derive(Drop)]
pub(crate) struct Links {
    links: Vec<Link>,
    capacity: usize,
}

impl Model for Links {
    ghost use Rattle.rr_sender.specs.Links.{Sent, sent, queues_of, borrowed_of, IsLinked};

    ghost Value = { Sent };

    ghost view = { λ l. sent (queues_of l.links.items) (borrowed_of l.links.items) l.capacity };

    ghost invariant = { λ l. IsLinked l.links.items l.capacity };
}

impl Links {
    ghost use Rattle.rr_sender.specs.Links.{nothing_sent, with_entries, with_count};

    /// Makes empty links to `receivers` receivers, each with `channels` queues of capacity `capacity`. `AllocError`
    /// if there is no memory for them.
    pub(crate) fn new(
        alloc: Global,
        receivers: usize,
        channels: usize,
        capacity: usize,
    ) -> Result<Self, AllocError>
        ensures { IfOk result (λ links. links ≡ nothing_sent receivers channels capacity) }
    {
        let links = empty_links(alloc, receivers, channels, capacity)?;
        Ok(Links { links, capacity })
    }

    /// Enters a slot at the end of a queue that is not full.
    #[inline(always)]
    pub(crate) fn push(&mut self, receiver: usize, channel: usize, slot: usize)
        requires receiver { receiver < length self.old.queues }
        requires channel { channel < length (slice_index_or self.old.queues receiver []) }
        requires room { length (at_two [] self.old.queues receiver channel) < self.old.capacity }
        ensures { self.new ≡ with_entries self.old receiver channel
            (at_two [] self.old.queues receiver channel ++ slot ∷ []) }
    {
        let link = &mut self.links[receiver];
        link.connection.append(channel, slot);
    }

    /// Takes the oldest entry of a queue. `None` where it has none, and nothing changes then.
    #[inline(always)]
    pub(crate) fn pop(&mut self, receiver: usize, channel: usize) -> Option<usize>
        requires receiver { receiver < length self.old.queues }
        requires channel { channel < length (slice_index_or self.old.queues receiver []) }
        ensures first { result ≡ slice_get (at_two [] self.old.queues receiver channel) 0 }
        ensures state { self.new ≡ with_entries self.old receiver channel
            (drop 1 (at_two [] self.old.queues receiver channel)) }
    {
        let link = &mut self.links[receiver];
        link.connection.pop(channel)
    }

    /// Takes the oldest entry of a queue that has one, and increments the receiver's borrows from the channel.
    ///
    /// Reads the link once.
    #[inline(always)]
    pub(crate) fn take(&mut self, receiver: usize, channel: usize) -> usize
        requires receiver { receiver < length self.old.queues }
        requires channel { channel < length (slice_index_or self.old.queues receiver []) }
        requires entry { 0 < length (at_two [] self.old.queues receiver channel) }
        requires fits { at_two 0 self.old.borrowed receiver channel + 1 < 2 ^ 64 }
        ensures first { slice_get (at_two [] self.old.queues receiver channel) 0 ≡ Some result }
        ensures state { self.new ≡ with_count (with_entries self.old receiver channel
            (drop 1 (at_two [] self.old.queues receiver channel))) receiver channel
            (at_two 0 self.old.borrowed receiver channel + 1) }
    {
        let link = &mut self.links[receiver];
        match link.connection.pop(channel) {
            Some(slot) => {
                link.borrowed[channel] += 1;
                slot
            }
            None => unreachable!(),
        }
    }

    /// The oldest entry of a queue, which stays. `None` where it has none.
    #[inline(always)]
    pub(crate) fn first(&self, receiver: usize, channel: usize) -> Option<usize>
        requires receiver { receiver < length self.now.queues }
        requires channel { channel < length (slice_index_or self.now.queues receiver []) }
        ensures { result ≡ slice_get (at_two [] self.now.queues receiver channel) 0 }
    {
        let link = &self.links[receiver];
        link.connection.first(channel)
    }

    /// Whether a queue has as many entries as its capacity.
    #[inline(always)]
    pub(crate) fn is_full(&self, receiver: usize, channel: usize) -> bool
        requires receiver { receiver < length self.now.queues }
        requires channel { channel < length (slice_index_or self.now.queues receiver []) }
        ensures full { result ≡ is_full self.now.capacity (at_two [] self.now.queues receiver channel) }
        ensures within { All (λ channels. All (λ queue. length queue ≤ self.now.capacity) channels) self.now.queues }
    {
        let link = &self.links[receiver];
        link.connection.is_full(channel)
    }

    /// How many entries a queue has.
    #[inline(always)]
    pub(crate) fn len(&self, receiver: usize, channel: usize) -> usize
        requires receiver { receiver < length self.now.queues }
        requires channel { channel < length (slice_index_or self.now.queues receiver []) }
        ensures { result ≡ length (at_two [] self.now.queues receiver channel) }
    {
        let link = &self.links[receiver];
        link.connection.len(channel)
    }

    /// How many channels a receiver has.
    #[inline(always)]
    pub(crate) fn channels(&self, receiver: usize) -> usize
        requires { receiver < length self.now.queues }
        ensures { result ≡ length (slice_index_or self.now.queues receiver []) }
    {
        let link = &self.links[receiver];
        link.connection.channels()
    }

    /// Returns whether all queues to a receiver are empty. Reads each channel once.
    #[inline(always)]
    pub(crate) fn is_empty(&self, receiver: usize) -> bool
        requires { receiver < length self.now.queues }
        ensures { IsTrue result ↔ All (λ queue. queue ≡ []) (slice_index_or self.now.queues receiver []) }
    {
        let link = &self.links[receiver];
        link.connection.is_empty()
    }

    /// How many a receiver has from a channel.
    #[inline(always)]
    pub(crate) fn borrowed(&self, receiver: usize, channel: usize) -> usize
        requires receiver { receiver < length self.now.queues }
        requires channel { channel < length (slice_index_or self.now.queues receiver []) }
        ensures { result ≡ at_two 0 self.now.borrowed receiver channel }
    {
        let link = &self.links[receiver];
        link.borrowed[channel]
    }

    /// Returns whether a receiver has a borrow from some channel. Reads each channel once.
    pub(crate) fn has_borrowed(&self, receiver: usize) -> bool
        requires { receiver < length self.now.borrowed }
        ensures { result ≡ list_any (λ n. nat_lt 0 n) (slice_index_or self.now.borrowed receiver []) }
    {
        let link = &self.links[receiver];
        is_any_counted(link.borrowed.as_slice())
    }

    /// Decrements a receiver's borrows from a channel.
    #[inline(always)]
    pub(crate) fn end_borrow(&mut self, receiver: usize, channel: usize)
        requires receiver { receiver < length self.old.queues }
        requires channel { channel < length (slice_index_or self.old.queues receiver []) }
        requires borrowed { 0 < at_two 0 self.old.borrowed receiver channel }
        ensures { self.new ≡ with_count self.old receiver channel (at_two 0 self.old.borrowed receiver channel - 1) }
    {
        let link = &mut self.links[receiver];
        link.borrowed[channel] -= 1;
    }
}

/// Returns whether one of the counts is not zero.
fn is_any_counted(counts: &[usize]) -> bool
    ensures { result ≡ list_any (λ n. nat_lt 0 n) counts.now }
{
    for count in counts {
        if *count > 0 {
            return true;
        }
    }
    false
}

/// Makes `receivers` links without entries and borrows.
fn empty_links(
    alloc: Global,
    receivers: usize,
    channels: usize,
    capacity: usize,
) -> Result<Vec<Link>, AllocError>
    ensures connections { IfOk result (λ links. All (λ link. link.connection ≡ no_entries channels capacity)
        links.items) }
    ensures borrowed { IfOk result (λ links. All (λ link. link.borrowed.items ≡ replicate channels 0) links.items) }
    ensures len { IfOk result (λ links. length links.items ≡ receivers) }
{
    let mut links = Vec::with_capacity(alloc, receivers)?;
    for _ in 0..receivers {
        links.push_reserved(Link {
            connection: Connection::new(alloc, channels, capacity)?,
            borrowed: vec![in alloc; 0; channels]?,
            padding: [0],
        });
    }
    Ok(links)
}
