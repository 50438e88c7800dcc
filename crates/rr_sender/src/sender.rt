//! The sending half of a port: slots for its messages, and queues of slots to each receiver.
ghost use Rattle.std.specs.Prelude.{◌≡◌, ℕ, ◌+◌, ◌<◌, ◌≤◌, ◌^◌, ◌↔◌, [], length, map, replicate, slice_get, slice_index, Some, IfOk, IsErrOf, IsTrue, OnErr};
ghost use Rattle.rr_slots.specs.Families.{takes_len};
ghost use Rattle.rr_slots.specs.Pools.{nothing_written, written};
ghost use Rattle.rr_sender.specs.Senders.{all_entries, given_back, loaned, times, used_count, uses, with_held};

use crate::links::Links;
use rr_slots::{AcquireError, Body, Pool, WriteBody};
use std::alloc::{AllocError, Global};
use std::marker::Model;

mod queues;
mod writing;

/// The details of a message, and its user header.
#[derive(Drop)]
struct Head<N: Copy, H: Drop> {
    details: N,
    user_header: H,
}

/// How many slots a sender has and for how many elements each has room, and how many receivers, channels to each and
/// entries on each channel.
#[derive(Clone, Copy)]
pub struct SenderSize {
    pub slots: usize,
    pub room: usize,
    pub receivers: usize,
    pub channels: usize,
    pub capacity: usize,
}

/// The sending half of a port: a fixed number of slots, each with a message, its details and its user header; and for
/// each receiver a queue of slots for each channel.
///
/// A slot is in use while a handle holds it or a queue has it. Contracts count only the handles: an entry takes and
/// releases its hold by itself. The elements of a slot are dropped with the last use, so a free slot owns nothing; a
/// user header stays until the slot is loaned again. Only `new`, and `loan` above the room, take memory. Except for
/// `new`, `has_any`, `has_borrowed` and the calls that clear queues, each call takes constant time, plus the time to
/// drop elements or a user header. Not in iceoryx2: it replaces the data segment of an iceoryx2 port and its
/// connections.
#[derive(Drop)]
pub struct Sender<B: Body, N: Copy, H: Drop> {
    heads: Vec<Head<N, H>>,
    links: Links,
    pool: Pool<B>,
}

impl<B: Body, N: Copy, H: Drop> Model for Sender<B, N, H> {
    ghost use Rattle.rr_sender.specs.Senders.{Messages};
    ghost use Rattle.rr_sender.specs.Parts.{messages, messages_code, IsSound};

    ghost Value = { Messages B.Item N H };

    ghost coded = { messages_code B.Item.code N.code H.code };

    ghost view = { λ l. messages l.pool l.heads.items l.links };

    ghost invariant = { λ l. IsSound l.pool l.heads.items l.links };
}

impl<B: WriteBody, N: Copy, H: Drop> Sender<B, N, H> {
    /// Makes free slots and empty queues, as many as `size` says; each slot has room for `size.room` elements, a
    /// length that the body's family takes, these details, and a default user header. `Err` if there is no memory for
    /// them.
    pub fn new(alloc: Global, size: SenderSize, details: N) -> Result<Self, AllocError>
    where
        H: Default,
        requires { IsTrue (takes_len B.family size.room) }
        ensures contents { IfOk result (λ sender. sender.contents ≡ replicate size.slots (nothing_written size.room)) }
        ensures details { IfOk result (λ sender. sender.details ≡ replicate size.slots details) }
        ensures user_headers { IfOk result (λ sender. length sender.user_headers ≡ size.slots) }
        ensures held { IfOk result (λ sender. sender.held ≡ replicate size.slots 0) }
        ensures queues { IfOk result (λ sender. sender.queues ≡ replicate size.receivers (replicate size.channels [])) }
        ensures borrowed { IfOk result (λ sender. sender.borrowed
            ≡ replicate size.receivers (replicate size.channels 0)) }
        ensures capacity { IfOk result (λ sender. sender.capacity ≡ size.capacity) }
        ensures room { IfOk result (λ sender. sender.room ≡ size.room) }
    {
        Ok(Sender {
            pool: Pool::new(alloc, size.slots, size.room)?,
            heads: heads(alloc, size.slots, details)?,
            links: Links::new(alloc, size.receivers, size.channels, size.capacity)?,
        })
    }

    /// Acquires a free slot, held by one handle, for a message of `len` elements, a length that the family takes,
    /// with these details and user header.
    ///
    /// `Full` exactly if each slot has a handle or an entry. `NoRoom` if `len` is above the room and memory was
    /// refused. Nothing has changed on either. A slot that entries alone still hold is not free, since its message
    /// may be received: that is our own.
    #[inline(always)]
    pub fn loan(&mut self, len: usize, details: N, user_header: H) -> Result<usize, AcquireError>
        requires { IsTrue (takes_len B.family len) }
        ensures free { IfOk result (λ slot. slice_get self.old.held slot ≡ Some 0) }
        ensures unused { IfOk result (λ slot. times slot (all_entries self.old.queues) ≡ 0) }
        ensures ok { IfOk result (λ slot. self.new ≡ loaned self.old slot len details user_header) }
        ensures full { IsErrOf result AcquireError.Full ↔ (used_count self.old ≡ length self.old.held) }
        ensures no_room { IsErrOf result AcquireError.NoRoom → self.old.room < len }
        ensures err { OnErr result (self.new ≡ self.old) }
    {
        match self.pool.acquire(len) {
            Ok(slot) => {
                self.heads[slot] = Head {
                    details,
                    user_header,
                };
                Ok(slot)
            }
            Err(error) => Err(error),
        }
    }
}

impl<B: Body, N: Copy, H: Drop> Sender<B, N, H> {
    /// Adds a handle to a slot that a handle holds.
    #[inline(always)]
    pub fn hold(&mut self, slot: usize)
        requires held { 0 < slice_index self.old.held slot }
        requires fits { uses self.old slot + 1 < 2 ^ 64 }
        ensures { self.new ≡ with_held self.old slot (slice_index self.old.held slot + 1) }
    {
        self.pool.hold(slot);
    }

    /// Removes a handle from a slot. The slot is free once no handle and no entry holds it, and its elements are
    /// dropped then.
    #[inline(always)]
    pub fn give_back(&mut self, slot: usize)
        requires { 0 < slice_index self.old.held slot }
        ensures { self.new ≡ given_back self.old slot }
    {
        self.pool.give_back(slot);
    }

    /// Returns the number of slots.
    #[inline(always)]
    pub fn slots(&self) -> usize
        ensures { result ≡ length self.now.held }
    {
        self.heads.len()
    }

    /// How many slots no handle and no entry holds.
    #[inline(always)]
    pub fn free_slots(&self) -> usize
        ensures free { result + used_count self.now ≡ length self.now.held }
        ensures contents { length self.now.contents ≡ length self.now.held }
        ensures details { length self.now.details ≡ length self.now.held }
        ensures user_headers { length self.now.user_headers ≡ length self.now.held }
    {
        self.pool.free_slots()
    }

    /// The details of a slot's message.
    #[inline(always)]
    pub fn details(&self, slot: usize) -> N
        requires { slot < length self.now.held }
        ensures { slice_get self.now.details slot ≡ Some result }
    {
        self.heads[slot].details
    }

    /// The user header of a slot's message.
    #[inline(always)]
    pub fn user_header(&self, slot: usize) -> &H
        requires { slot < length self.now.held }
        ensures { slice_get self.now.user_headers slot ≡ Some result.now }
    {
        &self.heads[slot].user_header
    }

    /// The body in a slot, whether it is held or not.
    #[inline(always)]
    pub fn body(&self, slot: usize) -> &B
        requires { slot < length self.now.held }
        ensures { slice_get self.now.contents slot ≡ Some (written B.asked_len B.elements result.now) }
    {
        self.pool.body(slot)
    }
}

/// So many heads with these details, and default user headers.
fn heads<N: Copy, H: Drop + Default>(
    alloc: Global,
    slots: usize,
    details: N,
) -> Result<Vec<Head<N, H>>, AllocError>
    ensures details { IfOk result (λ heads. map (λ head. head.details) heads.items ≡ replicate slots details) }
    ensures len { IfOk result (λ heads. length heads.items ≡ slots) }
{
    let mut heads = Vec::with_capacity(alloc, slots)?;
    for _ in 0..slots {
        heads.push_reserved(Head {
            details,
            user_header: H::default(),
        });
    }
    Ok(heads)
}
