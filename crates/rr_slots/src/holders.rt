//! The holder counts of slots. The free slots form a list that is threaded through the slots themselves.
ghost use Rattle.std.specs.Prelude.{◌≡◌, ℕ, ◌+◌, ◌-◌, ◌<◌, ◌^◌, ◌↔◌, ◌==◌, length, replicate, slice_get, slice_index, slice_set, Some, IfOk, IfSome, IsNone};
ghost use Rattle.rr_slots.specs.Holding.{count_free, count_held};

use crate::slot::{Slot, WatchedSlots};
use std::alloc::{AllocError, Global};
use std::marker::Model;

/// How many hold each slot. A slot is free if nobody holds it.
#[derive(Drop)]
pub(crate) struct Holders {
    slots: WatchedSlots,
    // The fields that calls change are on another cache line than the pointer to the slots, so a thread that reads
    // the pointer doesn't wait for the thread that changed them.
    padding: [u64; 7],
    first_free: usize,
    free: usize,
}

impl Model for Holders {
    ghost use Rattle.std.specs.Prelude.{map};
    ghost use Rattle.rr_slots.specs.Threads.{holders_of, IsThreaded};
    ghost use Rattle.rr_slots.specs.Holding.{Counts};

    ghost Value = { Counts };

    ghost view = { λ h. record { holders = map holders_of h.slots.slots; first = h.first_free; looks = h.slots.looks } };

    ghost invariant = { λ h. IsThreaded h.slots.slots h.first_free h.free };
}

impl Holders {
    /// Makes `slots` free slots. The last one is taken first: large tables begin at page boundaries, so their entries
    /// for slot 0 would compete for the same cache lines.
    pub(crate) fn new(alloc: Global, slots: usize) -> Result<Self, AllocError>
        ensures free { IfOk result (λ h. h.holders ≡ replicate slots 0) }
        ensures looks { IfOk result (λ h. h.looks ≡ 0) }
    {
        Ok(Holders {
            slots: WatchedSlots::new(alloc, slots)?,
            padding: [0; 7],
            first_free: slots.saturating_sub(1),
            free: slots,
        })
    }

    /// Returns a free slot, if there is one, which stays free.
    pub(crate) fn first_free(&self) -> Option<usize>
        ensures none { IsNone result ↔ (count_free self.now.holders ≡ 0) }
        ensures some { IfSome result (λ slot. slot ≡ self.now.first) }
        ensures free { IfSome result (λ slot. slice_get self.now.holders slot ≡ Some 0) }
    {
        if self.free == 0 {
            return None;
        }
        Some(self.first_free)
    }

    /// Acquires the free slot that `first_free` returns, with one holder.
    pub(crate) fn take(&mut self) -> usize
        requires { 0 < count_free self.old.holders }
        ensures first { result ≡ self.old.first }
        ensures holders { self.new.holders ≡ slice_set self.old.holders result 1 }
        ensures looks { self.new.looks ≡ self.old.looks + 2 }
    {
        let slot = self.first_free;
        let next = self.slots.look(slot).next;
        self.slots.set(slot, Slot { holders: 1, next });
        self.first_free = next;
        self.free -= 1;
        slot
    }

    /// Adds a holder to a slot that is held.
    pub(crate) fn hold(&mut self, slot: usize)
        requires held { 0 < slice_index self.old.holders slot }
        requires fits { slice_index self.old.holders slot + 1 < 2 ^ 64 }
        ensures holders { self.new.holders ≡ slice_set self.old.holders slot (slice_index self.old.holders slot + 1) }
        ensures looks { self.new.looks ≡ self.old.looks + 2 }
    {
        let Slot { holders, next } = self.slots.look(slot);
        let holders = holders + 1;
        self.slots.set(slot, Slot { holders, next });
    }

    /// Removes a holder from a slot that is held. Returns whether the slot is free now.
    #[inline(always)]
    pub(crate) fn give_back(&mut self, slot: usize) -> bool
        requires { 0 < slice_index self.old.holders slot }
        ensures free { result ≡ (slice_index self.old.holders slot - 1 == 0) }
        ensures holders { self.new.holders ≡ slice_set self.old.holders slot (slice_index self.old.holders slot - 1) }
        ensures looks { self.new.looks ≡ self.old.looks + 2 }
    {
        let Slot { holders, next } = self.slots.look(slot);
        if holders == 1 {
            let next = self.first_free;
            self.slots.set(slot, Slot { holders: 0, next });
            self.first_free = slot;
            self.free += 1;
            return true;
        }
        let holders = holders - 1;
        self.slots.set(slot, Slot { holders, next });
        false
    }

    /// Returns the number of free slots. Reads no slot.
    pub(crate) fn free(&self) -> usize
        ensures free { result ≡ count_free self.now.holders }
        ensures rest { result + count_held self.now.holders ≡ length self.now.holders }
    {
        self.free
    }
}
