//! Slots that count their accesses.
ghost use Rattle.std.specs.Prelude.{◌≡◌, ℕ, ◌+◌, ◌<◌, ◌^◌, length, slice_get, slice_set, Some, IfOk};
ghost use Rattle.rr_slots.specs.Threads.{all_free};

use crate::looks::Looks;
use std::alloc::{AllocError, Global};
use std::marker::Model;

/// A slot. It is free if nobody holds it.
#[derive(Clone, Copy, Debug, PartialEq, Eq)]
pub(crate) struct Slot {
    /// How many hold it.
    pub(crate) holders: usize,
    /// The next free slot; meaningless while the slot is held, and in the last free slot.
    pub(crate) next: usize,
}

/// All slots. Each access, to read or to write a slot, is counted.
#[derive(Drop)]
pub(crate) struct WatchedSlots {
    slots: Vec<Slot>,
    looks: Looks,
}

impl Model for WatchedSlots {
    ghost use Rattle.rr_slots.specs.Threads.{Watched};

    ghost Value = { Watched };

    ghost view = { λ s. record { slots = s.slots.items; looks = s.looks.count } };
}

impl WatchedSlots {
    ghost use Rattle.rr_slots.specs.Threads.{watched};

    /// Makes free slots that have no access yet, each followed by the one before it.
    pub(crate) fn new(alloc: Global, slots: usize) -> Result<Self, AllocError>
        ensures { IfOk result (λ s. s ≡ watched (all_free slots) 0) }
    {
        Ok(WatchedSlots {
            slots: free_slots(alloc, slots)?,
            looks: Looks::new(),
        })
    }

    /// Reads a slot.
    pub(crate) fn look(&mut self, slot: usize) -> Slot
        requires { slot < length self.old.slots }
        ensures slot { slice_get self.old.slots slot ≡ Some result }
        ensures fits { length self.old.slots < 2 ^ 64 }
        ensures looks { self.new ≡ watched self.old.slots (self.old.looks + 1) }
    {
        self.looks = Looks::and_one(&self.looks);
        self.slots[slot]
    }

    /// Writes a slot.
    pub(crate) fn set(&mut self, slot: usize, state: Slot)
        requires { slot < length self.old.slots }
        ensures { self.new ≡ watched (slice_set self.old.slots slot state) (self.old.looks + 1) }
    {
        self.looks = Looks::and_one(&self.looks);
        self.slots[slot] = state;
    }
}

/// Makes `slots` free slots, each followed by the one before it.
fn free_slots(alloc: Global, slots: usize) -> Result<Vec<Slot>, AllocError>
    ensures { IfOk result (λ free. free.items ≡ all_free slots) }
{
    let mut free = Vec::with_capacity(alloc, slots)?;
    for slot in 0..slots {
        free.push_reserved(Slot {
            holders: 0,
            next: slot.saturating_sub(1),
        });
    }
    Ok(free)
}
