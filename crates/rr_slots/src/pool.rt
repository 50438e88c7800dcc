//! A fixed number of bodies, each in a slot with its number of holders. The free slots form a list that is threaded
//! through the slots themselves.
ghost use Rattle.std.specs.Prelude.{◌≡◌, ℕ, ◌+◌, ◌<◌, ◌≤◌, ◌^◌, ◌↔◌, length, map, replicate, slice_get, slice_index, Some, All, IfOk, IsErrOf, IsTrue, OnErr};
ghost use Rattle.rr_slots.specs.Families.{takes_len};
ghost use Rattle.rr_slots.specs.Pools.{written, nothing_written, free_slots, acquired, held_once_more, given_back, free_count, held_count};

use crate::body::{Body, WriteBody};
use crate::holders::Holders;
use std::alloc::{AllocError, Global};
use std::marker::Model;
use thiserror::Error;

mod writing;

/// Why no slot was handed out.
#[derive(Clone, Copy, Debug, PartialEq, Eq, Error)]
pub enum AcquireError {
    /// Every slot is held.
    #[error("every slot is held")]
    Full,
    /// Memory for a body that is longer than the room was refused.
    #[error("no memory for a longer body")]
    NoRoom,
}

/// A fixed number of slots, each with a body and the number of its holders. A slot is free exactly if nobody holds
/// it.
///
/// Not in iceoryx2: it replaces the data segment of an iceoryx2 port. `acquire`, `hold` and `give_back` access the
/// holders of a slot at most twice, whatever the number of slots; contracts see the number of accesses, which takes
/// no bytes.
#[derive(Drop)]
pub struct Pool<B: Body> {
    bodies: Vec<B>,
    holders: Holders,
    room: usize,
}

impl<B: Body> Model for Pool<B> {
    ghost use Rattle.std.specs.Prelude.{◌≡◌, ◌≤◌, length, map, All};
    ghost use Rattle.rr_slots.specs.Pools.{Slots, slots_code, written};

    ghost Value = { Slots B.Item };

    ghost coded = { slots_code B.Item.code };

    ghost view = { λ p. record {
      contents = map (written B.asked_len B.elements) p.bodies.items;
      holders = p.holders.holders;
      room = p.room;
      looks = p.holders.looks;
    } };

    ghost invariant = { λ p. (length p.bodies.items ≡ length p.holders.holders)
        × All (λ b. p.room ≤ B.room b) p.bodies.items };
}

impl<B: WriteBody> Pool<B> {
    /// Makes `slots` free slots, each with room for `room` elements, a length that the body's family takes. `Err` if
    /// memory was refused.
    pub fn new(alloc: Global, slots: usize, room: usize) -> Result<Self, AllocError>
        requires { IsTrue (takes_len B.family room) }
        ensures { IfOk result (λ pool. pool ≡ free_slots slots room) }
    {
        Ok(Pool {
            bodies: bodies(alloc, slots, room)?,
            holders: Holders::new(alloc, slots)?,
            room,
        })
    }

    /// Acquires a free slot, with one holder and an empty body of `len` loaned elements, a length that the family
    /// takes.
    ///
    /// `Full` exactly if no slot is free. `NoRoom` if `len` is above the room and memory was refused. Nothing has
    /// changed on either.
    #[inline(always)]
    pub fn acquire(&mut self, len: usize) -> Result<usize, AcquireError>
        requires { IsTrue (takes_len B.family len) }
        ensures free { IfOk result (λ slot. slice_get self.old.holders slot ≡ Some 0) }
        ensures ok { IfOk result (λ slot. self.new ≡ acquired self.old slot len) }
        ensures full { IsErrOf result AcquireError.Full ↔ (free_count self.old ≡ 0) }
        ensures no_room { IsErrOf result AcquireError.NoRoom → self.old.room < len }
        ensures err { OnErr result (self.new ≡ self.old) }
    {
        let Some(slot) = self.holders.first_free() else {
            return Err(AcquireError::Full);
        };
        match self.bodies[slot].prepare(len) {
            Ok(()) => {
                self.holders.take();
                Ok(slot)
            }
            Err(_) => Err(AcquireError::NoRoom),
        }
    }
}

impl<B: Body> Pool<B> {
    /// Adds a holder to a slot that is held.
    pub fn hold(&mut self, slot: usize)
        requires held { 0 < slice_index self.old.holders slot }
        requires fits { slice_index self.old.holders slot + 1 < 2 ^ 64 }
        ensures { self.new ≡ held_once_more self.old slot }
    {
        self.holders.hold(slot);
    }

    /// Removes a holder from a slot that is held. If it was the last one, the slot is free and its elements are
    /// dropped; the length of its loan stays.
    #[inline(always)]
    pub fn give_back(&mut self, slot: usize)
        requires { 0 < slice_index self.old.holders slot }
        ensures { self.new ≡ given_back self.old slot }
    {
        if self.holders.give_back(slot) {
            let body = &mut self.bodies[slot];
            body.clear();
        }
    }

    /// The body in a slot, whether it is held or not.
    pub fn body(&self, slot: usize) -> &B
        requires { slot < length self.now.contents }
        ensures { slice_get self.now.contents slot ≡ Some (written B.asked_len B.elements result.now) }
    {
        &self.bodies[slot]
    }

    /// How many slots nobody holds.
    pub fn free_slots(&self) -> usize
        ensures free { result ≡ free_count self.now }
        ensures rest { result + held_count self.now ≡ length self.now.holders }
        ensures bodies { length self.now.contents ≡ length self.now.holders }
    {
        self.holders.free()
    }
}

/// Makes `slots` empty bodies, each with room for `room` elements.
fn bodies<B: WriteBody>(alloc: Global, slots: usize, room: usize) -> Result<Vec<B>, AllocError>
    requires { IsTrue (takes_len B.family room) }
    ensures written { IfOk result (λ bodies. map (written B.asked_len B.elements) bodies.items
        ≡ replicate slots (nothing_written room)) }
    ensures room { IfOk result (λ bodies. All (λ b. room ≤ B.room b) bodies.items) }
{
    let mut bodies = Vec::with_capacity(alloc, slots)?;
    for _ in 0..slots {
        bodies.push_reserved(B::new(alloc, room)?);
    }
    Ok(bodies)
}
