//! Queries of a message on a side.
ghost use Rattle.std.specs.Prelude.{◌≡◌, ◌+◌, ◌*◌, ◌<◌, ◌^◌, Option, IfSome, length, slice_index_or};
ghost use Rattle.rr_slots.specs.Pools.{written};
ghost use Rattle.rr_sender.specs.Senders.{content_at};
ghost use Rattle.rr_store.specs.Delivering.{reached};
ghost use Rattle.rr_store.specs.Ending.{IsAskedPlace};
ghost use Rattle.rr_store.specs.Views.{sender_of};

use crate::side::Side;
use crate::{HandleEntry, ResponseDetails};
use rr_sender::Sender;
use rr_slots::Body;
use rr_table::{Place, Table};

impl<B: Body, N: Copy, H: Drop, P: Drop> Side<B, N, H, P> {
    /// Returns the messages of a port's sender.
    #[inline(always)]
    pub fn messages(&self, sender: usize) -> &Sender<B, N, H>
        requires { sender < length self.now.senders }
        ensures { result.now ≡ (sender_of sender self.now.senders).messages }
    {
        &self.senders[sender].messages
    }

    /// Returns the marks of a sender: for each slot and receiver, the server that may still answer.
    #[inline(always)]
    pub fn marks(&self, sender: usize) -> &[u64]
        requires { sender < length self.now.senders }
        ensures { result.now ≡ (sender_of sender self.now.senders).may_answer }
    {
        self.senders[sender].may_answer.as_slice()
    }

    /// Returns the details of the message in a slot.
    #[inline(always)]
    pub fn details(&self, sender: usize, slot: usize) -> N
        requires sender { sender < length self.now.senders }
        requires slot { slot < length (sender_of sender self.now.senders).messages.held }
        ensures { (none : N) → result ≡ slice_index_or (sender_of sender self.now.senders).messages.details slot none }
    {
        self.senders[sender].messages.details(slot)
    }

    /// Returns the body of the message in a slot.
    #[inline(always)]
    pub fn body(&self, sender: usize, slot: usize) -> &B
        requires sender { sender < length self.now.senders }
        requires slot { slot < length (sender_of sender self.now.senders).messages.held }
        ensures { written B.asked_len B.elements result.now
            ≡ content_at (sender_of sender self.now.senders).messages slot }
    {
        self.senders[sender].messages.body(slot)
    }

    /// Returns the user header of the message in a slot.
    #[inline(always)]
    pub fn user_header(&self, sender: usize, slot: usize) -> &H
        requires sender { sender < length self.now.senders }
        requires slot { slot < length (sender_of sender self.now.senders).messages.held }
        ensures { result.now ≡ slice_index_or (sender_of sender self.now.senders).messages.user_headers slot
            self.now.spare_header }
    {
        self.senders[sender].messages.user_header(slot)
    }

    /// Returns the place of the own handle of the message in a slot.
    #[inline(always)]
    pub fn own_place(&self, sender: usize, slot: usize) -> Place
        requires { sender < length self.now.senders }
        ensures { result ≡ record { row = (sender_of sender self.now.senders).row; index = slot } }
    {
        Place {
            row: self.senders[sender].row,
            index: slot,
        }
    }

    /// Returns the place of the handle by which a receiver has the message in a slot.
    #[inline(always)]
    pub fn place_at_receiver(&self, sender: usize, receiver: usize, slot: usize) -> Place
        requires sender { sender < length self.now.senders }
        requires receiver { receiver + 1 < 2 ^ 64 }
        requires slot { (receiver + 1) * length (sender_of sender self.now.senders).messages.held + slot < 2 ^ 64 }
        ensures { result ≡ record {
          row = (sender_of sender self.now.senders).row;
          index = (receiver + 1) * length (sender_of sender self.now.senders).messages.held + slot;
        } }
    {
        let owned = &self.senders[sender];
        let index = (receiver + 1) * owned.messages.slots() + slot;
        Place {
            row: owned.row,
            index,
        }
    }

    /// Returns which receiver the client of a response is. Returns `None` if its request has no pending response any
    /// more.
    #[inline(always)]
    pub fn reached_receiver(
        &self,
        table: &Table<HandleEntry>,
        details: ResponseDetails,
    ) -> Option<usize>
        ensures { result ≡ reached self.now.senders table.now details }
    {
        let owned = self.senders.get(details.client_sender)?;
        let row = owned.row;
        let index = details.channel;
        let request = table.get_at(details.request, Place { row, index })?;
        if request.stage.is_pending() {
            Some(owned.receiver)
        } else {
            None
        }
    }

    /// Returns the only place where the active request of a response can be. `receiver` is the index of its server
    /// among the receivers of clients. Returns `None` if there is no sender at the index in the response's details.
    #[inline(always)]
    pub fn asked_place(&self, details: ResponseDetails, receiver: usize) -> Option<Place>
        ensures { IfSome result (IsAskedPlace self.now.senders details receiver) }
    {
        let owned = self.senders.get(details.client_sender)?;
        let row = owned.row;
        let first = receiver
            .wrapping_add(1)
            .wrapping_mul(owned.messages.slots());
        let index = first.wrapping_add(details.channel);
        Some(Place { row, index })
    }
}
