//! Slots that are loaned, read, written and given back.
ghost use Rattle.std.specs.Prelude.{◌≡◌, ◌<◌, ◌↔◌, [], ◌∷◌, not, true, length, nat_lt, Some, IfOk, IsErrOf, IsTrue, OnErr, if◌then◌else◌, slice_get, slice_index};
ghost use Rattle.rr_slots.specs.Families.{takes_len};
ghost use Rattle.rr_slots.specs.Pools.{appended, filled, with_element_at, with_elements};
ghost use Rattle.rr_sender.specs.Senders.{all_entries, content_at, given_back, loaned, times, used_count, with_changed_at, with_user_header};
ghost use Rattle.rr_store.specs.Sides.{CompletesSent, with_sent};
ghost use Rattle.rr_store.specs.Views.{sender_of};
ghost use Rattle.rr_store.specs.Writing.{is_written};

use crate::side::Side;
use rr_slots::{AcquireError, Body, FillBody, KeepBody, WriteBody};
use rr_table::Place;

impl<B: WriteBody, N: Copy, H: Drop, P: Drop> Side<B, N, H, P> {
    /// Loans a slot for a message of `len` elements, a length that the body's family takes. Returns the place of its
    /// handle.
    ///
    /// # Errors
    ///
    /// - `Full` if each slot of the sender is used.
    /// - `NoRoom` if the slot has less room than `len`, and memory was refused.
    ///
    /// The side is unchanged then.
    #[inline(always)]
    pub fn loan(
        &mut self,
        sender: usize,
        len: usize,
        details: N,
        user_header: H,
    ) -> Result<Place, AcquireError>
        requires sender { sender < length self.old.senders }
        requires len { IsTrue (takes_len B.family len) }
        ensures row { IfOk result (λ place. place.row ≡ (sender_of sender self.old.senders).row) }
        ensures free { IfOk result (λ place. slice_get (sender_of sender self.old.senders).messages.held place.index
            ≡ Some 0) }
        ensures unused { IfOk result (λ place. times place.index
            (all_entries (sender_of sender self.old.senders).messages.queues) ≡ 0) }
        ensures ok { IfOk result (λ place. self.new ≡ with_sent self.old sender
            (λ m. loaned m place.index len details user_header)) }
        ensures full { IsErrOf result AcquireError.Full ↔ (used_count (sender_of sender self.old.senders).messages
            ≡ length (sender_of sender self.old.senders).messages.held) }
        ensures no_room { IsErrOf result AcquireError.NoRoom
            → (sender_of sender self.old.senders).messages.room < len }
        ensures err { OnErr result (self.new ≡ self.old) }
    {
        let owned = &mut self.senders[sender];
        match owned.messages.loan(len, details, user_header) {
            Ok(slot) => Ok(Place {
                row: owned.row,
                index: slot,
            }),
            Err(error) => Err(error),
        }
    }

    /// Appends an element to the message in a slot, unless it is complete, and returns whether it did.
    #[inline(always)]
    pub fn push(&mut self, sender: usize, slot: usize, item: B::Item) -> bool
        requires sender { sender < length self.old.senders }
        requires slot { slot < length (sender_of sender self.old.senders).messages.held }
        ensures told { result ≡ not (is_written (content_at (sender_of sender self.old.senders).messages slot)) }
        ensures pushed { self.new ≡ (if result then with_sent self.old sender
            (λ m. with_changed_at m slot (appended item)) else self.old) }
    {
        if self.senders[sender].messages.body(slot).is_complete() {
            return false;
        }
        self.senders[sender].messages.push(slot, item);
        true
    }

    /// Writes an element as the only one of the message in a slot, which was loaned for at least one. Old elements
    /// are dropped.
    #[inline(always)]
    pub fn write(&mut self, sender: usize, slot: usize, element: B::Item)
        requires sender { sender < length self.old.senders }
        requires slot { slot < length (sender_of sender self.old.senders).messages.held }
        requires asked { 0 < (content_at (sender_of sender self.old.senders).messages slot).asked_len }
        ensures { self.new ≡ with_sent self.old sender (λ m. with_changed_at m slot (with_elements (element ∷ []))) }
    {
        self.senders[sender].messages.write(slot, element);
    }

    /// Replaces the element at `index` of the message in a slot, if there is one, and returns whether there was. The
    /// old element is dropped.
    #[inline(always)]
    pub fn write_element(
        &mut self,
        sender: usize,
        slot: usize,
        index: usize,
        element: B::Item,
    ) -> bool
        requires sender { sender < length self.old.senders }
        requires slot { slot < length (sender_of sender self.old.senders).messages.held }
        ensures told { result ≡ nat_lt index (length (content_at (sender_of sender self.old.senders).messages
            slot).elements) }
        ensures written { self.new ≡ (if result then with_sent self.old sender
            (λ m. with_changed_at m slot (with_element_at index element)) else self.old) }
    {
        if index >= self.senders[sender].messages.body(slot).len() {
            return false;
        }
        *self.senders[sender].messages.get_mut(slot, index) = element;
        true
    }
}

impl<B: Body, N: Copy, H: Drop, P: Drop> Side<B, N, H, P> {
    /// Gives back a hold on the message in a slot. The elements are dropped with the last hold.
    #[inline(always)]
    pub fn give_back(&mut self, sender: usize, slot: usize)
        requires sender { sender < length self.old.senders }
        requires held { 0 < slice_index (sender_of sender self.old.senders).messages.held slot }
        ensures { self.new ≡ with_sent self.old sender (λ m. given_back m slot) }
    {
        self.senders[sender].messages.give_back(slot);
    }
}

impl<B: FillBody, N: Copy, H: Drop, P: Drop> Side<B, N, H, P> {
    /// Fills the message in a slot with copies of one element. Old elements are dropped.
    #[inline(always)]
    pub fn fill(&mut self, sender: usize, slot: usize, element: B::Item)
        requires sender { sender < length self.old.senders }
        requires slot { slot < length (sender_of sender self.old.senders).messages.held }
        ensures { self.new ≡ with_sent self.old sender (λ m. with_changed_at m slot (filled element)) }
    {
        self.senders[sender].messages.fill(slot, element);
    }

    /// Copies these elements, which must be as many as were loaned, into the message in a slot. Old elements are
    /// dropped.
    #[inline(always)]
    pub fn copy(&mut self, sender: usize, slot: usize, elements: &[B::Item])
        requires sender { sender < length self.old.senders }
        requires slot { slot < length (sender_of sender self.old.senders).messages.held }
        requires len { length elements.now ≡ (content_at (sender_of sender self.old.senders).messages slot).asked_len }
        ensures { self.new ≡ with_sent self.old sender (λ m. with_changed_at m slot (with_elements elements.now)) }
    {
        self.senders[sender].messages.copy(slot, elements);
    }
}

impl<B: KeepBody, N: Copy, H: Drop, P: Drop> Side<B, N, H, P> {
    /// Makes the message in a slot complete with unspecified elements: those that its memory holds.
    #[inline(always)]
    pub fn complete(&mut self, sender: usize, slot: usize)
        requires sender { sender < length self.old.senders }
        requires slot { slot < length (sender_of sender self.old.senders).messages.held }
        ensures { CompletesSent self.old sender slot self.new }
    {
        self.senders[sender].messages.complete(slot);
    }
}
