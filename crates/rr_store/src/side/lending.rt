//! Lending the parts of the message in a slot for writing.
ghost use Rattle.std.specs.Prelude.{◌≡◌, ◌<◌, length, Some, slice_get};
ghost use Rattle.std.specs.Borrow.{sem};
ghost use Rattle.rr_slots.specs.Elements.{option_elements};
ghost use Rattle.rr_sender.specs.Senders.{content_at};
ghost use Rattle.rr_store.specs.Views.{sender_of};

use crate::side::Side;
use rr_slots::{Body, LendBody, WriteBody};

impl<B: WriteBody, N: Copy, H: Drop, P: Drop> Side<B, N, H, P> {
    ghost use Rattle.rr_store.specs.SideLends.{lends_element};

    /// Lends an element of the message in a slot.
    #[inline(always)]
    pub fn element_mut(&mut self, sender: usize, slot: usize, index: usize) -> &mut B::Item
        requires sender { sender < length self.old.senders }
        requires index { index < length (content_at (sender_of sender self.old.senders).messages slot).elements }
        ensures* lends { sem 𝓛 (lends_element B.row N.row H.row P.row B.Item.row B.Body self.entry sender slot index
            result) }
        ensures value { slice_get (content_at (sender_of sender self.old.senders).messages slot).elements index
            ≡ Some result.now }
    {
        self.senders[sender].messages.get_mut(slot, index)
    }
}

impl<B: Body, N: Copy, H: Drop, P: Drop> Side<B, N, H, P> {
    ghost use Rattle.rr_store.specs.SideLends.{lends_user_header};

    /// Lends the user header of the message in a slot.
    #[inline(always)]
    pub fn user_header_mut(&mut self, sender: usize, slot: usize) -> &mut H
        requires sender { sender < length self.old.senders }
        requires slot { slot < length (sender_of sender self.old.senders).messages.held }
        ensures* lends { sem 𝓛 (lends_user_header B.row N.row H.row P.row B.Item.row B.Body self.entry sender slot
            result) }
        ensures value { slice_get (sender_of sender self.old.senders).messages.user_headers slot ≡ Some result.now }
    {
        self.senders[sender].messages.user_header_mut(slot)
    }
}

impl<T: Drop, N: Copy, H: Drop, P: Drop> Side<Option<T>, N, H, P> {
    ghost use Rattle.rr_store.specs.SideLends.{lends_option};

    /// Lends the body in a slot for writing, in the family of one element.
    #[inline(always)]
    pub fn option_mut(&mut self, sender: usize, slot: usize) -> &mut Option<T>
        requires sender { sender < length self.old.senders }
        requires slot { slot < length (sender_of sender self.old.senders).messages.held }
        ensures* lends { sem 𝓛 (lends_option N.row H.row P.row T.row ⟦<Option<T> as Body>⟧ self.entry sender slot
            result) }
        ensures value { (content_at (sender_of sender self.old.senders).messages slot).elements
            ≡ option_elements result.now }
    {
        self.senders[sender].messages.option_mut(slot)
    }
}

impl<B: LendBody, N: Copy, H: Drop, P: Drop> Side<B, N, H, P> {
    ghost use Rattle.rr_store.specs.SideLends.{lends_slice};

    /// Lends the elements that were written so far of the message in a slot.
    #[inline(always)]
    pub fn slice_mut(&mut self, sender: usize, slot: usize) -> &mut [B::Item]
        requires sender { sender < length self.old.senders }
        requires slot { slot < length (sender_of sender self.old.senders).messages.held }
        ensures* lends { sem 𝓛 (lends_slice B.row N.row H.row P.row B.Item.row ⟦<B as Body>⟧ self.entry sender slot
            result) }
        ensures value { (content_at (sender_of sender self.old.senders).messages slot).elements ≡ result.now }
    {
        self.senders[sender].messages.slice_mut(slot)
    }
}
