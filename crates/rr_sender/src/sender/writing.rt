//! Writing the body in a slot, and its user header.
ghost use Rattle.std.specs.Prelude.{◌≡◌, ◌<◌, [], ◌∷◌, Some, length, slice_get, slice_index};
ghost use Rattle.std.specs.Borrow.{sem};
ghost use Rattle.rr_slots.specs.Pools.{appended, filled, with_elements};
ghost use Rattle.rr_sender.specs.Senders.{CompletesAt, content_at, given_back, uses, with_changed_at};

use crate::sender::Sender;
use rr_slots::{Body, FillBody, KeepBody, LendBody, WriteBody};

impl<B: Body, N: Copy, H: Drop> Sender<B, N, H> {
    ghost use Rattle.rr_sender.specs.SenderLends.{lends_user_header};

    /// Lends the user header of a slot's message for writing.
    pub fn user_header_mut(&mut self, slot: usize) -> &mut H
        requires { slot < length self.old.held }
        ensures* lends { sem 𝓛 (lends_user_header B.row N.row H.row B.Item.row ⟦<B as Body>⟧ self.entry slot result) }
        ensures value { slice_get self.old.user_headers slot ≡ Some result.now }
    {
        let head = &mut self.heads[slot];
        &mut head.user_header
    }

    /// Drops the elements in a slot. The length of its loan stays.
    #[inline(always)]
    pub fn clear(&mut self, slot: usize)
        requires { slot < length self.old.held }
        ensures { self.new ≡ with_changed_at self.old slot (with_elements []) }
    {
        self.pool.clear(slot);
    }
}

impl<B: WriteBody, N: Copy, H: Drop> Sender<B, N, H> {
    ghost use Rattle.rr_sender.specs.SenderLends.{lends_element};

    /// Appends an element to the body in a slot, which is not complete.
    #[inline(always)]
    pub fn push(&mut self, slot: usize, item: B::Item)
        requires { length (content_at self.old slot).elements < (content_at self.old slot).asked_len }
        ensures { self.new ≡ with_changed_at self.old slot (appended item) }
    {
        self.pool.push(slot, item);
    }

    /// Writes an element as the only one in a slot that was loaned for at least one. Old elements are dropped.
    #[inline(always)]
    pub fn write(&mut self, slot: usize, element: B::Item)
        requires slot { slot < length self.old.held }
        requires asked { 0 < (content_at self.old slot).asked_len }
        ensures { self.new ≡ with_changed_at self.old slot (with_elements (element ∷ [])) }
    {
        self.pool.write(slot, element);
    }

    /// Lends an element in a slot for writing.
    pub fn get_mut(&mut self, slot: usize, index: usize) -> &mut B::Item
        requires { index < length (content_at self.old slot).elements }
        ensures* lends { sem 𝓛 (lends_element B.row N.row H.row B.Item.row ⟦<B as Body>⟧ self.entry slot index result) }
        ensures value { slice_get (content_at self.old slot).elements index ≡ Some result.now }
    {
        self.pool.get_mut(slot, index)
    }
}

impl<B: FillBody, N: Copy, H: Drop> Sender<B, N, H> {
    /// Fills the body in a slot with copies of one element. Old elements are dropped.
    pub fn fill(&mut self, slot: usize, element: B::Item)
        requires { slot < length self.old.held }
        ensures { self.new ≡ with_changed_at self.old slot (filled element) }
    {
        self.pool.fill(slot, element);
    }

    /// Copies these elements, which must be as many as were loaned, into the body in a slot. Old elements are
    /// dropped.
    pub fn copy(&mut self, slot: usize, elements: &[B::Item])
        requires slot { slot < length self.old.held }
        requires len { length elements.now ≡ (content_at self.old slot).asked_len }
        ensures { self.new ≡ with_changed_at self.old slot (with_elements elements.now) }
    {
        self.pool.copy(slot, elements);
    }
}

impl<B: KeepBody, N: Copy, H: Drop> Sender<B, N, H> {
    /// Makes the body in a slot complete with unspecified elements: those that its memory holds.
    pub fn complete(&mut self, slot: usize)
        requires { slot < length self.old.held }
        ensures { CompletesAt self.old slot self.new }
    {
        self.pool.complete(slot);
    }
}

impl<T: Drop, N: Copy, H: Drop> Sender<Option<T>, N, H> {
    ghost use Rattle.rr_slots.specs.Elements.{option_elements};
    ghost use Rattle.rr_sender.specs.SenderLends.{lends_option};

    /// Lends the body in a slot for writing, whether an element was written or not.
    pub fn option_mut(&mut self, slot: usize) -> &mut Option<T>
        requires { slot < length self.old.held }
        ensures* lends { sem 𝓛 (lends_option N.row H.row T.row ⟦<Option<T> as Body>⟧ self.entry slot result) }
        ensures value { (content_at self.old slot).elements ≡ option_elements result.now }
    {
        self.pool.option_mut(slot)
    }

    /// Removes a handle from a slot. Returns the slot's element if that was its last use, and otherwise `None`.
    #[inline(always)]
    pub fn take_back(&mut self, slot: usize) -> Option<T>
        requires { 0 < slice_index self.old.held slot }
        ensures given { self.new ≡ given_back self.old slot }
        ensures taken { uses self.old slot ≡ 1 → option_elements result ≡ (content_at self.old slot).elements }
    {
        self.pool.take_back(slot)
    }
}

impl<B: LendBody, N: Copy, H: Drop> Sender<B, N, H> {
    ghost use Rattle.rr_sender.specs.SenderLends.{lends_slice};

    /// Lends the elements written so far in a slot.
    pub fn slice_mut(&mut self, slot: usize) -> &mut [B::Item]
        requires { slot < length self.old.held }
        ensures* lends { sem 𝓛 (lends_slice B.row N.row H.row B.Item.row ⟦<B as Body>⟧ self.entry slot result) }
        ensures value { (content_at self.old slot).elements ≡ result.now }
    {
        self.pool.slice_mut(slot)
    }
}
