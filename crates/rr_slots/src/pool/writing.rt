//! Writing the body in a slot.
ghost use Rattle.std.specs.Prelude.{◌≡◌, ◌<◌, [], ◌∷◌, length, slice_get, slice_index, Some};
ghost use Rattle.std.specs.Borrow.{sem, Lends};
ghost use Rattle.rr_slots.specs.Pools.{CompletesAt, content_at, appended, filled, given_back, with_changed_at, with_elements};

use crate::body::{Body, FillBody, KeepBody, LendBody, WriteBody};
use crate::pool::Pool;

impl<B: Body> Pool<B> {
    /// Drops the elements in a slot. The length of its loan stays.
    #[inline(always)]
    pub fn clear(&mut self, slot: usize)
        requires { slot < length self.old.contents }
        ensures { self.new ≡ with_changed_at self.old slot (with_elements []) }
    {
        let body = &mut self.bodies[slot];
        body.clear();
    }
}

impl<B: WriteBody> Pool<B> {
    ghost use Rattle.rr_slots.specs.PoolLends.{lends_element};

    /// Appends an element to the body in a slot, which is not complete.
    #[inline(always)]
    pub fn push(&mut self, slot: usize, item: B::Item)
        requires { length (content_at self.old slot).elements < (content_at self.old slot).asked_len }
        ensures { self.new ≡ with_changed_at self.old slot (appended item) }
    {
        let body = &mut self.bodies[slot];
        body.push(item);
    }

    /// Writes an element as the only one in a slot that was loaned for at least one. Old elements are dropped.
    #[inline(always)]
    pub fn write(&mut self, slot: usize, element: B::Item)
        requires slot { slot < length self.old.contents }
        requires asked { 0 < (content_at self.old slot).asked_len }
        ensures { self.new ≡ with_changed_at self.old slot (with_elements (element ∷ [])) }
    {
        let target = &mut self.bodies[slot];
        target.clear();
        target.push(element);
    }

    /// Lends an element in a slot for writing.
    pub fn get_mut(&mut self, slot: usize, index: usize) -> &mut B::Item
        requires { index < length (content_at self.old slot).elements }
        ensures* lends { sem 𝓛 (lends_element B.row B.Item.row ⟦<B as Body>⟧ self.entry slot index result) }
        ensures value { slice_get (content_at self.old slot).elements index ≡ Some result.now }
    {
        let body = &mut self.bodies[slot];
        body.get_mut(index)
    }
}

impl<B: FillBody> Pool<B> {
    /// Fills the body in a slot with copies of one element. Old elements are dropped.
    pub fn fill(&mut self, slot: usize, element: B::Item)
        requires { slot < length self.old.contents }
        ensures { self.new ≡ with_changed_at self.old slot (filled element) }
    {
        let whole = &mut self.bodies[slot];
        whole.fill(element);
    }

    /// Copies these elements, which must be as many as were loaned, into the body in a slot. Old elements are
    /// dropped.
    pub fn copy(&mut self, slot: usize, elements: &[B::Item])
        requires slot { slot < length self.old.contents }
        requires len { length elements.now ≡ (content_at self.old slot).asked_len }
        ensures { self.new ≡ with_changed_at self.old slot (with_elements elements.now) }
    {
        let copied = &mut self.bodies[slot];
        copied.copy(elements);
    }
}

impl<B: KeepBody> Pool<B> {
    /// Makes the body in a slot complete with unspecified elements: those that its memory holds.
    pub fn complete(&mut self, slot: usize)
        requires { slot < length self.old.contents }
        ensures { CompletesAt self.old slot self.new }
    {
        let completed = &mut self.bodies[slot];
        completed.complete();
    }
}

impl<T: Drop> Pool<Option<T>> {
    ghost use Rattle.rr_slots.specs.Elements.{option_elements};
    ghost use Rattle.rr_slots.specs.PoolLends.{lends_option};

    /// Lends the body in a slot for writing, whether an element was written or not.
    pub fn option_mut(&mut self, slot: usize) -> &mut Option<T>
        requires { slot < length self.old.contents }
        ensures* lends { sem 𝓛 (lends_option T.row ⟦<Option<T> as Body>⟧ self.entry slot result) }
        ensures value { (content_at self.old slot).elements ≡ option_elements result.now }
    {
        &mut self.bodies[slot]
    }

    /// Removes a holder from a slot, and returns the element if it was the last one. Otherwise returns `None`.
    #[inline(always)]
    pub fn take_back(&mut self, slot: usize) -> Option<T>
        requires { 0 < slice_index self.old.holders slot }
        ensures given { self.new ≡ given_back self.old slot }
        ensures taken { slice_index self.old.holders slot ≡ 1
            → option_elements result ≡ (content_at self.old slot).elements }
    {
        if self.holders.give_back(slot) {
            let body = &mut self.bodies[slot];
            return body.take();
        }
        None
    }
}

impl<B: LendBody> Pool<B> {
    ghost use Rattle.rr_slots.specs.PoolLends.{lends_slice};

    /// Lends the elements written so far in a slot.
    pub fn slice_mut(&mut self, slot: usize) -> &mut [B::Item]
        requires { slot < length self.old.contents }
        ensures* lends { sem 𝓛 (lends_slice B.row B.Item.row ⟦<B as Body>⟧ self.entry slot result) }
        ensures value { (content_at self.old slot).elements ≡ result.now }
    {
        let body = &mut self.bodies[slot];
        body.slice_mut()
    }
}
