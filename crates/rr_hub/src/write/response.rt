//! Writing a response, before it is sent.
ghost use Rattle.std.specs.Prelude.{◌≡◌, ◌⊎◌, List, [], ◌∷◌, not, true, length, nat_lt, Some, IsSomeAnd, if◌then◌else◌, option_and_then};
ghost use Rattle.rr_protocol.specs.Messages.{response_in};
ghost use Rattle.rr_protocol.specs.Queries.{kind_at};
ghost use Rattle.rr_protocol.specs.State.{handle_at, with_changed};
ghost use Rattle.rr_protocol.specs.Writing.{is_complete, with_element, with_element_at, with_elements, filled, with_response_content, with_user_header, after_init};

use crate::state::Core;
use rr_protocol::{BackpressureFn, Kind};
use rr_slots::{Body, FillBody, KeepBody, WriteBody};
use rr_store::HandleId;
use rr_writing::{complete_response_at, copy_response_at, fill_response_at, write_response_at};

impl<QB: Body, QH: Default + Drop, PB: WriteBody, PH: Default + Drop, K: BackpressureFn> Core<
    QB,
    QH,
    PB,
    PH,
    K,
> {
    /// Appends an element to a response that is being written, and returns `true`. Returns `false` if the body is
    /// complete; the element is dropped then, and the hub stays as it was.
    ///
    /// Not in iceoryx2: it replaces writes through the `MaybeUninit` that iceoryx2's `ResponseMutUninit::payload_mut`
    /// lends.
    #[inline(always)]
    pub fn push_response(&mut self, id: &HandleId, item: PB::Item) -> bool
        requires { kind_at self.old id.now ≡ Some Kind.ResponseMutUninit }
        ensures { IsSomeAnd (option_and_then response_in (handle_at self.old id.now))
            (λ m. (result ≡ not (is_complete m.content))
            × (self.new ≡ (if result then with_changed self.old id.now (with_response_content (with_element item))
            else self.old))) }
    {
        let entry = self.parts.look_up(id);
        self.parts.servers.push(entry.sender, entry.slot, item)
    }

    /// Writes the only element of a response on loan, whose body was loaned for one, and makes the response ready to
    /// send. An old element is dropped.
    ///
    /// After iceoryx2's `ResponseMutUninit::write_payload`.
    #[inline(always)]
    pub fn write_response(&mut self, id: &HandleId, element: PB::Item)
        requires uninit { kind_at self.old id.now ≡ Some Kind.ResponseMutUninit }
        requires one { (body : PB) → PB.asked_len body ≡ 1 }
        ensures { self.new ≡ with_changed (with_changed self.old id.now
            (with_response_content (with_elements (element ∷ [])))) id.now after_init }
    {
        let place = id.place();
        if self.parts.is_place_of(id.number(), place) {
            write_response_at(&mut self.parts, id.number(), place, element);
        } else {
            let place = self.parts.locate(id);
            write_response_at(&mut self.parts, id.number(), place, element);
        }
    }

    /// Replaces the element at an index of a response that was not sent, and returns `true`. If there is no element
    /// at the index, drops the new element and returns `false`; the hub stays as it was.
    ///
    /// Not in iceoryx2: it replaces writes through what iceoryx2's `ResponseMut::payload_mut` lends.
    #[inline(always)]
    pub fn write_response_element(&mut self, id: &HandleId, index: usize, element: PB::Item) -> bool
        requires { (kind_at self.old id.now ≡ Some Kind.ResponseMutUninit)
            ⊎ (kind_at self.old id.now ≡ Some Kind.ResponseMut) }
        ensures { IsSomeAnd (option_and_then response_in (handle_at self.old id.now))
            (λ m. (result ≡ nat_lt index (length m.content.elements))
            × (self.new ≡ (if result then with_changed self.old id.now
            (with_response_content (with_element_at index element)) else self.old))) }
    {
        let entry = self.parts.look_up(id);
        self.parts
            .servers
            .write_element(entry.sender, entry.slot, index, element)
    }
}

impl<QB: Body, QH: Default + Drop, PB: Body, PH: Default + Drop, K: BackpressureFn> Core<
    QB,
    QH,
    PB,
    PH,
    K,
> {
    /// Replaces the user header of a response that was not sent. The old one is dropped.
    ///
    /// Not in iceoryx2: it replaces writes through what iceoryx2's `ResponseMut::user_header_mut` lends.
    #[inline(always)]
    pub fn write_response_user_header(&mut self, id: &HandleId, header: PH)
        requires { (kind_at self.old id.now ≡ Some Kind.ResponseMutUninit)
            ⊎ (kind_at self.old id.now ≡ Some Kind.ResponseMut) }
        ensures { self.new ≡ with_changed self.old id.now (with_response_content (with_user_header header)) }
    {
        let entry = self.parts.look_up(id);
        *self.parts.servers.user_header_mut(entry.sender, entry.slot) = header;
    }
}

impl<QB: Body, QH: Default + Drop, PB: FillBody, PH: Default + Drop, K: BackpressureFn> Core<
    QB,
    QH,
    PB,
    PH,
    K,
> {
    /// Fills a response on loan with copies of one element, and makes the response ready to send. Old elements are
    /// dropped.
    ///
    /// After iceoryx2's `ResponseMutUninit::write_from_fn` with a function that always returns this element; with a
    /// default element it is what `loan_slice` does.
    #[inline(always)]
    pub fn fill_response(&mut self, id: &HandleId, element: PB::Item)
        requires { kind_at self.old id.now ≡ Some Kind.ResponseMutUninit }
        ensures { self.new ≡ with_changed (with_changed self.old id.now (with_response_content (filled element)))
            id.now after_init }
    {
        let place = self.parts.locate(id);
        fill_response_at(&mut self.parts, id.number(), place, element);
    }

    /// Copies these elements, which must be as many as were loaned, into a response on loan, and makes the response
    /// ready to send. Old elements are dropped.
    ///
    /// After iceoryx2's `ResponseMutUninit::write_from_slice`.
    #[inline(always)]
    pub fn copy_response(&mut self, id: &HandleId, elements: &[PB::Item])
        requires kind { kind_at self.old id.now ≡ Some Kind.ResponseMutUninit }
        requires len { IsSomeAnd (option_and_then response_in (handle_at self.old id.now))
            (λ m. m.content.asked_len ≡ length elements.now) }
        ensures { self.new ≡ with_changed (with_changed self.old id.now
            (with_response_content (with_elements elements.now))) id.now after_init }
    {
        let place = self.parts.locate(id);
        copy_response_at(&mut self.parts, id.number(), place, elements);
    }
}

impl<QB: Body, QH: Default + Drop, PB: KeepBody, PH: Default + Drop, K: BackpressureFn> Core<
    QB,
    QH,
    PB,
    PH,
    K,
> {
    /// Makes a response on loan complete with unspecified elements, those that its slot's memory holds, and ready to
    /// send.
    ///
    /// After iceoryx2's `ResponseMutUninit::assume_init` of a payload that is written afterwards, in place.
    #[inline(always)]
    pub fn complete_response(&mut self, id: &HandleId)
        requires { kind_at self.old id.now ≡ Some Kind.ResponseMutUninit }
        ensures { (elements : List PB.Item) × IsSomeAnd (option_and_then response_in (handle_at self.old id.now))
            (λ m. m.content.asked_len ≡ length elements)
            × (self.new ≡ with_changed (with_changed self.old id.now (with_response_content (with_elements elements)))
            id.now after_init) }
    {
        let place = self.parts.locate(id);
        complete_response_at(&mut self.parts, id.number(), place);
    }
}
