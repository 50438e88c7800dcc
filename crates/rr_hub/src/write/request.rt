//! Writing a request, before it is sent.
ghost use Rattle.std.specs.Prelude.{◌≡◌, ◌⊎◌, List, [], ◌∷◌, not, true, length, nat_lt, Some, IsSomeAnd, if◌then◌else◌, option_and_then};
ghost use Rattle.rr_protocol.specs.Messages.{request_in};
ghost use Rattle.rr_protocol.specs.Queries.{kind_at};
ghost use Rattle.rr_protocol.specs.State.{handle_at, with_changed};
ghost use Rattle.rr_protocol.specs.Writing.{is_complete, with_element, with_element_at, with_elements, filled, with_request_content, with_user_header, after_init};

use crate::state::Core;
use rr_protocol::{BackpressureFn, Kind};
use rr_slots::{Body, FillBody, KeepBody, WriteBody};
use rr_store::HandleId;
use rr_writing::{complete_request_at, copy_request_at, fill_request_at, write_request_at};

impl<QB: WriteBody, QH: Default + Drop, PB: Body, PH: Default + Drop, K: BackpressureFn> Core<
    QB,
    QH,
    PB,
    PH,
    K,
> {
    /// Appends an element to a request that is being written, and returns `true`. Returns `false` if the body is
    /// complete; the element is dropped then, and the hub stays as it was.
    ///
    /// Not in iceoryx2: it replaces writes through the `MaybeUninit` that iceoryx2's `RequestMutUninit::payload_mut`
    /// lends.
    #[inline(always)]
    pub fn push_request(&mut self, id: &HandleId, item: QB::Item) -> bool
        requires { kind_at self.old id.now ≡ Some Kind.RequestMutUninit }
        ensures { IsSomeAnd (option_and_then request_in (handle_at self.old id.now))
            (λ m. (result ≡ not (is_complete m.content))
            × (self.new ≡ (if result then with_changed self.old id.now (with_request_content (with_element item)) else
            self.old))) }
    {
        let entry = self.parts.look_up(id);
        self.parts.clients.push(entry.sender, entry.slot, item)
    }

    /// Writes the only element of a request on loan, whose body was loaned for one, and makes the request ready to
    /// send. An old element is dropped.
    ///
    /// After iceoryx2's `RequestMutUninit::write_payload`.
    #[inline(always)]
    pub fn write_request(&mut self, id: &HandleId, element: QB::Item)
        requires uninit { kind_at self.old id.now ≡ Some Kind.RequestMutUninit }
        requires one { (body : QB) → QB.asked_len body ≡ 1 }
        ensures { self.new ≡ with_changed (with_changed self.old id.now
            (with_request_content (with_elements (element ∷ [])))) id.now after_init }
    {
        let place = id.place();
        if self.parts.is_place_of(id.number(), place) {
            write_request_at(&mut self.parts, id.number(), place, element);
        } else {
            let place = self.parts.locate(id);
            write_request_at(&mut self.parts, id.number(), place, element);
        }
    }

    /// Replaces the element at an index of a request that was not sent, and returns `true`. If there is no element at
    /// the index, drops the new element and returns `false`; the hub stays as it was.
    ///
    /// Not in iceoryx2: it replaces writes through what iceoryx2's `RequestMut::payload_mut` lends.
    #[inline(always)]
    pub fn write_request_element(&mut self, id: &HandleId, index: usize, element: QB::Item) -> bool
        requires { (kind_at self.old id.now ≡ Some Kind.RequestMutUninit)
            ⊎ (kind_at self.old id.now ≡ Some Kind.RequestMut) }
        ensures { IsSomeAnd (option_and_then request_in (handle_at self.old id.now))
            (λ m. (result ≡ nat_lt index (length m.content.elements))
            × (self.new ≡ (if result then with_changed self.old id.now
            (with_request_content (with_element_at index element)) else self.old))) }
    {
        let entry = self.parts.look_up(id);
        self.parts
            .clients
            .write_element(entry.sender, entry.slot, index, element)
    }
}

impl<QB: Body, QH: Default + Drop, PB: Body, PH: Default + Drop, K: BackpressureFn> Core<
    QB,
    QH,
    PB,
    PH,
    K,
> {
    /// Replaces the user header of a request that was not sent. The old one is dropped.
    ///
    /// Not in iceoryx2: it replaces writes through what iceoryx2's `RequestMut::user_header_mut` lends.
    #[inline(always)]
    pub fn write_request_user_header(&mut self, id: &HandleId, header: QH)
        requires { (kind_at self.old id.now ≡ Some Kind.RequestMutUninit)
            ⊎ (kind_at self.old id.now ≡ Some Kind.RequestMut) }
        ensures { self.new ≡ with_changed self.old id.now (with_request_content (with_user_header header)) }
    {
        let entry = self.parts.look_up(id);
        *self.parts.clients.user_header_mut(entry.sender, entry.slot) = header;
    }
}

impl<QB: FillBody, QH: Default + Drop, PB: Body, PH: Default + Drop, K: BackpressureFn> Core<
    QB,
    QH,
    PB,
    PH,
    K,
> {
    /// Fills a request on loan with copies of one element, and makes the request ready to send. Old elements are
    /// dropped.
    ///
    /// After iceoryx2's `RequestMutUninit::write_from_fn` with a function that always returns this element; with a
    /// default element it is what `loan_slice` does.
    #[inline(always)]
    pub fn fill_request(&mut self, id: &HandleId, element: QB::Item)
        requires { kind_at self.old id.now ≡ Some Kind.RequestMutUninit }
        ensures { self.new ≡ with_changed (with_changed self.old id.now (with_request_content (filled element)))
            id.now after_init }
    {
        let place = self.parts.locate(id);
        fill_request_at(&mut self.parts, id.number(), place, element);
    }

    /// Copies these elements, which must be as many as were loaned, into a request on loan, and makes the request
    /// ready to send. Old elements are dropped.
    ///
    /// After iceoryx2's `RequestMutUninit::write_from_slice`.
    #[inline(always)]
    pub fn copy_request(&mut self, id: &HandleId, elements: &[QB::Item])
        requires kind { kind_at self.old id.now ≡ Some Kind.RequestMutUninit }
        requires len { IsSomeAnd (option_and_then request_in (handle_at self.old id.now))
            (λ m. m.content.asked_len ≡ length elements.now) }
        ensures { self.new ≡ with_changed (with_changed self.old id.now
            (with_request_content (with_elements elements.now))) id.now after_init }
    {
        let place = self.parts.locate(id);
        copy_request_at(&mut self.parts, id.number(), place, elements);
    }
}

impl<QB: KeepBody, QH: Default + Drop, PB: Body, PH: Default + Drop, K: BackpressureFn> Core<
    QB,
    QH,
    PB,
    PH,
    K,
> {
    /// Makes a request on loan complete with unspecified elements, those that its slot's memory holds, and ready to
    /// send.
    ///
    /// After iceoryx2's `RequestMutUninit::assume_init` of a payload that is written afterwards, in place.
    #[inline(always)]
    pub fn complete_request(&mut self, id: &HandleId)
        requires { kind_at self.old id.now ≡ Some Kind.RequestMutUninit }
        ensures { (elements : List QB.Item) × IsSomeAnd (option_and_then request_in (handle_at self.old id.now))
            (λ m. m.content.asked_len ≡ length elements)
            × (self.new ≡ with_changed (with_changed self.old id.now (with_request_content (with_elements elements)))
            id.now after_init) }
    {
        let place = self.parts.locate(id);
        complete_request_at(&mut self.parts, id.number(), place);
    }
}
