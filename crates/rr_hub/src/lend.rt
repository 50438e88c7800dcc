//! Lending the content of a loaned message for writing.
ghost use Rattle.std.specs.Prelude.{◌≡◌, ◌<◌, ◌⊎◌, length, Some, IsSomeAnd, option_and_then, slice_get};
ghost use Rattle.std.specs.Borrow.{sem};
ghost use Rattle.rr_slots.specs.Elements.{option_elements};
ghost use Rattle.rr_protocol.specs.Messages.{request_in, response_in};
ghost use Rattle.rr_protocol.specs.Queries.{kind_at};
ghost use Rattle.rr_protocol.specs.State.{handle_at};

use crate::state::Core;
use rr_protocol::{BackpressureFn, Kind};
use rr_slots::{Body, LendBody, WriteBody};
use rr_store::HandleId;

impl<QB: WriteBody, QH: Default + Drop, PB: Body, PH: Default + Drop, K: BackpressureFn> Core<
    QB,
    QH,
    PB,
    PH,
    K,
> {
    ghost use Rattle.rr_hub.specs.CoreLends.{lends_request_element};

    /// Lends an element of a request that was not sent.
    ///
    /// After iceoryx2's `RequestMut::payload_mut`.
    pub fn request_element_mut(&mut self, id: &HandleId, index: usize) -> &mut QB::Item
        requires kind { (kind_at self.old id.now ≡ Some Kind.RequestMutUninit)
            ⊎ (kind_at self.old id.now ≡ Some Kind.RequestMut) }
        requires inside { IsSomeAnd (option_and_then request_in (handle_at self.old id.now))
            (λ m. index < length m.content.elements) }
        ensures* lends { sem 𝓛 (lends_request_element QB.row QH.row PB.row PH.row K.row QB.Item.row PB.Item.row
            QB.Body QH.Default PB.Body PH.Default K.BackpressureFn self.entry id.now index result) }
        ensures value { IsSomeAnd (option_and_then request_in (handle_at self.old id.now))
            (λ m. slice_get m.content.elements index ≡ Some result.now) }
    {
        let entry = self.parts.look_up(id);
        self.parts
            .clients
            .element_mut(entry.sender, entry.slot, index)
    }
}

impl<QB: Body, QH: Default + Drop, PB: Body, PH: Default + Drop, K: BackpressureFn> Core<
    QB,
    QH,
    PB,
    PH,
    K,
> {
    ghost use Rattle.rr_hub.specs.CoreLends.{lends_request_user_header, lends_response_user_header};

    /// Lends the user header of a request that was not sent.
    ///
    /// After iceoryx2's `RequestMut::user_header_mut`.
    pub fn request_user_header_mut(&mut self, id: &HandleId) -> &mut QH
        requires { (kind_at self.old id.now ≡ Some Kind.RequestMutUninit)
            ⊎ (kind_at self.old id.now ≡ Some Kind.RequestMut) }
        ensures* lends { sem 𝓛 (lends_request_user_header QB.row QH.row PB.row PH.row K.row QB.Item.row PB.Item.row
            QB.Body QH.Default PB.Body PH.Default K.BackpressureFn self.entry id.now result) }
        ensures value { IsSomeAnd (option_and_then request_in (handle_at self.old id.now))
            (λ m. m.content.user_header ≡ result.now) }
    {
        let entry = self.parts.look_up(id);
        self.parts.clients.user_header_mut(entry.sender, entry.slot)
    }

    /// Lends the user header of a response that was not sent.
    ///
    /// After iceoryx2's `ResponseMut::user_header_mut`.
    pub fn response_user_header_mut(&mut self, id: &HandleId) -> &mut PH
        requires { (kind_at self.old id.now ≡ Some Kind.ResponseMutUninit)
            ⊎ (kind_at self.old id.now ≡ Some Kind.ResponseMut) }
        ensures* lends { sem 𝓛 (lends_response_user_header QB.row QH.row PB.row PH.row K.row QB.Item.row PB.Item.row
            QB.Body QH.Default PB.Body PH.Default K.BackpressureFn self.entry id.now result) }
        ensures value { IsSomeAnd (option_and_then response_in (handle_at self.old id.now))
            (λ m. m.content.user_header ≡ result.now) }
    {
        let entry = self.parts.look_up(id);
        self.parts.servers.user_header_mut(entry.sender, entry.slot)
    }
}

impl<QB: Body, QH: Default + Drop, PB: WriteBody, PH: Default + Drop, K: BackpressureFn> Core<
    QB,
    QH,
    PB,
    PH,
    K,
> {
    ghost use Rattle.rr_hub.specs.CoreLends.{lends_response_element};

    /// Lends an element of a response that was not sent.
    ///
    /// After iceoryx2's `ResponseMut::payload_mut`.
    pub fn response_element_mut(&mut self, id: &HandleId, index: usize) -> &mut PB::Item
        requires kind { (kind_at self.old id.now ≡ Some Kind.ResponseMutUninit)
            ⊎ (kind_at self.old id.now ≡ Some Kind.ResponseMut) }
        requires inside { IsSomeAnd (option_and_then response_in (handle_at self.old id.now))
            (λ m. index < length m.content.elements) }
        ensures* lends { sem 𝓛 (lends_response_element QB.row QH.row PB.row PH.row K.row QB.Item.row PB.Item.row
            QB.Body QH.Default PB.Body PH.Default K.BackpressureFn self.entry id.now index result) }
        ensures value { IsSomeAnd (option_and_then response_in (handle_at self.old id.now))
            (λ m. slice_get m.content.elements index ≡ Some result.now) }
    {
        let entry = self.parts.look_up(id);
        self.parts
            .servers
            .element_mut(entry.sender, entry.slot, index)
    }
}

impl<T: Drop, QH: Default + Drop, PB: Body, PH: Default + Drop, K: BackpressureFn> Core<
    Option<T>,
    QH,
    PB,
    PH,
    K,
> {
    ghost use Rattle.rr_hub.specs.CoreLends.{lends_request_option};

    /// Lends the body of a request of one element on loan: the element, or `None` before it was written.
    ///
    /// After iceoryx2's `RequestMutUninit::payload_mut`, which lends a `MaybeUninit`.
    pub fn request_option_mut(&mut self, id: &HandleId) -> &mut Option<T>
        requires { kind_at self.old id.now ≡ Some Kind.RequestMutUninit }
        ensures* lends { sem 𝓛 (lends_request_option T.row QH.row PB.row PH.row K.row PB.Item.row QH.Default PB.Body
            PH.Default K.BackpressureFn self.entry id.now ⟦<Option<T> as Body>⟧ result) }
        ensures value { IsSomeAnd (option_and_then request_in (handle_at self.old id.now))
            (λ m. m.content.elements ≡ option_elements result.now) }
    {
        let entry = self.parts.look_up(id);
        self.parts.clients.option_mut(entry.sender, entry.slot)
    }
}

impl<QB: LendBody, QH: Default + Drop, PB: Body, PH: Default + Drop, K: BackpressureFn> Core<
    QB,
    QH,
    PB,
    PH,
    K,
> {
    ghost use Rattle.rr_hub.specs.CoreLends.{lends_request_slice};

    /// Lends the elements written so far in a request that was not sent.
    ///
    /// After iceoryx2's `RequestMutUninit::payload_mut` and `RequestMut::payload_mut`.
    pub fn request_slice_mut(&mut self, id: &HandleId) -> &mut [QB::Item]
        requires { (kind_at self.old id.now ≡ Some Kind.RequestMutUninit)
            ⊎ (kind_at self.old id.now ≡ Some Kind.RequestMut) }
        ensures* lends { sem 𝓛 (lends_request_slice QB.row QH.row PB.row PH.row K.row QB.Item.row PB.Item.row QB.Body
            QH.Default PB.Body PH.Default K.BackpressureFn self.entry id.now result) }
        ensures value { IsSomeAnd (option_and_then request_in (handle_at self.old id.now))
            (λ m. m.content.elements ≡ result.now) }
    {
        let entry = self.parts.look_up(id);
        self.parts.clients.slice_mut(entry.sender, entry.slot)
    }
}

impl<QB: Body, QH: Default + Drop, T: Drop, PH: Default + Drop, K: BackpressureFn> Core<
    QB,
    QH,
    Option<T>,
    PH,
    K,
> {
    ghost use Rattle.rr_hub.specs.CoreLends.{lends_response_option};

    /// Lends the body of a response of one element on loan: the element, or `None` before it was written.
    ///
    /// After iceoryx2's `ResponseMutUninit::payload_mut`, which lends a `MaybeUninit`.
    pub fn response_option_mut(&mut self, id: &HandleId) -> &mut Option<T>
        requires { kind_at self.old id.now ≡ Some Kind.ResponseMutUninit }
        ensures* lends { sem 𝓛 (lends_response_option QB.row QH.row T.row PH.row K.row QB.Item.row QB.Body QH.Default
            PH.Default K.BackpressureFn self.entry id.now ⟦<Option<T> as Body>⟧ result) }
        ensures value { IsSomeAnd (option_and_then response_in (handle_at self.old id.now))
            (λ m. m.content.elements ≡ option_elements result.now) }
    {
        let entry = self.parts.look_up(id);
        self.parts.servers.option_mut(entry.sender, entry.slot)
    }
}

impl<QB: Body, QH: Default + Drop, PB: LendBody, PH: Default + Drop, K: BackpressureFn> Core<
    QB,
    QH,
    PB,
    PH,
    K,
> {
    ghost use Rattle.rr_hub.specs.CoreLends.{lends_response_slice};

    /// Lends the elements written so far in a response that was not sent.
    ///
    /// After iceoryx2's `ResponseMutUninit::payload_mut` and `ResponseMut::payload_mut`.
    pub fn response_slice_mut(&mut self, id: &HandleId) -> &mut [PB::Item]
        requires { (kind_at self.old id.now ≡ Some Kind.ResponseMutUninit)
            ⊎ (kind_at self.old id.now ≡ Some Kind.ResponseMut) }
        ensures* lends { sem 𝓛 (lends_response_slice QB.row QH.row PB.row PH.row K.row QB.Item.row PB.Item.row QB.Body
            QH.Default PB.Body PH.Default K.BackpressureFn self.entry id.now result) }
        ensures value { IsSomeAnd (option_and_then response_in (handle_at self.old id.now))
            (λ m. m.content.elements ≡ result.now) }
    {
        let entry = self.parts.look_up(id);
        self.parts.servers.slice_mut(entry.sender, entry.slot)
    }
}
