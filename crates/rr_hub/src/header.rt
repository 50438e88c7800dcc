//! Queries of headers and origins of messages. None changes the core.
ghost use Rattle.std.specs.Prelude.{◌≡◌, Some, IsSome, IsSomeAnd, option_and_then};
ghost use Rattle.rr_protocol.specs.Messages.{request_in, response_in};
ghost use Rattle.rr_protocol.specs.Queries.{kind_at, request_header, response_header};
ghost use Rattle.rr_protocol.specs.State.{active_at, handle_at};

use crate::state::Core;
use rr_protocol::{
    BackpressureFn, Kind, RequestHeader, ResponseHeader, UniqueClientId, UniqueServerId,
};
use rr_slots::Body;
use rr_store::HandleId;

impl<QB: Body, QH: Default + Drop, PB: Body, PH: Default + Drop, K: BackpressureFn> Core<
    QB,
    QH,
    PB,
    PH,
    K,
> {
    /// Returns the header of a handle's request. Takes one look-up. After iceoryx2's `header` of `RequestMut`,
    /// `PendingResponse` and `ActiveRequest`.
    #[inline(always)]
    pub fn request_header(&self, id: &HandleId) -> RequestHeader
        requires { IsSome (option_and_then request_in (handle_at self.now id.now)) }
        ensures { IsSomeAnd (option_and_then request_in (handle_at self.now id.now))
            (λ m. result ≡ request_header self.now m) }
    {
        let entry = self.parts.look_up(id);
        let details = self.parts.clients.details(entry.sender, entry.slot);
        let asked_len = self
            .parts
            .clients
            .body(entry.sender, entry.slot)
            .asked_len();
        RequestHeader {
            client_id: UniqueClientId(details.client),
            request_id: details.request_id,
            number_of_elements: asked_len as u64,
            node_id: self.parts.node_id,
        }
    }

    /// Returns the header of a handle's response. Takes one look-up. After iceoryx2's `header` of `ResponseMut` and
    /// `Response`.
    #[inline(always)]
    pub fn response_header(&self, id: &HandleId) -> ResponseHeader
        requires { IsSome (option_and_then response_in (handle_at self.now id.now)) }
        ensures { IsSomeAnd (option_and_then response_in (handle_at self.now id.now))
            (λ m. result ≡ response_header self.now m) }
    {
        let entry = self.parts.look_up(id);
        let details = self.parts.servers.details(entry.sender, entry.slot);
        let asked_len = self
            .parts
            .servers
            .body(entry.sender, entry.slot)
            .asked_len();
        ResponseHeader {
            server_id: UniqueServerId(details.server),
            request_id: details.request_id,
            number_of_elements: asked_len as u64,
            node_id: self.parts.node_id,
        }
    }

    /// Returns the user header of a handle's request. Takes one look-up. After iceoryx2's `user_header` of
    /// `RequestMut`, `PendingResponse` and `ActiveRequest`.
    #[inline(always)]
    pub fn request_user_header(&self, id: &HandleId) -> &QH
        requires { IsSome (option_and_then request_in (handle_at self.now id.now)) }
        ensures { IsSomeAnd (option_and_then request_in (handle_at self.now id.now))
            (λ m. result.now ≡ m.content.user_header) }
    {
        let entry = self.parts.look_up(id);
        self.parts.clients.user_header(entry.sender, entry.slot)
    }

    /// Returns the user header of a handle's response. Takes one look-up. After iceoryx2's `user_header` of
    /// `ResponseMut` and `Response`.
    #[inline(always)]
    pub fn response_user_header(&self, id: &HandleId) -> &PH
        requires { IsSome (option_and_then response_in (handle_at self.now id.now)) }
        ensures { IsSomeAnd (option_and_then response_in (handle_at self.now id.now))
            (λ m. result.now ≡ m.content.user_header) }
    {
        let entry = self.parts.look_up(id);
        self.parts.servers.user_header(entry.sender, entry.slot)
    }

    /// Returns the client that sent an active request's request. Takes one look-up. After iceoryx2's
    /// `ActiveRequest::origin`.
    #[inline(always)]
    pub fn request_origin(&self, id: &HandleId) -> UniqueClientId
        requires { kind_at self.now id.now ≡ Some Kind.ActiveRequest }
        ensures { IsSomeAnd (active_at self.now id.now) (λ active. result.0 ≡ active.message.client) }
    {
        let entry = self.parts.look_up(id);
        UniqueClientId(self.parts.clients.details(entry.sender, entry.slot).client)
    }

    /// Returns the server that sent a received response. Takes one look-up. After iceoryx2's `Response::origin`.
    #[inline(always)]
    pub fn response_origin(&self, id: &HandleId) -> UniqueServerId
        requires { kind_at self.now id.now ≡ Some Kind.Response }
        ensures { IsSomeAnd (option_and_then response_in (handle_at self.now id.now)) (λ m. result.0 ≡ m.server) }
    {
        let entry = self.parts.look_up(id);
        UniqueServerId(self.parts.servers.details(entry.sender, entry.slot).server)
    }
}
