//! Queries of ports and handles. None changes the core.
ghost use Rattle.std.specs.Prelude.{◌≡◌, false, nat_lt, length, None, Some, IsSome, IsSomeAnd, if◌then◌else◌, option_and_then};
ghost use Rattle.rr_laws.specs.Complete.{HasComplete};
ghost use Rattle.rr_protocol.specs.Counts.{is_alive};
ghost use Rattle.rr_protocol.specs.Messages.{request_in, response_in};
ghost use Rattle.rr_protocol.specs.Queries.{kind_at};
ghost use Rattle.rr_protocol.specs.State.{handle_at, pending_at, active_at, is_client_value, is_server_value};

use crate::connected::is_answerable;
use crate::kinds::{kind_of, port_kind_of};
use crate::state::Core;
use rr_protocol::{BackpressureFn, Kind};
use rr_slots::Body;
use rr_store::HandleId;

impl<QB: Body, QH: Default + Drop, PB: Body, PH: Default + Drop, K: BackpressureFn> Core<
    QB,
    QH,
    PB,
    PH,
    K,
> {
    /// Returns the kind of a number: a client or a server whose value lives, or a handle. Returns `None` if it names
    /// nothing. Tries the place in the id, then the ports in O(log ports), and searches the table only if the id is
    /// wrong or the number names nothing. Not in iceoryx2.
    #[inline(always)]
    pub fn kind(&self, id: &HandleId) -> Option<Kind>
        ensures { result ≡ kind_at self.now id.now }
    {
        kind_of(&self.parts, id.number(), id.place())
    }

    /// Returns the kind of a port's number: a client or a server whose value lives. Returns `None` for any other
    /// number, even a handle's. Takes O(log ports), and never searches the table. Not in iceoryx2.
    #[inline(always)]
    pub fn port_kind(&self, number: u64) -> Option<Kind>
        ensures { result ≡ (if is_client_value self.now number then Some Kind.Client else if is_server_value self.now
            number then Some Kind.Server else None) }
    {
        port_kind_of(&self.parts, number)
    }

    /// Returns the body of a handle's request, as far as it was written. After iceoryx2's `payload` of `RequestMut`,
    /// `PendingResponse` and `ActiveRequest`.
    #[inline(always)]
    pub fn request_body(&self, id: &HandleId) -> &QB
        requires { IsSome (option_and_then request_in (handle_at self.now id.now)) }
        ensures asked { IsSomeAnd (option_and_then request_in (handle_at self.now id.now))
            (λ m. QB.asked_len result.now ≡ m.content.asked_len) }
        ensures elements { IsSomeAnd (option_and_then request_in (handle_at self.now id.now))
            (λ m. QB.elements result.now ≡ m.content.elements) }

        // The payload of every handle but a `RequestMutUninit` is complete.
        ensures complete { IsSomeAnd (handle_at self.now id.now) HasComplete }
    {
        let entry = self.parts.look_up(id);
        self.parts.clients.body(entry.sender, entry.slot)
    }

    /// Returns the body of a handle's response, as far as it was written. After iceoryx2's `payload` of `ResponseMut`
    /// and `Response`.
    #[inline(always)]
    pub fn response_body(&self, id: &HandleId) -> &PB
        requires { IsSome (option_and_then response_in (handle_at self.now id.now)) }
        ensures asked { IsSomeAnd (option_and_then response_in (handle_at self.now id.now))
            (λ m. PB.asked_len result.now ≡ m.content.asked_len) }
        ensures elements { IsSomeAnd (option_and_then response_in (handle_at self.now id.now))
            (λ m. PB.elements result.now ≡ m.content.elements) }

        // The payload of every handle but a `ResponseMutUninit` is complete.
        ensures complete { IsSomeAnd (handle_at self.now id.now) HasComplete }
    {
        let entry = self.parts.look_up(id);
        self.parts.servers.body(entry.sender, entry.slot)
    }

    /// Returns whether a connected server may still answer a pending response's request. Reads each connected server
    /// once. After iceoryx2's `PendingResponse::is_connected`.
    #[inline(always)]
    pub fn is_pending_connected(&self, id: &HandleId) -> bool
        requires { kind_at self.now id.now ≡ Some Kind.PendingResponse }
        ensures { IsSomeAnd (pending_at self.now id.now) (λ pending. result ≡ nat_lt 0 (length pending.servers)) }
    {
        let entry = self.parts.look_up(id);
        is_answerable(&self.parts, entry.sender, entry.slot)
    }

    /// Returns whether the pending response of an active request's request lives. Reads the only place where that
    /// handle can be. After iceoryx2's `ActiveRequest::is_connected`.
    #[inline(always)]
    pub fn is_active_connected(&self, id: &HandleId) -> bool
        requires { kind_at self.now id.now ≡ Some Kind.ActiveRequest }
        ensures { IsSomeAnd (active_at self.now id.now) (λ active. result ≡ is_alive self.now active.message.number) }
    {
        let entry = self.parts.look_up(id);
        let details = self.parts.clients.details(entry.sender, entry.slot);
        let own = self.parts.clients.own_place(entry.sender, entry.slot);
        match self.parts.table.get_at(details.number, own) {
            Some(request) => request.stage.is_pending(),
            None => false,
        }
    }

    /// Returns the number of the request that a server received as an active request. Not in iceoryx2, which has no
    /// numbers of requests.
    #[inline(always)]
    pub fn request_number(&self, id: &HandleId) -> u64
        requires { IsSome (active_at self.now id.now) }
        ensures { IsSomeAnd (active_at self.now id.now) (λ active. result ≡ active.message.number) }
    {
        let entry = self.parts.look_up(id);
        self.parts.clients.details(entry.sender, entry.slot).number
    }
}
