//! Releases of ports and of handles.
ghost use Rattle.std.specs.Prelude.{◌≡◌, ◌⊎◌, IsSome, IsSomeAnd, Some, option_and_then};
ghost use Rattle.rr_laws.specs.Complete.{HasComplete};
ghost use Rattle.rr_protocol.specs.Messages.{response_in};
ghost use Rattle.rr_slots.specs.Elements.{option_elements};
ghost use Rattle.rr_protocol.specs.declared.kind.Kind.TheVariants as kind;
ghost use Rattle.rr_protocol.specs.Queries.{kind_at};
ghost use Rattle.rr_protocol.specs.Releases.{after_release};
ghost use Rattle.rr_protocol.specs.State.{handle_at};

use crate::state::Core;
use rr_protocol::BackpressureFn;
use rr_releasing::{
    release_active_at, release_at, release_client, release_pending_at, release_received_at,
    release_request_at, release_response_loan_at, release_server, take_received_at,
};
use rr_slots::Body;
use rr_store::HandleId;

impl<QB: Body, QH: Default + Drop, PB: Body, PH: Default + Drop, K: BackpressureFn> Core<
    QB,
    QH,
    PB,
    PH,
    K,
> {
    /// Releases a client. Its number names nothing afterwards. The client stays connected as long as one of its
    /// handles lives, and leaves with the last of them: entries for it are dropped, and requests that it sent and no
    /// server received are moved to the end of each server's list of expired connections, which drops its oldest if
    /// it is full. A server keeps such requests only with fire-and-forget. Takes no memory. Replaces the `Drop` of
    /// iceoryx2's `Client`.
    pub fn release_client(&mut self, client: u64)
        requires { kind_at self.old client ≡ Some kind.Client }
        ensures { self.new ≡ after_release self.old client }
    {
        release_client(&mut self.parts, client);
    }

    /// Releases a server. Its number names nothing afterwards. The server stays connected as long as one of its
    /// handles lives, and leaves with the last of them: entries for it are dropped, and responses that it sent and no
    /// client received are moved to the end of each client's list of expired connections, which drops its oldest if
    /// it is full. Takes no memory. Replaces the `Drop` of iceoryx2's `Server`.
    pub fn release_server(&mut self, server: u64)
        requires { kind_at self.old server ≡ Some kind.Server }
        ensures { self.new ≡ after_release self.old server }
    {
        release_server(&mut self.parts, server);
    }

    /// Releases a handle of any kind. Its message is dropped with its last handle or entry. A port whose value was
    /// released leaves with its last handle.
    ///
    /// A request or a response on loan is released without being sent. A pending response takes the queued responses
    /// on its channel with it, and nobody waits for the request any more. An active request's server no longer
    /// answers it, except with responses that are on loan already. Reads one place for the active request of a
    /// response on loan, takes O(log servers) for an active request, and polls the sender of each server for a
    /// pending response, including those of servers that left, until a creation reuses them. Takes no memory.
    /// Replaces the `Drop` of iceoryx2's handles.
    #[inline(always)]
    pub fn release(&mut self, id: &HandleId)
        requires { IsSome (handle_at self.old id.now) }
        ensures { self.new ≡ after_release self.old id.now }
    {
        let place = self.parts.locate(id);
        release_at(&mut self.parts, id.number(), place);
    }

    /// Releases a pending response, as `release` does, without reading its kind. Replaces the `Drop` of iceoryx2's
    /// `PendingResponse`.
    #[inline(always)]
    pub fn release_pending(&mut self, id: &HandleId)
        requires { kind_at self.old id.now ≡ Some kind.PendingResponse }
        ensures { self.new ≡ after_release self.old id.now }
    {
        let place = id.place();
        if self.parts.is_place_of(id.number(), place) {
            release_pending_at(&mut self.parts, id.number(), place);
        } else {
            let place = self.parts.locate(id);
            release_pending_at(&mut self.parts, id.number(), place);
        }
    }

    /// Releases an active request, as `release` does, without reading its kind. Replaces the `Drop` of iceoryx2's
    /// `ActiveRequest`.
    #[inline(always)]
    pub fn release_active(&mut self, id: &HandleId)
        requires { kind_at self.old id.now ≡ Some kind.ActiveRequest }
        ensures { self.new ≡ after_release self.old id.now }
    {
        let place = id.place();
        if self.parts.is_place_of(id.number(), place) {
            release_active_at(&mut self.parts, id.number(), place);
        } else {
            let place = self.parts.locate(id);
            release_active_at(&mut self.parts, id.number(), place);
        }
    }

    /// Releases a response that was received, as `release` does, without reading its kind. Replaces the `Drop` of
    /// iceoryx2's `Response`.
    #[inline(always)]
    pub fn release_response(&mut self, id: &HandleId)
        requires { kind_at self.old id.now ≡ Some kind.Response }
        ensures { self.new ≡ after_release self.old id.now }
    {
        let place = id.place();
        if self.parts.is_place_of(id.number(), place) {
            release_received_at(&mut self.parts, id.number(), place);
        } else {
            let place = self.parts.locate(id);
            release_received_at(&mut self.parts, id.number(), place);
        }
    }

    /// Releases a request on loan, as `release` does, without reading its kind. Replaces the `Drop` of iceoryx2's
    /// `RequestMutUninit` and `RequestMut`.
    #[inline(always)]
    pub fn release_request(&mut self, id: &HandleId)
        requires { (kind_at self.old id.now ≡ Some kind.RequestMutUninit)
            ⊎ (kind_at self.old id.now ≡ Some kind.RequestMut) }
        ensures { self.new ≡ after_release self.old id.now }
    {
        let place = self.parts.locate(id);
        release_request_at(&mut self.parts, id.number(), place);
    }

    /// Releases a response on loan, as `release` does, without reading its kind. Replaces the `Drop` of iceoryx2's
    /// `ResponseMutUninit` and `ResponseMut`.
    #[inline(always)]
    pub fn release_response_loan(&mut self, id: &HandleId)
        requires { (kind_at self.old id.now ≡ Some kind.ResponseMutUninit)
            ⊎ (kind_at self.old id.now ≡ Some kind.ResponseMut) }
        ensures { self.new ≡ after_release self.old id.now }
    {
        let place = self.parts.locate(id);
        release_response_loan_at(&mut self.parts, id.number(), place);
    }
}

impl<QB: Body, QH: Default + Drop, T: Drop, PH: Default + Drop, K: BackpressureFn> Core<
    QB,
    QH,
    Option<T>,
    PH,
    K,
> {
    /// Releases a response of one element that was received, as `release_response` does, and returns its element. Not
    /// in iceoryx2.
    #[inline(always)]
    pub fn take_response(&mut self, id: &HandleId) -> Option<T>
        requires { kind_at self.old id.now ≡ Some kind.Response }
        ensures released { self.new ≡ after_release self.old id.now }
        ensures asked { IsSomeAnd (option_and_then response_in (handle_at self.old id.now))
            (λ m. 1 ≡ m.content.asked_len) }
        ensures elements { IsSomeAnd (option_and_then response_in (handle_at self.old id.now))
            (λ m. option_elements result ≡ m.content.elements) }

        // A received message is complete.
        ensures complete { IsSomeAnd (handle_at self.old id.now) HasComplete }
    {
        let place = id.place();
        if self.parts.is_place_of(id.number(), place) {
            take_received_at(&mut self.parts, id.number(), place)
        } else {
            let place = self.parts.locate(id);
            take_received_at(&mut self.parts, id.number(), place)
        }
    }
}
