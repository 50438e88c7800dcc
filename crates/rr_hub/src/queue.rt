//! Queries of queues: whether one has an entry, and whether one takes a message. None changes the core.
ghost use Rattle.std.specs.Prelude.{◌≡◌, ◌↔◌, Some, None, IsSomeAnd, IsTrue};
ghost use Rattle.rr_protocol.specs.Queries.{HasRequests, HasResponse, kind_at};
ghost use Rattle.rr_protocol.specs.Sends.{is_request_deliverable, is_response_deliverable, is_response_refused, request_send_refusal};
ghost use Rattle.rr_protocol.specs.State.{IsRequestMutAnd, IsResponseMutAnd, handle_at, pending_at, request_at, response_at};

use crate::state::Core;
use rr_protocol::{BackpressureFn, Kind, RequestSendError};
use rr_sending::{is_response_refused_at, request_refusal_at, takes_request, takes_response};
use rr_slots::Body;
use rr_store::HandleId;

impl<QB: Body, QH: Default + Drop, PB: Body, PH: Default + Drop, K: BackpressureFn> Core<
    QB,
    QH,
    PB,
    PH,
    K,
> {
    /// Returns whether a request is queued for a server whose value lives, even if nobody waits for its answer. Takes
    /// O(log servers), and polls each client's sender at most once, including those of clients that left. After
    /// iceoryx2's `Server::has_requests`.
    #[inline(always)]
    pub fn has_requests(&self, server: u64) -> bool
        requires { kind_at self.now server ≡ Some Kind.Server }
        ensures waits { IsTrue result ↔ HasRequests self.now server }

        // A server's number is no handle's.
        ensures apart { handle_at self.now server ≡ None }
    {
        let index = self.parts.servers.index_of(server);
        let receiver = self.parts.servers.receiver_of_port(index);
        self.parts.clients.is_waiting(receiver, 0)
    }

    /// Returns whether a response is queued for a pending response. Polls each server's sender at most once,
    /// including those of servers that left. After iceoryx2's `PendingResponse::has_response`.
    #[inline(always)]
    pub fn has_response(&self, id: &HandleId) -> bool
        requires { kind_at self.now id.now ≡ Some Kind.PendingResponse }
        ensures { IsSomeAnd (pending_at self.now id.now) (λ pending. IsTrue result ↔ HasResponse self.now pending) }
    {
        let entry = self.parts.look_up(id);
        let receiver = self.parts.clients.receiver_of(entry.sender);
        self.parts.servers.is_waiting(receiver, entry.slot)
    }

    /// Returns whether each queue that a request would reach takes it: none is full, or full ones may overflow. Reads
    /// each connected server at most once. Not in iceoryx2.
    #[inline(always)]
    pub fn is_request_deliverable(&self, id: &HandleId) -> bool
        requires { kind_at self.now id.now ≡ Some Kind.RequestMut }
        ensures { IsSomeAnd (request_at self.now id.now) (λ m. result ≡ is_request_deliverable self.now m) }
    {
        let entry = self.parts.look_up(id);
        takes_request(&self.parts, entry.sender)
    }

    /// Returns whether the queue that a response would reach, if any, takes it: it is not full, or may overflow.
    /// Reads the only place where its request's handle can be, and one queue. Not in iceoryx2.
    #[inline(always)]
    pub fn is_response_deliverable(&self, id: &HandleId) -> bool
        requires { kind_at self.now id.now ≡ Some Kind.ResponseMut }
        ensures { IsSomeAnd (response_at self.now id.now) (λ m. result ≡ is_response_deliverable self.now m) }
    {
        let entry = self.parts.look_up(id);
        let details = self.parts.servers.details(entry.sender, entry.slot);
        let reach = self
            .parts
            .clients
            .reached_receiver(&self.parts.table, details);
        takes_response(&self.parts, entry.sender, details.channel, reach)
    }

    /// Returns the first reason that refuses to send a request that is ready, or `None` if it would be sent. Reads
    /// each connected server at most twice. Not in iceoryx2.
    #[inline(always)]
    pub fn request_send_refusal(&self, id: &HandleId) -> Option<RequestSendError>
        requires { kind_at self.now id.now ≡ Some Kind.RequestMut }
        ensures { IsRequestMutAnd self.now id.now (λ client message.
            result ≡ request_send_refusal K.action self.now client message) }
    {
        let place = self.parts.locate(id);
        request_refusal_at(&self.parts, id.number(), place)
    }

    /// Returns whether a send of a response that is ready would be refused. Reads the only place where its request's
    /// handle can be, and one queue. Not in iceoryx2.
    #[inline(always)]
    pub fn is_response_refused(&self, id: &HandleId) -> bool
        requires { kind_at self.now id.now ≡ Some Kind.ResponseMut }
        ensures { IsResponseMutAnd self.now id.now (λ server message.
            result ≡ is_response_refused K.action self.now server message) }
    {
        let place = self.parts.locate(id);
        is_response_refused_at(&self.parts, id.number(), place)
    }
}
