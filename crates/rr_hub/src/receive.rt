//! Receiving.
ghost use Rattle.std.specs.Prelude.{◌≡◌, ◌<◌, None, Some, IfOk, IfSome};
ghost use Rattle.rr_protocol.specs.declared.kind.Kind.TheVariants as kind;
ghost use Rattle.rr_protocol.specs.Queries.{kind_at};
ghost use Rattle.rr_protocol.specs.Receives.{ReceivesRequest, ReceivesResponse};
ghost use Rattle.rr_protocol.specs.State.{numbers_left};

use crate::state::Core;
use rr_protocol::{BackpressureFn, ReceiveError};
use rr_receiving::{receive_request, receive_response_at};
use rr_slots::Body;
use rr_store::HandleId;

impl<QB: Body, QH: Default + Drop, PB: Body, PH: Default + Drop, K: BackpressureFn> Core<
    QB,
    QH,
    PB,
    PH,
    K,
> {
    /// Receives the oldest response in a server's queue on the request's channel. It keeps its number. Returns `None`
    /// if no response is queued. Polls the sender of each server once, including those of servers that left, until a
    /// creation reuses them, and takes no memory. After iceoryx2's `PendingResponse::receive`.
    ///
    /// # Errors
    ///
    /// - `ExceedsMaxBorrows` if every queue that has a response is at its borrow limit. The hub stays as it was.
    #[inline(always)]
    pub fn receive_response(&mut self, id: &HandleId) -> Result<Option<HandleId>, ReceiveError>
        requires { kind_at self.old id.now ≡ Some kind.PendingResponse }
        ensures receives { ReceivesResponse self.old id.now result self.new }
        ensures unnamed { IfOk result (λ handle. IfSome handle (λ number. kind_at self.old number ≡ None)) }
    {
        let place = id.place();
        if self.parts.is_place_of(id.number(), place) {
            receive_response_at(&mut self.parts, id.number(), place)
        } else {
            let place = self.parts.locate(id);
            receive_response_at(&mut self.parts, id.number(), place)
        }
    }

    /// Receives the oldest request of a client for a server whose value lives. It has the next number, of which one
    /// remains. Unless the limits allow fire-and-forget requests, drops requests at the front of a queue whose
    /// pending responses were released. Returns `None` if no request is queued then. Takes O(log servers), polls the
    /// sender of each client at most once, including those of clients that left, until a creation reuses them, and
    /// reads each request that it drops or finds in front. Takes no memory. After iceoryx2's `Server::receive`.
    ///
    /// # Errors
    ///
    /// - `ExceedsMaxBorrows` if every queue that has a request is at its borrow limit. Requests dropped on the way
    ///   stay dropped; nothing else changes.
    #[inline(always)]
    pub fn receive_request(&mut self, server: u64) -> Result<Option<HandleId>, ReceiveError>
        requires kind { kind_at self.old server ≡ Some kind.Server }
        requires number { 0 < numbers_left self.old }
        ensures receives { ReceivesRequest self.old server result self.new }
        ensures unnamed { IfOk result (λ handle. IfSome handle (λ number. kind_at self.old number ≡ None)) }
    {
        receive_request(&mut self.parts, server)
    }
}
