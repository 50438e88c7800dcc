//! Sends.
ghost use Rattle.std.specs.Prelude.{◌≡◌, ◌<◌, ◌∷◌, [], IsTrue, Some};
ghost use Rattle.rr_hub.specs.Copies.{SendsRequestAtOnce, SendsResponseAtOnce};
ghost use Rattle.rr_protocol.specs.declared.kind.Kind.TheVariants as kind;
ghost use Rattle.rr_protocol.specs.Queries.{kind_at};
ghost use Rattle.rr_protocol.specs.Sends.{SendsRequest, SendsResponse};
ghost use Rattle.rr_protocol.specs.State.{numbers_left};
ghost use Rattle.rr_slots.specs.Families.{takes_len};

use crate::at_once::{send_request_at_once, send_response_at_once};
use crate::state::Core;
use rr_protocol::{BackpressureFn, RequestSendError, SendError};
use rr_sending::{send_request_at, send_response_at};
use rr_slots::{Body, WriteBody};
use rr_store::HandleId;

impl<QB: Body, QH: Default + Drop, PB: Body, PH: Default + Drop, K: BackpressureFn> Core<
    QB,
    QH,
    PB,
    PH,
    K,
> {
    /// Sends a request to every connected server, and returns how many queues took it. The request becomes a pending
    /// response, under the same number. Takes O(servers), and O(log clients) where a queue is full and may not
    /// overflow. Takes no memory. After iceoryx2's `RequestMut::send`.
    ///
    /// # Errors
    ///
    /// An error releases the request, and no queue has it: each answer about a full queue comes before the first
    /// delivery.
    /// - `ExceedsMaxActiveRequests` if the client has its maximum of pending responses.
    /// - `SendError(UnableToDeliver)` if the queue to some server is full, may not overflow, and is not skipped.
    #[inline(always)]
    pub fn send_request(&mut self, id: &HandleId) -> Result<usize, RequestSendError>
        requires { kind_at self.old id.now ≡ Some kind.RequestMut }
        ensures { SendsRequest K.action self.old id.now result self.new }
    {
        let place = id.place();
        if self.parts.is_place_of(id.number(), place) {
            send_request_at(&mut self.parts, id.number(), place)
        } else {
            let place = self.parts.locate(id);
            send_request_at(&mut self.parts, id.number(), place)
        }
    }

    /// Sends a response to its request, if that is still pending at a connected client, and releases the handle.
    /// Otherwise the response is only released. Reads one place each for the request and the active request, and one
    /// queue; takes O(log servers) if that queue is full and may not overflow. Takes no memory. After iceoryx2's
    /// `ResponseMut::send`.
    ///
    /// # Errors
    ///
    /// - `UnableToDeliver` if the queue to the client's channel is full, may not overflow, and is not skipped. The
    ///   response is released, and the queue is unchanged.
    #[inline(always)]
    pub fn send_response(&mut self, id: &HandleId) -> Result<(), SendError>
        requires { kind_at self.old id.now ≡ Some kind.ResponseMut }
        ensures { SendsResponse K.action self.old id.now result self.new }
    {
        let place = id.place();
        if self.parts.is_place_of(id.number(), place) {
            send_response_at(&mut self.parts, id.number(), place)
        } else {
            self.send_response_far(id)
        }
    }

    /// Sends a response whose handle is not in the place of its id. Searches the table.
    #[cold]
    fn send_response_far(&mut self, id: &HandleId) -> Result<(), SendError>
        requires { kind_at self.old id.now ≡ Some kind.ResponseMut }
        ensures { SendsResponse K.action self.old id.now result self.new }
    {
        let place = self.parts.locate(id);
        send_response_at(&mut self.parts, id.number(), place)
    }
}

impl<QB: WriteBody, QH: Default + Drop, PB: Body, PH: Default + Drop, K: BackpressureFn> Core<
    QB,
    QH,
    PB,
    PH,
    K,
> {
    /// Loans a request of one element, writes the element and sends it, as `loan_request`, `write_request` and
    /// `send_request` do in sequence. Makes its handle only once, as a pending response. Takes no memory. After
    /// iceoryx2's `Client::send_copy`.
    ///
    /// # Errors
    ///
    /// - `SendError(LoanError(..))` as `loan_request`. The hub is unchanged, and the element is dropped.
    /// - `ExceedsMaxActiveRequests` and `SendError(UnableToDeliver)` as `send_request`. The request is released.
    #[inline(always)]
    pub fn send_request_copy(
        &mut self,
        client: u64,
        element: QB::Item,
    ) -> Result<HandleId, RequestSendError>
        requires kind { kind_at self.old client ≡ Some kind.Client }
        requires number { 0 < numbers_left self.old }
        requires len { IsTrue (takes_len QB.family 1) }
        requires one { (body : QB) → QB.asked_len body ≡ 1 }
        ensures { SendsRequestAtOnce QH.is_default K.action self.old client 1 (element ∷ []) result self.new }
    {
        send_request_at_once(&mut self.parts, client, element)
    }
}

impl<QB: Body, QH: Default + Drop, PB: WriteBody, PH: Default + Drop, K: BackpressureFn> Core<
    QB,
    QH,
    PB,
    PH,
    K,
> {
    /// Loans a response of one element, writes the element and sends it, as `loan_response`, `write_response` and
    /// `send_response` do in sequence. The response gets no handle. Takes no memory. After iceoryx2's
    /// `ActiveRequest::send_copy`.
    ///
    /// # Errors
    ///
    /// - `LoanError(..)` as `loan_response`. The hub is unchanged, and the element is dropped.
    /// - `UnableToDeliver` as `send_response`. The response is released.
    #[inline(always)]
    pub fn send_response_copy(
        &mut self,
        active: &HandleId,
        element: PB::Item,
    ) -> Result<(), SendError>
        requires kind { kind_at self.old active.now ≡ Some kind.ActiveRequest }
        requires number { 0 < numbers_left self.old }
        requires len { IsTrue (takes_len PB.family 1) }
        requires one { (body : PB) → PB.asked_len body ≡ 1 }
        ensures { SendsResponseAtOnce PH.is_default K.action self.old active.now 1 (element ∷ []) result self.new }
    {
        let place = active.place();
        if self.parts.is_place_of(active.number(), place) {
            send_response_at_once(&mut self.parts, active.number(), place, element)
        } else {
            let place = self.parts.locate(active);
            send_response_at_once(&mut self.parts, active.number(), place, element)
        }
    }
}
