//! Sends of loaned messages, and blocking sends.
ghost use Rattle.std.specs.Prelude.{◌≡◌};
ghost use mathlib.Core.List.{IsPrefix};
ghost use Rattle.rr_shared_ports.specs.Words.{SendsPending, empty_hub, MakesCall, SendsResponse, TriesRequest, TriesResponse, WaitsToSend};
ghost use Rattle.rr_protocol.specs.declared.error.RequestSendError.TheVariants as request_send;
ghost use Rattle.rr_protocol.specs.declared.error.SendError.TheVariants as send;

use crate::deadline::Never;
use crate::waking::Change;
use crate::{Claimed, Header, Naming, Seat, SharedPorts, WaitError};
use rr_ports::{
    BackpressureFn, Body, Hub, PendingResponse, Refused, RequestMut, RequestSendError, ResponseMut,
    SendError,
};
use std::sync::Wait;

impl<N: Naming, QB: Body> Claimed<N, RequestMut<QB>> {
    /// Sends the request to all connected servers. After `RequestMut::send` of `rr_ports`.
    ///
    /// # Errors
    ///
    /// As `RequestMut::send`: the request is released then.
    pub fn send<QH: Header, PB: Body, PH: Header, K: BackpressureFn>(
        self,
        hub: &SharedPorts<N, Hub<QB, QH, PB, PH, K>>,
        rt: &impl Wait,
        seat: &mut Seat<N, Hub<QB, QH, PB, PH, K>>,
    ) -> Result<Claimed<N, PendingResponse<QB>>, RequestSendError>
        ensures { MakesCall (empty_hub N.limits N.node_id)
            (λ before after. SendsPending K.action before self result after) seat.old seat.new }
    {
        hub.turned(
            rt,
            seat,
            self,
            &[Change::RequestQueued],
            |handle, ports| handle.send(ports),
        )
    }
}

impl<N: Naming, PB: Body> Claimed<N, ResponseMut<PB>> {
    /// Sends the response to its request. After `ResponseMut::send` of `rr_ports`.
    ///
    /// # Errors
    ///
    /// As `ResponseMut::send`: the response is released then.
    pub fn send<QB: Body, QH: Header, PH: Header, K: BackpressureFn>(
        self,
        hub: &SharedPorts<N, Hub<QB, QH, PB, PH, K>>,
        rt: &impl Wait,
        seat: &mut Seat<N, Hub<QB, QH, PB, PH, K>>,
    ) -> Result<(), SendError>
        ensures { MakesCall (empty_hub N.limits N.node_id)
            (λ before after. SendsResponse K.action before self result after) seat.old seat.new }
    {
        hub.ended(
            rt,
            seat,
            self,
            &[Change::ResponseQueued, Change::ServerLeft],
            |handle, ports| handle.send(ports),
        )
    }
}

/// The result of a blocking send of a request.
type Posed<N, QB> = Result<
    Claimed<N, PendingResponse<QB>>,
    Refused<Claimed<N, RequestMut<QB>>, WaitError<RequestSendError>>,
>;

impl<N: Naming, QB: Body> Claimed<N, RequestMut<QB>> {
    /// Sends the request; blocks until each full queue that a send would not skip has room. Not in iceoryx2, whose
    /// `send` blocks where the strategy is `RetryUntilDelivered`.
    ///
    /// # Errors
    ///
    /// `message` is the request, with its content. `error` is
    ///
    /// - `Call` as `try_send`, but for `UnableToDeliver`, on which it waits.
    /// - `Closed` if `close` was called, and there is no room.
    pub fn send_wait<QH: Header, PB: Body, PH: Header, K: BackpressureFn>(
        self,
        hub: &SharedPorts<N, Hub<QB, QH, PB, PH, K>>,
        rt: &impl Wait,
        seat: &mut Seat<N, Hub<QB, QH, PB, PH, K>>,
    ) -> Posed<N, QB>
        ensures same { seat.new.0 ≡ seat.old.0 }
        ensures seen { IsPrefix seat.old.1 seat.new.1 }
        ensures call { WaitsToSend (empty_hub N.limits N.node_id)
            (λ sent before after. TriesRequest K.action before self sent after)
            (request_send.SendError send.UnableToDeliver) result seat.new }
    {
        let _waiter = hub.waking.room.enter();
        let mut request = self;
        for _ in rt.forever() {
            let turns = hub.waking.room.turns();
            let pause = hub.waking.pause(rt, &Never);
            let refused = match request.try_send(hub, rt, seat) {
                Ok(pending) => return Ok(pending),
                Err(refused) => refused,
            };
            let Refused { message, error } = refused;
            let RequestSendError::SendError(SendError::UnableToDeliver) = error else {
                let error = WaitError::Call(error);
                return Err(Refused { message, error });
            };
            match pause {
                Ok(pause) => hub.waking.room.wait(rt, turns, pause),
                Err(error) => return Err(Refused { message, error }),
            }
            request = message;
        }
        unreachable!()
    }
}

/// The result of a blocking send of a response.
type Offered<N, PB> = Result<(), Refused<Claimed<N, ResponseMut<PB>>, WaitError<SendError>>>;

impl<N: Naming, PB: Body> Claimed<N, ResponseMut<PB>> {
    /// Sends the response; blocks until the queue has room, unless a send would skip it. Not in iceoryx2, whose
    /// `send` blocks where the strategy is `RetryUntilDelivered`.
    ///
    /// # Errors
    ///
    /// `message` is the response, with its content. `error` is
    ///
    /// - `Closed` if `close` was called, and there is no room.
    pub fn send_wait<QB: Body, QH: Header, PH: Header, K: BackpressureFn>(
        self,
        hub: &SharedPorts<N, Hub<QB, QH, PB, PH, K>>,
        rt: &impl Wait,
        seat: &mut Seat<N, Hub<QB, QH, PB, PH, K>>,
    ) -> Offered<N, PB>
        ensures same { seat.new.0 ≡ seat.old.0 }
        ensures seen { IsPrefix seat.old.1 seat.new.1 }
        ensures call { WaitsToSend (empty_hub N.limits N.node_id)
            (λ sent before after. TriesResponse K.action before self sent after) send.UnableToDeliver result seat.new }
    {
        let _waiter = hub.waking.room.enter();
        let mut response = self;
        for _ in rt.forever() {
            let turns = hub.waking.room.turns();
            let pause = hub.waking.pause(rt, &Never);
            let refused = match response.try_send(hub, rt, seat) {
                Ok(()) => return Ok(()),
                Err(refused) => refused,
            };
            let Refused { message, error: _ } = refused;
            match pause {
                Ok(pause) => hub.waking.room.wait(rt, turns, pause),
                Err(error) => return Err(Refused { message, error }),
            }
            response = message;
        }
        unreachable!()
    }
}
