//! Blocking receives. They poll a few times, and then sleep.
ghost use Rattle.std.specs.Prelude.{◌≡◌, [], IfOk, IfSome, None, Ok, Some};
ghost use mathlib.Core.List.{IsPrefix};
ghost use Rattle.rr_shared_ports.specs.Words.{IsFree, Keeps, Names, numbers_left, ReceivesRequest, ReceivesResponse, empty_hub, Answered, EndsInCall, MakesCall, EndsUnanswered, ReceivesOrEnds, Waits};
ghost use Rattle.rr_protocol.specs.declared.kind.Kind.TheVariants as kind;

use crate::deadline::{Deadline, Never, Timeout};
use crate::waking::Change;
use crate::{CallError, Claimed, Header, Naming, Ports, Seat, SharedPorts, WaitError};
use rr_ports::{
    ActiveRequest, BackpressureFn, Body, Hub, PendingResponse, ReceiveError, Response, Server,
};
use std::sync::Wait;
use std::time::{Clock, Duration};

impl<N: Naming, H: Ports> SharedPorts<N, H> {
    /// Closes the hub: wakes all waiters, and from then on a wait that would sleep ends with `Closed`. Other calls
    /// are not affected. Not in iceoryx2.
    pub fn close(&self) {
        self.waking.close();
    }
}

/// The result of a blocking receive by a server.
type Heard<N, QB> = Result<Claimed<N, ActiveRequest<QB>>, WaitError<CallError<ReceiveError>>>;

impl<N: Naming, PB: Body> Claimed<N, Server<PB>> {
    /// Receives a request, and waits until one is queued. Not in iceoryx2.
    ///
    /// # Errors
    ///
    /// - `Call` as `receive`.
    /// - `Closed` if `close` was called, and no request is queued.
    pub fn receive_wait<QB: Body, QH: Header, PH: Header, K: BackpressureFn>(
        &self,
        hub: &SharedPorts<N, Hub<QB, QH, PB, PH, K>>,
        rt: &impl Wait,
        seat: &mut Seat<N, Hub<QB, QH, PB, PH, K>>,
    ) -> Heard<N, QB>
        ensures same { seat.new.0 ≡ seat.old.0 }
        ensures seen { IsPrefix seat.old.1 seat.new.1 }
        ensures call { Waits (empty_hub N.limits N.node_id)
            (Answered numbers_left (λ received before after. ReceivesRequest before self.now received after)) None
            Some result seat.new }
    {
        self.hear(hub, rt, seat, &Never)
    }

    /// Receives a request, and waits until one is queued, or until `most` has passed on the runtime's clock. Not in
    /// iceoryx2.
    ///
    /// # Errors
    ///
    /// - `Call` as `receive`.
    /// - `Closed` if `close` was called, and no request is queued.
    /// - `TimedOut` if the time is over or the clock can't be read, and no request is queued.
    pub fn receive_timeout<R: Wait + Clock, QB: Body, QH: Header, PH: Header, K: BackpressureFn>(
        &self,
        hub: &SharedPorts<N, Hub<QB, QH, PB, PH, K>>,
        rt: &R,
        seat: &mut Seat<N, Hub<QB, QH, PB, PH, K>>,
        most: Duration,
    ) -> Heard<N, QB>
        ensures same { seat.new.0 ≡ seat.old.0 }
        ensures seen { IsPrefix seat.old.1 seat.new.1 }
        ensures call { Waits (empty_hub N.limits N.node_id)
            (Answered numbers_left (λ received before after. ReceivesRequest before self.now received after)) None
            Some result seat.new }
    {
        self.hear(hub, rt, seat, &Timeout::after(rt, most))
    }

    /// Receives a request in a loop that sleeps between its polls.
    fn hear<R: Wait, QB: Body, QH: Header, PH: Header, K: BackpressureFn, D: Deadline<R>>(
        &self,
        hub: &SharedPorts<N, Hub<QB, QH, PB, PH, K>>,
        rt: &R,
        seat: &mut Seat<N, Hub<QB, QH, PB, PH, K>>,
        deadline: &D,
    ) -> Heard<N, QB>
        ensures same { seat.new.0 ≡ seat.old.0 }
        ensures seen { IsPrefix seat.old.1 seat.new.1 }
        ensures call { Waits (empty_hub N.limits N.node_id)
            (Answered numbers_left (λ received before after. ReceivesRequest before self.now received after)) None
            Some result seat.new }
    {
        let sleepers = &hub.waking.requests;
        let _waiter = sleepers.enter();
        for _ in rt.forever() {
            let turns = sleepers.turns();
            let pause = hub.waking.pause(rt, deadline);
            match self.receive(hub, rt, seat) {
                Ok(Some(active)) => return Ok(active),
                Ok(None) => match pause {
                    Ok(pause) => sleepers.wait(rt, turns, pause),
                    Err(error) => return Err(error),
                },
                Err(error) => return Err(WaitError::Call(error)),
            }
        }
        unreachable!()
    }
}

/// The result of a blocking receive by a pending response.
type Answer<N, PB> = Result<Option<Claimed<N, Response<PB>>>, WaitError<ReceiveError>>;

impl<N: Naming, QB: Body> Claimed<N, PendingResponse<QB>> {
    /// Receives a response, and waits until one is queued, or returns `None` once no connected server may still
    /// answer. Not in iceoryx2.
    ///
    /// # Errors
    ///
    /// - `Call` as `receive`.
    /// - `Closed` if `close` was called, and no response is queued.
    pub fn receive_wait<QH: Header, PB: Body, PH: Header, K: BackpressureFn>(
        &self,
        hub: &SharedPorts<N, Hub<QB, QH, PB, PH, K>>,
        rt: &impl Wait,
        seat: &mut Seat<N, Hub<QB, QH, PB, PH, K>>,
    ) -> Answer<N, PB>
        ensures same { seat.new.0 ≡ seat.old.0 }
        ensures seen { IsPrefix seat.old.1 seat.new.1 }
        ensures call { Waits (empty_hub N.limits N.node_id)
            (λ received before after. ReceivesResponse before self.now received after) None (λ received. received)
            result seat.new }
        ensures ended { result ≡ Ok None → EndsInCall (empty_hub N.limits N.node_id) (EndsUnanswered self.now)
            seat.new }
    {
        self.await_response(hub, rt, seat, &Never)
    }

    /// Receives a response, and waits until one is queued, or returns `None` once no connected server may still
    /// answer, or until `most` has passed on the runtime's clock. Not in iceoryx2.
    ///
    /// # Errors
    ///
    /// - `Call` as `receive`.
    /// - `Closed` if `close` was called, and no response is queued.
    /// - `TimedOut` if the time is over or the clock can't be read, and no response is queued.
    pub fn receive_timeout<R: Wait + Clock, QH: Header, PB: Body, PH: Header, K: BackpressureFn>(
        &self,
        hub: &SharedPorts<N, Hub<QB, QH, PB, PH, K>>,
        rt: &R,
        seat: &mut Seat<N, Hub<QB, QH, PB, PH, K>>,
        most: Duration,
    ) -> Answer<N, PB>
        ensures same { seat.new.0 ≡ seat.old.0 }
        ensures seen { IsPrefix seat.old.1 seat.new.1 }
        ensures call { Waits (empty_hub N.limits N.node_id)
            (λ received before after. ReceivesResponse before self.now received after) None (λ received. received)
            result seat.new }
        ensures ended { result ≡ Ok None → EndsInCall (empty_hub N.limits N.node_id) (EndsUnanswered self.now)
            seat.new }
    {
        self.await_response(hub, rt, seat, &Timeout::after(rt, most))
    }

    /// Receives a response in a loop that sleeps between its polls.
    fn await_response<R: Wait, QH: Header, PB: Body, PH: Header, K: BackpressureFn, D: Deadline<R>>(
        &self,
        hub: &SharedPorts<N, Hub<QB, QH, PB, PH, K>>,
        rt: &R,
        seat: &mut Seat<N, Hub<QB, QH, PB, PH, K>>,
        deadline: &D,
    ) -> Answer<N, PB>
        ensures same { seat.new.0 ≡ seat.old.0 }
        ensures seen { IsPrefix seat.old.1 seat.new.1 }
        ensures call { Waits (empty_hub N.limits N.node_id)
            (λ received before after. ReceivesResponse before self.now received after) None (λ received. received)
            result seat.new }
        ensures ended { result ≡ Ok None → EndsInCall (empty_hub N.limits N.node_id) (EndsUnanswered self.now)
            seat.new }
    {
        let sleepers = &hub.waking.responses;
        let _waiter = sleepers.enter();
        for _ in rt.forever() {
            let turns = sleepers.turns();
            let pause = hub.waking.pause(rt, deadline);
            match self.receive_or_end(hub, rt, seat) {
                Ok(received) => return Ok(received),
                Err(None) => match pause {
                    Ok(pause) => sleepers.wait(rt, turns, pause),
                    Err(error) => return Err(error),
                },
                Err(Some(error)) => return Err(WaitError::Call(error)),
            }
        }
        unreachable!()
    }

    /// Receives a response, or returns `None` if none is queued and no connected server may still answer. Takes the
    /// lock once.
    ///
    /// # Errors
    ///
    /// - `None` if none is queued, but a connected server may still answer.
    /// - `Some` as `receive`.
    fn receive_or_end<QH: Header, PB: Body, PH: Header, K: BackpressureFn>(
        &self,
        hub: &SharedPorts<N, Hub<QB, QH, PB, PH, K>>,
        rt: &impl Wait,
        seat: &mut Seat<N, Hub<QB, QH, PB, PH, K>>,
    ) -> Result<Option<Claimed<N, Response<PB>>>, Option<ReceiveError>>
        ensures { MakesCall (empty_hub N.limits N.node_id)
            (λ before after. ReceivesOrEnds before self.now result after) seat.old seat.new }
    {
        let handle = self.handle();
        hub.received(
            rt,
            seat,
            self,
            &[Change::EntryTaken],
            |ports| -> Result<Option<Response<PB>>, Option<ReceiveError>>
                requires { Names ports.old handle.now kind.PendingResponse }
                ensures call { ReceivesOrEnds ports.old handle.entry.now result ports.new }
                ensures keeps { Keeps [] ports.old ports.new }
                ensures free { IfOk result (λ received. IfSome received (λ response. IsFree [] ports.old response)) }
                ensures kind { IfOk result (λ received. IfSome received
                    (λ response. Names ports.new response kind.Response)) }
            {
                match handle.receive(ports) {
                    Ok(Some(response)) => Ok(Some(response)),
                    Ok(None) => {
                        if handle.is_connected(ports) {
                            Err(None)
                        } else {
                            Ok(None)
                        }
                    }
                    Err(error) => Err(Some(error)),
                }
            },
        )
    }
}
