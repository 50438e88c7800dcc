//! Whole exchanges in few critical sections.
#![tactic(auto, using(rr_ports::proofs::Frames::callers), unfolding(rr_ports::specs::Facts::Keeps, rr_ports::specs::Facts::IsFree))]

ghost use Rattle.std.specs.Prelude.{◌≡◌, ◌∷◌, [], IfErr};
ghost use mathlib.Core.List.{IsPrefix};
ghost use Rattle.rr_shared_ports.specs.Words.{Keeps, Names, empty_hub, AnswersWith, FindsOver, Finishes, FinishesLast, IsWhyNone, Questions, Responds, Serves, MakesCall, IsOver};
ghost use Rattle.rr_protocol.specs.declared.kind.Kind.TheVariants as kind;

use crate::deadline::Never;
use crate::error::told;
use crate::waking::Change;
use crate::{
    AskError, CallError, Claimed, FinishError, Header, Naming, Seat, ServeError, SharedPorts,
    WaitError,
};
use rr_ports::{
    ActiveRequest, BackpressureFn, Body, Client, Hub, PendingResponse, Refused, SendError, Server,
};
use std::sync::Wait;
use std::time::Duration;

impl<N: Naming, T: Drop> Claimed<N, ActiveRequest<Option<T>>> {
    /// Answers with the function's result for the request's payload, as `respond_with` does, and releases the
    /// request, both in one critical section. Not in iceoryx2.
    ///
    /// # Errors
    ///
    /// As `respond_with`. The request is released.
    pub fn answer_with<QH: Header, PH: Header, K: BackpressureFn, U: Drop, F: FnOnce(&T) -> U>(
        self,
        hub: &SharedPorts<N, Hub<Option<T>, QH, Option<U>, PH, K>>,
        rt: &impl Wait,
        seat: &mut Seat<N, Hub<Option<T>, QH, Option<U>, PH, K>>,
        f: F,
    ) -> Result<(), CallError<SendError>>
        requires { F.IsAlwaysCallable f }
        ensures { MakesCall (empty_hub N.limits N.node_id)
            (λ before after. AnswersWith PH.is_default K.action F.FnOnce f before self result after) seat.old seat.new }
    {
        hub.ended(
            rt,
            seat,
            self,
            &[
                Change::ResponseQueued,
                Change::ActiveRequestEnded,
                Change::ServerLeft,
            ],
            |active, ports| -> Result<(), CallError<SendError>>
                requires kind { Names ports.old active kind.ActiveRequest }
                requires callable { F.IsAlwaysCallable f }
                ensures call { AnswersWith PH.is_default K.action F.FnOnce f ports.old active result ports.new }
                ensures keeps { Keeps (active ∷ []) ports.old ports.new }
            {
                let sent = respond_if_numbered(&active, ports, f);
                active.release(ports);
                sent
            },
        )
    }
}

impl<N: Naming, QB: Body> Claimed<N, PendingResponse<QB>> {
    /// Receives the value of a response, as `receive_copy` does, and releases the request, both in one critical
    /// section. Not in iceoryx2.
    ///
    /// # Errors
    ///
    /// `message` is the request. `error` is
    ///
    /// - `NoResponse` if none is queued, but a connected server may still answer.
    /// - `NoServer` if none is queued, and no connected server may still answer.
    /// - `Receive` as `receive_copy`.
    pub fn finish<QH: Header, PH: Header, K: BackpressureFn, T: Copy>(
        self,
        hub: &SharedPorts<N, Hub<QB, QH, Option<T>, PH, K>>,
        rt: &impl Wait,
        seat: &mut Seat<N, Hub<QB, QH, Option<T>, PH, K>>,
    ) -> Result<T, Refused<Claimed<N, PendingResponse<QB>>, FinishError>>
        ensures { MakesCall (empty_hub N.limits N.node_id) (λ before after. Finishes before self result after)
            seat.old seat.new }
    {
        hub.spent(
            rt,
            seat,
            self,
            &[Change::EntryTaken, Change::PendingResponseEnded],
            |pending, ports| -> Result<T, Refused<PendingResponse<QB>, FinishError>>
                requires { Names ports.old pending kind.PendingResponse }
                ensures call { Finishes ports.old pending result ports.new }
                ensures keeps { Keeps (pending ∷ []) ports.old ports.new }
                ensures kept { IfErr result (λ refused. (refused.message ≡ pending)
                    × Names ports.new pending kind.PendingResponse) }
            {
                let error = match pending.receive_copy(ports) {
                    Ok(Some(value)) => {
                        pending.release(ports);
                        return Ok(value);
                    }
                    Ok(None) => why_none(&pending, ports),
                    Err(error) => FinishError::Receive(error),
                };
                Err(Refused {
                    message: pending,
                    error,
                })
            },
        )
    }

    /// Waits for a response and finishes the request. `turns` is the wake-up count of the waiters for responses, read
    /// before the request was sent.
    fn finish_since<QH: Header, PH: Header, K: BackpressureFn, T: Copy>(
        self,
        hub: &SharedPorts<N, Hub<QB, QH, Option<T>, PH, K>>,
        rt: &impl Wait,
        seat: &mut Seat<N, Hub<QB, QH, Option<T>, PH, K>>,
        turns: u64,
    ) -> Result<T, WaitError<FinishError>>
        ensures same { seat.new.0 ≡ seat.old.0 }
        ensures seen { IsPrefix seat.old.1 seat.new.1 }
        ensures call { FinishesLast (empty_hub N.limits N.node_id) self result seat.new }
    {
        let responses = &hub.waking.responses;
        responses.were_woken(turns);
        let mut pending = self;
        for _ in rt.forever() {
            let turns = responses.turns();
            let pause = hub.waking.pause(rt, &Never);
            let Refused { message, error } = match pending.finish(hub, rt, seat) {
                Ok(value) => return Ok(value),
                Err(refused) => refused,
            };
            match after(error, pause) {
                Ok(pause) => responses.wait(rt, turns, pause),
                Err(over) => {
                    message.release(hub, rt, seat);
                    return Err(over);
                }
            }
            pending = message;
        }
        unreachable!()
    }
}

impl<N: Naming, T: Drop> Claimed<N, Client<Option<T>>> {
    /// Sends a value, waits for a response, returns its value and releases the request. Takes the lock twice if the
    /// response is queued at its first poll. Not in iceoryx2: `send_copy`, `receive`, and two drops.
    ///
    /// # Errors
    ///
    /// - `Send` as `send_copy`.
    /// - `Finish(Call(NoServer))` if no connected server may still answer.
    /// - `Finish(Closed)` if `close` was called, and no response is queued.
    /// - `Finish(Call(Receive(..)))` as `receive_copy`.
    ///
    /// The request is released.
    pub fn call<QH: Header, PH: Header, K: BackpressureFn, U: Copy>(
        &self,
        hub: &SharedPorts<N, Hub<Option<T>, QH, Option<U>, PH, K>>,
        rt: &impl Wait,
        seat: &mut Seat<N, Hub<Option<T>, QH, Option<U>, PH, K>>,
        value: T,
    ) -> Result<U, AskError>
        ensures same { seat.new.0 ≡ seat.old.0 }
        ensures seen { IsPrefix seat.old.1 seat.new.1 }
        ensures call { Questions (empty_hub N.limits N.node_id) QH.is_default K.action self.now value result seat.old
            seat.new }
    {
        let responses = &hub.waking.responses;
        let _waiter = responses.enter();
        let turns = responses.turns();
        let pending = match self.send_copy(hub, rt, seat, value) {
            Ok(pending) => pending,
            Err(error) => return Err(AskError::Send(error)),
        };
        match pending.finish_since(hub, rt, seat, turns) {
            Ok(answer) => Ok(answer),
            Err(error) => Err(AskError::Finish(error)),
        }
    }
}

impl<N: Naming, U: Drop> Claimed<N, Server<Option<U>>> {
    /// Waits for a request, and answers it with the function's result for its payload, computed under the lock. Not
    /// in iceoryx2: `receive`, `send_copy` and a drop.
    ///
    /// # Errors
    ///
    /// - `Receive` as `receive_wait`.
    /// - `Send` as `respond_with`. The request is released.
    pub fn serve<T: Drop, QH: Header, PH: Header, K: BackpressureFn, F: FnOnce(&T) -> U>(
        &self,
        hub: &SharedPorts<N, Hub<Option<T>, QH, Option<U>, PH, K>>,
        rt: &impl Wait,
        seat: &mut Seat<N, Hub<Option<T>, QH, Option<U>, PH, K>>,
        f: F,
    ) -> Result<(), ServeError>
        requires { F.IsAlwaysCallable f }
        ensures same { seat.new.0 ≡ seat.old.0 }
        ensures seen { IsPrefix seat.old.1 seat.new.1 }
        ensures call { Serves (empty_hub N.limits N.node_id) PH.is_default K.action F.FnOnce f self.now result
            seat.old seat.new }
    {
        let active = match self.receive_wait(hub, rt, seat) {
            Ok(active) => active,
            Err(error) => return Err(ServeError::Receive(error)),
        };
        match active.answer_with(hub, rt, seat, f) {
            Ok(()) => Ok(()),
            Err(error) => Err(ServeError::Send(error)),
        }
    }
}

/// Answers a request with the function's result for its payload, if a number is left.
fn respond_if_numbered<
    T: Drop,
    QH: Header,
    U: Drop,
    PH: Header,
    K: BackpressureFn,
    F: FnOnce(&T) -> U,
>(
    active: &ActiveRequest<Option<T>>,
    ports: &mut Hub<Option<T>, QH, Option<U>, PH, K>,
    f: F,
) -> Result<(), CallError<SendError>>
    requires kind { Names ports.old active.now kind.ActiveRequest }
    requires callable { F.IsAlwaysCallable f }
    ensures call { Responds PH.is_default K.action F.FnOnce f active.now result ports.old ports.new }
    ensures keeps { Keeps [] ports.old ports.new }
{
    if ports.numbers_left() == 0 {
        return Err(CallError::NumbersExhausted);
    }
    told(active.respond_with(ports, f))
}

/// Returns why no response is queued for a request.
fn why_none<QB: Body, QH: Header, PB: Body, PH: Header, K: BackpressureFn>(
    pending: &PendingResponse<QB>,
    ports: &Hub<QB, QH, PB, PH, K>,
) -> FinishError
    requires { Names ports.now pending.now kind.PendingResponse }
    ensures { IsWhyNone ports.now pending.now result }
{
    if pending.is_connected(ports) {
        FinishError::NoResponse
    } else {
        FinishError::NoServer
    }
}

/// Returns how long a wait that found no response may sleep, or why it is over.
fn after(
    error: FinishError,
    pause: Result<Duration, WaitError<FinishError>>,
) -> Result<Duration, WaitError<FinishError>>
    requires { IfErr pause IsOver }
    ensures { IfErr result (λ over. FindsOver over error) }
{
    match error {
        FinishError::NoResponse => pause,
        error => Err(WaitError::Call(error)),
    }
}
