//! Queries, loans and sends of an active request, in the typed family.
ghost use Rattle.std.specs.Prelude.{◌≡◌, ◌∷◌, [], IsSomeAnd, option_and_then, ◌<◌};
ghost use Rattle.std.specs.Fn.{FnOnceReturnsAt};
ghost use Rattle.rr_shared_ports.specs.Words.{Names, Asks, Has, Keeps, numbers_left, IsOneDefault, LoansResponseComplete, SendsResponseCopy, LoansResponse, request_in, empty_hub, handle_at, Answered, MakesCall};
ghost use Rattle.rr_protocol.specs.declared.kind.Kind.TheVariants as kind;

use crate::waking::Change;
use crate::{CallError, Claimed, Header, Naming, Seat, SharedPorts};
use rr_ports::{
    ActiveRequest, BackpressureFn, Body, Hub, LoanError, ResponseMut, ResponseMutUninit, SendError,
};
use std::sync::Wait;

impl<N: Naming, T: Drop> Claimed<N, ActiveRequest<Option<T>>> {
    /// Returns the payload of the request. Not in iceoryx2, which returns a reference.
    pub fn payload_copy<QH: Header, PB: Body, PH: Header, K: BackpressureFn>(
        &self,
        hub: &SharedPorts<N, Hub<Option<T>, QH, PB, PH, K>>,
        rt: &impl Wait,
        seat: &mut Seat<N, Hub<Option<T>, QH, PB, PH, K>>,
    ) -> T
    where
        T: Copy,
        ensures { MakesCall (empty_hub N.limits N.node_id)
            (λ before after. (after ≡ before) × IsSomeAnd (option_and_then request_in (handle_at before self.now))
            (λ m. m.content.elements ≡ result ∷ [])) seat.old seat.new }
    {
        let handle = self.handle();
        hub.looked(rt, seat, self, |ports| *handle.payload(ports))
    }

    /// Lets a function read the payload of the request in place, under the lock. Not in iceoryx2, which returns a
    /// reference.
    pub fn read<QH: Header, PB: Body, PH: Header, K: BackpressureFn, U, F: FnOnce(&T) -> U>(
        &self,
        hub: &SharedPorts<N, Hub<Option<T>, QH, PB, PH, K>>,
        rt: &impl Wait,
        seat: &mut Seat<N, Hub<Option<T>, QH, PB, PH, K>>,
        f: F,
    ) -> U
        requires { F.IsAlwaysCallable f }
        ensures { MakesCall (empty_hub N.limits N.node_id)
            (λ before after. (after ≡ before) × (value : T)
            × IsSomeAnd (option_and_then request_in (handle_at before self.now))
            (λ m. m.content.elements ≡ value ∷ []) × FnOnceReturnsAt F.FnOnce f value result) seat.old seat.new }
    {
        let handle = self.handle();
        hub.looked(
            rt,
            seat,
            self,
            |ports| -> U
                requires { Names ports.now handle.now kind.ActiveRequest × F.IsAlwaysCallable f }
                ensures { (value : T) × IsSomeAnd (option_and_then request_in (handle_at ports.now handle.entry.now))
                    (λ m. m.content.elements ≡ value ∷ []) × FnOnceReturnsAt F.FnOnce f value result }
            { f(handle.payload(ports)) },
        )
    }
}

impl<N: Naming, QB: Body> Claimed<N, ActiveRequest<QB>> {
    /// Loans a response whose payload is to be written. After `ActiveRequest::loan_uninit` of `rr_ports`.
    ///
    /// # Errors
    ///
    /// - `Port` as `ActiveRequest::loan_uninit`.
    /// - `NumbersExhausted` if no number is left for the response. Nothing changes.
    pub fn loan_uninit<QH: Header, PH: Header, K: BackpressureFn, T: Drop>(
        &self,
        hub: &SharedPorts<N, Hub<QB, QH, Option<T>, PH, K>>,
        rt: &impl Wait,
        seat: &mut Seat<N, Hub<QB, QH, Option<T>, PH, K>>,
    ) -> Result<Claimed<N, ResponseMutUninit<Option<T>>>, CallError<LoanError>>
        ensures { MakesCall (empty_hub N.limits N.node_id)
            (Answered numbers_left (λ loaned before after. LoansResponse PH.is_default before self.now 1 loaned after)
            result) seat.old seat.new }
    {
        let handle = self.handle();
        hub.made(rt, seat, self, &[], |ports| handle.loan_uninit(ports))
    }

    /// Loans a response whose payload has the default value. After `ActiveRequest::loan` of `rr_ports`.
    ///
    /// # Errors
    ///
    /// - `Port` as `ActiveRequest::loan`.
    /// - `NumbersExhausted` if no number is left for the response. Nothing changes.
    pub fn loan<QH: Header, PH: Header, K: BackpressureFn, T: Default + Drop>(
        &self,
        hub: &SharedPorts<N, Hub<QB, QH, Option<T>, PH, K>>,
        rt: &impl Wait,
        seat: &mut Seat<N, Hub<QB, QH, Option<T>, PH, K>>,
    ) -> Result<Claimed<N, ResponseMut<Option<T>>>, CallError<LoanError>>
        ensures { MakesCall (empty_hub N.limits N.node_id)
            (Answered numbers_left (λ loaned before after.
            LoansResponseComplete PH.is_default (IsOneDefault T.is_default) before self.now 1 loaned after) result)
            seat.old seat.new }
    {
        let handle = self.handle();
        hub.made(rt, seat, self, &[], |ports| handle.loan(ports))
    }

    /// Loans a response, writes a value and sends it. After `ActiveRequest::send_copy` of `rr_ports`.
    ///
    /// # Errors
    ///
    /// - `Port` as `ActiveRequest::send_copy`.
    /// - `NumbersExhausted` if no number is left for the response. Nothing changes, and the value is dropped.
    pub fn send_copy<QH: Header, PH: Header, K: BackpressureFn, T: Drop>(
        &self,
        hub: &SharedPorts<N, Hub<QB, QH, Option<T>, PH, K>>,
        rt: &impl Wait,
        seat: &mut Seat<N, Hub<QB, QH, Option<T>, PH, K>>,
        value: T,
    ) -> Result<(), CallError<SendError>>
        ensures { MakesCall (empty_hub N.limits N.node_id)
            (Answered numbers_left (λ sent before after.
            SendsResponseCopy PH.is_default K.action before self.now value sent after) result) seat.old seat.new }
    {
        let handle = self.handle();
        hub.numbered(
            rt,
            seat,
            self,
            &[Change::ResponseQueued],
            |ports| handle.send_copy(ports, value),
        )
    }
}

impl<N: Naming, T: Drop> Claimed<N, ActiveRequest<Option<T>>> {
    /// Answers with the function's result for the request's payload, computed under the lock. After
    /// `ActiveRequest::respond_with` of `rr_ports`.
    ///
    /// # Errors
    ///
    /// - `Port` as `ActiveRequest::respond_with`.
    /// - `NumbersExhausted` if no number is left for the response. Nothing changes.
    pub fn respond_with<QH: Header, PH: Header, K: BackpressureFn, U: Drop, F: FnOnce(&T) -> U>(
        &self,
        hub: &SharedPorts<N, Hub<Option<T>, QH, Option<U>, PH, K>>,
        rt: &impl Wait,
        seat: &mut Seat<N, Hub<Option<T>, QH, Option<U>, PH, K>>,
        f: F,
    ) -> Result<(), CallError<SendError>>
        requires { F.IsAlwaysCallable f }
        ensures { MakesCall (empty_hub N.limits N.node_id)
            (Answered numbers_left (λ sent before after. (asked : T) × (value : U)
            × Has before self.now (Asks (asked ∷ [])) × FnOnceReturnsAt F.FnOnce f asked value
            × SendsResponseCopy PH.is_default K.action before self.now value sent after) result) seat.old seat.new }
    {
        let handle = self.handle();
        hub.numbered(
            rt,
            seat,
            self,
            &[Change::ResponseQueued],
            |ports| -> Result<(), SendError>
                requires kind { Names ports.old handle.now kind.ActiveRequest }
                requires number { 0 < numbers_left ports.old }
                requires callable { F.IsAlwaysCallable f }
                ensures call { (asked : T) × (value : U) × Has ports.old handle.entry.now (Asks (asked ∷ []))
                    × FnOnceReturnsAt F.FnOnce f asked value
                    × SendsResponseCopy PH.is_default K.action ports.old handle.entry.now value result ports.new }
                ensures keeps { Keeps [] ports.old ports.new }
            { handle.respond_with(ports, f) },
        )
    }
}
