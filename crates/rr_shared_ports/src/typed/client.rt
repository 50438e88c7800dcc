//! Loans and sends of a client, in the typed family.
ghost use Rattle.rr_shared_ports.specs.Words.{IsOneDefault, LoansComplete, SendsCopy, TellsCopy, LoansRequest, empty_hub, Answered, MakesCall, numbers_left};

use crate::waking::Change;
use crate::{CallError, Claimed, Header, Naming, Seat, SharedPorts};
use rr_ports::{
    BackpressureFn, Body, Client, Hub, LoanError, PendingResponse, RequestMut, RequestMutUninit,
    RequestSendError,
};
use std::sync::Wait;

impl<N: Naming, T: Drop> Claimed<N, Client<Option<T>>> {
    /// Loans a request whose payload is to be written. After `Client::loan_uninit` of `rr_ports`.
    ///
    /// # Errors
    ///
    /// - `Port` as `Client::loan_uninit`.
    /// - `NumbersExhausted` if no number is left for the request. Nothing changes.
    pub fn loan_uninit<QH: Header, PB: Body, PH: Header, K: BackpressureFn>(
        &self,
        hub: &SharedPorts<N, Hub<Option<T>, QH, PB, PH, K>>,
        rt: &impl Wait,
        seat: &mut Seat<N, Hub<Option<T>, QH, PB, PH, K>>,
    ) -> Result<Claimed<N, RequestMutUninit<Option<T>>>, CallError<LoanError>>
        ensures { MakesCall (empty_hub N.limits N.node_id)
            (Answered numbers_left (λ loaned before after. LoansRequest QH.is_default before self.now 1 loaned after)
            result) seat.old seat.new }
    {
        let handle = self.handle();
        hub.made(rt, seat, self, &[], |ports| handle.loan_uninit(ports))
    }

    /// Loans a request whose payload has the default value. After `Client::loan` of `rr_ports`.
    ///
    /// # Errors
    ///
    /// - `Port` as `Client::loan`.
    /// - `NumbersExhausted` if no number is left for the request. Nothing changes.
    pub fn loan<QH: Header, PB: Body, PH: Header, K: BackpressureFn>(
        &self,
        hub: &SharedPorts<N, Hub<Option<T>, QH, PB, PH, K>>,
        rt: &impl Wait,
        seat: &mut Seat<N, Hub<Option<T>, QH, PB, PH, K>>,
    ) -> Result<Claimed<N, RequestMut<Option<T>>>, CallError<LoanError>>
    where
        T: Default,
        ensures { MakesCall (empty_hub N.limits N.node_id)
            (Answered numbers_left (λ loaned before after.
            LoansComplete QH.is_default (IsOneDefault T.is_default) before self.now 1 loaned after) result) seat.old
            seat.new }
    {
        let handle = self.handle();
        hub.made(rt, seat, self, &[], |ports| handle.loan(ports))
    }

    /// Loans a request, writes a value and sends it. After `Client::send_copy` of `rr_ports`.
    ///
    /// # Errors
    ///
    /// - `Port` as `Client::send_copy`.
    /// - `NumbersExhausted` if no number is left for the request. Nothing changes, and the value is dropped.
    pub fn send_copy<QH: Header, PB: Body, PH: Header, K: BackpressureFn>(
        &self,
        hub: &SharedPorts<N, Hub<Option<T>, QH, PB, PH, K>>,
        rt: &impl Wait,
        seat: &mut Seat<N, Hub<Option<T>, QH, PB, PH, K>>,
        value: T,
    ) -> Result<Claimed<N, PendingResponse<Option<T>>>, CallError<RequestSendError>>
        ensures { MakesCall (empty_hub N.limits N.node_id)
            (Answered numbers_left (λ sent before after.
            SendsCopy QH.is_default K.action before self.now value sent after) result) seat.old seat.new }
    {
        let handle = self.handle();
        hub.made(
            rt,
            seat,
            self,
            &[Change::RequestQueued],
            |ports| handle.send_copy(ports, value),
        )
    }

    /// Sends a value and waits for no answer. After `Client::tell` of `rr_ports`.
    ///
    /// # Errors
    ///
    /// - `Port` as `Client::tell`.
    /// - `NumbersExhausted` if no number is left for the request. Nothing changes, and the value is dropped.
    pub fn tell<QH: Header, PB: Body, PH: Header, K: BackpressureFn>(
        &self,
        hub: &SharedPorts<N, Hub<Option<T>, QH, PB, PH, K>>,
        rt: &impl Wait,
        seat: &mut Seat<N, Hub<Option<T>, QH, PB, PH, K>>,
        value: T,
    ) -> Result<(), CallError<RequestSendError>>
        ensures { MakesCall (empty_hub N.limits N.node_id)
            (Answered numbers_left (λ told before after.
            TellsCopy QH.is_default K.action before self.now value told after) result) seat.old seat.new }
    {
        let handle = self.handle();
        hub.numbered(
            rt,
            seat,
            self,
            &[Change::RequestQueued],
            |ports| handle.tell(ports, value),
        )
    }
}
