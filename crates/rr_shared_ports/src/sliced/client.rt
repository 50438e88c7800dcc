//! Loans and sends of a client, in the sliced family.
ghost use Rattle.rr_shared_ports.specs.Words.{AreDefaults, LoansComplete, SendsSlice, LoansRequest, empty_hub, Answered, MakesCall, numbers_left};

use crate::waking::Change;
use crate::{CallError, Claimed, Header, Naming, Seat, SharedPorts};
use rr_ports::{
    BackpressureFn, Body, Client, Hub, LoanError, PendingResponse, RequestMut, RequestMutUninit,
    RequestSendError, SliceBody,
};
use std::sync::Wait;

impl<N: Naming, T: Drop> Claimed<N, Client<SliceBody<T>>> {
    /// Loans a request of `len` elements, which are to be written. After `Client::loan_slice_uninit` of `rr_ports`.
    ///
    /// # Errors
    ///
    /// - `Port` as `Client::loan_slice_uninit`.
    /// - `NumbersExhausted` if no number is left for the request. Nothing changes.
    pub fn loan_slice_uninit<QH: Header, PB: Body, PH: Header, K: BackpressureFn>(
        &self,
        hub: &SharedPorts<N, Hub<SliceBody<T>, QH, PB, PH, K>>,
        rt: &impl Wait,
        seat: &mut Seat<N, Hub<SliceBody<T>, QH, PB, PH, K>>,
        len: usize,
    ) -> Result<Claimed<N, RequestMutUninit<SliceBody<T>>>, CallError<LoanError>>
        ensures { MakesCall (empty_hub N.limits N.node_id)
            (Answered numbers_left (λ loaned before after.
            LoansRequest QH.is_default before self.now len loaned after) result) seat.old seat.new }
    {
        let handle = self.handle();
        hub.made(
            rt,
            seat,
            self,
            &[],
            |ports| handle.loan_slice_uninit(ports, len),
        )
    }

    /// Loans a request of `len` elements with the default value. After `Client::loan_slice` of `rr_ports`.
    ///
    /// # Errors
    ///
    /// - `Port` as `Client::loan_slice`.
    /// - `NumbersExhausted` if no number is left for the request. Nothing changes.
    pub fn loan_slice<QH: Header, PB: Body, PH: Header, K: BackpressureFn>(
        &self,
        hub: &SharedPorts<N, Hub<SliceBody<T>, QH, PB, PH, K>>,
        rt: &impl Wait,
        seat: &mut Seat<N, Hub<SliceBody<T>, QH, PB, PH, K>>,
        len: usize,
    ) -> Result<Claimed<N, RequestMut<SliceBody<T>>>, CallError<LoanError>>
    where
        T: Default,
        ensures { MakesCall (empty_hub N.limits N.node_id)
            (Answered numbers_left (λ loaned before after.
            LoansComplete QH.is_default (AreDefaults T.is_default len) before self.now len loaned after) result)
            seat.old seat.new }
    {
        let handle = self.handle();
        hub.made(rt, seat, self, &[], |ports| handle.loan_slice(ports, len))
    }

    /// Loans a request of this length, copies the elements into it and sends it. After `Client::send_slice` of
    /// `rr_ports`.
    ///
    /// # Errors
    ///
    /// - `Port` as `Client::send_slice`.
    /// - `NumbersExhausted` if no number is left for the request. Nothing changes.
    pub fn send_slice<QH: Header, PB: Body, PH: Header, K: BackpressureFn>(
        &self,
        hub: &SharedPorts<N, Hub<SliceBody<T>, QH, PB, PH, K>>,
        rt: &impl Wait,
        seat: &mut Seat<N, Hub<SliceBody<T>, QH, PB, PH, K>>,
        elements: &[T],
    ) -> Result<Claimed<N, PendingResponse<SliceBody<T>>>, CallError<RequestSendError>>
    where
        T: Copy,
        ensures { MakesCall (empty_hub N.limits N.node_id)
            (Answered numbers_left (λ sent before after.
            SendsSlice QH.is_default K.action before self.now elements.now sent after) result) seat.old seat.new }
    {
        let handle = self.handle();
        hub.made(
            rt,
            seat,
            self,
            &[Change::RequestQueued],
            |ports| handle.send_slice(ports, elements),
        )
    }
}
