//! Queries, loans and sends of an active request, in the sliced family.
ghost use Rattle.std.specs.Prelude.{◌≡◌, IsSomeAnd, option_and_then, ◌<◌, [], List, ℕ};
ghost use Rattle.std.specs.Fn.{FnOnceReturnsAt};
ghost use Rattle.rr_shared_ports.specs.Words.{Names, Asks, Has, Keeps, numbers_left, AreDefaults, LoansResponseComplete, SendsResponseSlice, LoansResponse, request_in, empty_hub, handle_at, Answered, MakesCall, Makes, MakesInOrder, RespondsSlice};
ghost use Rattle.rr_protocol.specs.declared.kind.Kind.TheVariants as kind;

use crate::waking::Change;
use crate::{CallError, Claimed, Header, Naming, Seat, SharedPorts};
use rr_ports::{
    ActiveRequest, BackpressureFn, Body, Hub, LoanError, ResponseMut, ResponseMutUninit, SendError,
    SliceBody,
};
use std::sync::Wait;

impl<N: Naming, T: Drop> Claimed<N, ActiveRequest<SliceBody<T>>> {
    /// Lets a function read the payload of the request in place, under the lock. Not in iceoryx2, which returns a
    /// reference.
    pub fn read<QH: Header, PB: Body, PH: Header, K: BackpressureFn, U, F: FnOnce(&[T]) -> U>(
        &self,
        hub: &SharedPorts<N, Hub<SliceBody<T>, QH, PB, PH, K>>,
        rt: &impl Wait,
        seat: &mut Seat<N, Hub<SliceBody<T>, QH, PB, PH, K>>,
        f: F,
    ) -> U
        requires { F.IsAlwaysCallable f }
        ensures { MakesCall (empty_hub N.limits N.node_id)
            (λ before after. (after ≡ before) × IsSomeAnd (option_and_then request_in (handle_at before self.now))
            (λ m. FnOnceReturnsAt F.FnOnce f m.content.elements result)) seat.old seat.new }
    {
        let handle = self.handle();
        hub.looked(
            rt,
            seat,
            self,
            |ports| -> U
                requires { Names ports.now handle.now kind.ActiveRequest × F.IsAlwaysCallable f }
                ensures { IsSomeAnd (option_and_then request_in (handle_at ports.now handle.entry.now))
                    (λ m. FnOnceReturnsAt F.FnOnce f m.content.elements result) }
            { f(handle.payload(ports)) },
        )
    }
}

impl<N: Naming, QB: Body> Claimed<N, ActiveRequest<QB>> {
    /// Loans a response of `len` elements, which are to be written. After `ActiveRequest::loan_slice_uninit` of
    /// `rr_ports`.
    ///
    /// # Errors
    ///
    /// - `Port` as `ActiveRequest::loan_slice_uninit`.
    /// - `NumbersExhausted` if no number is left for the response. Nothing changes.
    pub fn loan_slice_uninit<QH: Header, PH: Header, K: BackpressureFn, T: Drop>(
        &self,
        hub: &SharedPorts<N, Hub<QB, QH, SliceBody<T>, PH, K>>,
        rt: &impl Wait,
        seat: &mut Seat<N, Hub<QB, QH, SliceBody<T>, PH, K>>,
        len: usize,
    ) -> Result<Claimed<N, ResponseMutUninit<SliceBody<T>>>, CallError<LoanError>>
        ensures { MakesCall (empty_hub N.limits N.node_id)
            (Answered numbers_left (λ loaned before after.
            LoansResponse PH.is_default before self.now len loaned after) result) seat.old seat.new }
    {
        let handle = self.handle();
        hub.made(
            rt,
            seat,
            self,
            &[],
            |ports| handle.loan_slice_uninit(ports, len),
        )
    }

    /// Loans a response of `len` elements with the default value. After `ActiveRequest::loan_slice` of `rr_ports`.
    ///
    /// # Errors
    ///
    /// - `Port` as `ActiveRequest::loan_slice`.
    /// - `NumbersExhausted` if no number is left for the response. Nothing changes.
    pub fn loan_slice<QH: Header, PH: Header, K: BackpressureFn, T: Default + Drop>(
        &self,
        hub: &SharedPorts<N, Hub<QB, QH, SliceBody<T>, PH, K>>,
        rt: &impl Wait,
        seat: &mut Seat<N, Hub<QB, QH, SliceBody<T>, PH, K>>,
        len: usize,
    ) -> Result<Claimed<N, ResponseMut<SliceBody<T>>>, CallError<LoanError>>
        ensures { MakesCall (empty_hub N.limits N.node_id)
            (Answered numbers_left (λ loaned before after.
            LoansResponseComplete PH.is_default (AreDefaults T.is_default len) before self.now len loaned after)
            result) seat.old seat.new }
    {
        let handle = self.handle();
        hub.made(rt, seat, self, &[], |ports| handle.loan_slice(ports, len))
    }

    /// Loans a response of this length, copies the elements into it and sends it. After `ActiveRequest::send_slice`
    /// of `rr_ports`.
    ///
    /// # Errors
    ///
    /// - `Port` as `ActiveRequest::send_slice`.
    /// - `NumbersExhausted` if no number is left for the response. Nothing changes.
    pub fn send_slice<QH: Header, PH: Header, K: BackpressureFn, T: Copy>(
        &self,
        hub: &SharedPorts<N, Hub<QB, QH, SliceBody<T>, PH, K>>,
        rt: &impl Wait,
        seat: &mut Seat<N, Hub<QB, QH, SliceBody<T>, PH, K>>,
        elements: &[T],
    ) -> Result<(), CallError<SendError>>
        ensures { MakesCall (empty_hub N.limits N.node_id)
            (Answered numbers_left (λ sent before after.
            SendsResponseSlice PH.is_default K.action before self.now elements.now sent after) result) seat.old
            seat.new }
    {
        let handle = self.handle();
        hub.numbered(
            rt,
            seat,
            self,
            &[Change::ResponseQueued],
            |ports| handle.send_slice(ports, elements),
        )
    }
}

impl<N: Naming, T: Drop> Claimed<N, ActiveRequest<SliceBody<T>>> {
    /// Answers with `len` elements, the function's results for the request's elements and the indices 0, 1, ..,
    /// computed under the lock. After `ActiveRequest::respond_with` of `rr_ports`.
    ///
    /// # Errors
    ///
    /// - `Port` as `ActiveRequest::respond_with`.
    /// - `NumbersExhausted` if no number is left for the response. Nothing changes.
    pub fn respond_with<
        QH: Header,
        PH: Header,
        K: BackpressureFn,
        U: Drop,
        F: FnMut(&[T], usize) -> U,
    >(
        &self,
        hub: &SharedPorts<N, Hub<SliceBody<T>, QH, SliceBody<U>, PH, K>>,
        rt: &impl Wait,
        seat: &mut Seat<N, Hub<SliceBody<T>, QH, SliceBody<U>, PH, K>>,
        len: usize,
        f: F,
    ) -> Result<(), CallError<SendError>>
        requires { (asked : List T) (count : ℕ) → MakesInOrder F.FnMut asked f count }
        ensures { MakesCall (empty_hub N.limits N.node_id)
            (Answered numbers_left (λ sent before after. (asked : List T) × Has before self.now (Asks asked)
            × RespondsSlice PH.is_default K.action (Makes F.FnMut asked f) before self.now len sent after) result)
            seat.old seat.new }
    {
        let handle = self.handle();
        hub.numbered(
            rt,
            seat,
            self,
            &[Change::ResponseQueued],
            |ports| -> Result<(), SendError>
                requires kind { Names ports.old handle.now kind.ActiveRequest }
                requires number { 0 < numbers_left ports.old }
                requires callable { (asked : List T) (count : ℕ) → MakesInOrder F.FnMut asked f count }
                ensures call { (asked : List T) × Has ports.old handle.entry.now (Asks asked)
                    × RespondsSlice PH.is_default K.action (Makes F.FnMut asked f) ports.old handle.entry.now len
                    result ports.new }
                ensures keeps { Keeps [] ports.old ports.new }
            { handle.respond_with(ports, len, f) },
        )
    }
}
