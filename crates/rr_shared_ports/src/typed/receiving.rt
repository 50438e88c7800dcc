//! Receives by value, in the typed family.
ghost use Rattle.std.specs.Prelude.{◌≡◌, ◌^◌, ◌-◌, []};
ghost use Rattle.rr_shared_ports.specs.Words.{HearsCopy, ReceivesCopy, empty_hub, Answered, MakesCall, numbers_left, Keeps, Names, Drains, FoldsOne};
ghost use Rattle.rr_protocol.specs.declared.kind.Kind.TheVariants as kind;

use crate::waking::Change;
use crate::{CallError, Claimed, Header, Naming, Seat, SharedPorts};
use rr_ports::{BackpressureFn, Body, Hub, PendingResponse, ReceiveError, Server};
use std::sync::Wait;

impl<N: Naming, PB: Body> Claimed<N, Server<PB>> {
    /// Receives the value of a request, if one is queued, and releases the request without an answer. After
    /// `Server::receive_copy` of `rr_ports`.
    ///
    /// # Errors
    ///
    /// - `Port` as `Server::receive_copy`.
    /// - `NumbersExhausted` if no number is left for the active request. Nothing changes.
    pub fn receive_copy<QH: Header, PH: Header, K: BackpressureFn, T: Copy>(
        &self,
        hub: &SharedPorts<N, Hub<Option<T>, QH, PB, PH, K>>,
        rt: &impl Wait,
        seat: &mut Seat<N, Hub<Option<T>, QH, PB, PH, K>>,
    ) -> Result<Option<T>, CallError<ReceiveError>>
        ensures { MakesCall (empty_hub N.limits N.node_id)
            (Answered numbers_left (λ received before after. HearsCopy before self.now received after) result)
            seat.old seat.new }
    {
        let handle = self.handle();
        hub.numbered(
            rt,
            seat,
            self,
            &[Change::EntryTaken, Change::ActiveRequestEnded],
            |ports| handle.receive_copy(ports),
        )
    }
}

impl<N: Naming, QB: Body> Claimed<N, PendingResponse<QB>> {
    /// Receives the value of a response, if one is queued. After `PendingResponse::receive_copy` of `rr_ports`.
    ///
    /// # Errors
    ///
    /// As `PendingResponse::receive_copy`.
    pub fn receive_copy<QH: Header, PH: Header, K: BackpressureFn, T: Copy>(
        &self,
        hub: &SharedPorts<N, Hub<QB, QH, Option<T>, PH, K>>,
        rt: &impl Wait,
        seat: &mut Seat<N, Hub<QB, QH, Option<T>, PH, K>>,
    ) -> Result<Option<T>, ReceiveError>
        ensures { MakesCall (empty_hub N.limits N.node_id) (λ before after. ReceivesCopy before self.now result after)
            seat.old seat.new }
    {
        let handle = self.handle();
        hub.changed(
            rt,
            seat,
            self,
            &[Change::EntryTaken],
            |ports| handle.receive_copy(ports),
        )
    }
}

impl<N: Naming, QB: Body> Claimed<N, PendingResponse<QB>> {
    /// Receives every response that is queued for the request, folds its payload with a function under the lock, and
    /// releases it. Takes the lock once. After `PendingResponse::fold_responses` of `rr_ports`.
    ///
    /// # Errors
    ///
    /// As `PendingResponse::fold_responses`: the result of the messages folded so far is dropped.
    pub fn fold_responses<
        QH: Header,
        PH: Header,
        K: BackpressureFn,
        T: Drop,
        A: Drop,
        F: FnMut(A, &T) -> A,
    >(
        &self,
        hub: &SharedPorts<N, Hub<QB, QH, Option<T>, PH, K>>,
        rt: &impl Wait,
        seat: &mut Seat<N, Hub<QB, QH, Option<T>, PH, K>>,
        init: A,
        f: F,
    ) -> Result<A, ReceiveError>
        requires { F.IsAlwaysCallable f }
        ensures { MakesCall (empty_hub N.limits N.node_id)
            (λ before after. Drains (λ s received t. ReceivesCopy s self.now received t) (FoldsOne F.FnMut)
            (2 ^ 64 - 1) (f, init) before result after) seat.old seat.new }
    {
        let handle = self.handle();
        hub.changed(
            rt,
            seat,
            self,
            &[Change::EntryTaken],
            |ports| -> Result<A, ReceiveError>
                requires { Names ports.old handle.now kind.PendingResponse × F.IsAlwaysCallable f }
                ensures call { Drains (λ s received t. ReceivesCopy s handle.entry.now received t) (FoldsOne F.FnMut)
                    (2 ^ 64 - 1) (f, init) ports.old result ports.new }
                ensures keeps { Keeps [] ports.old ports.new }
            { handle.fold_responses(ports, init, f) },
        )
    }
}

impl<N: Naming, PB: Body> Claimed<N, Server<PB>> {
    /// Receives every request that is queued for the server, folds its payload with a function under the lock, and
    /// releases it without an answer. Takes the lock once. After `Server::fold_requests` of `rr_ports`.
    ///
    /// # Errors
    ///
    /// As `Server::fold_requests`: the result of the messages folded so far is dropped.
    pub fn fold_requests<
        QH: Header,
        PH: Header,
        K: BackpressureFn,
        T: Drop,
        A: Drop,
        F: FnMut(A, &T) -> A,
    >(
        &self,
        hub: &SharedPorts<N, Hub<Option<T>, QH, PB, PH, K>>,
        rt: &impl Wait,
        seat: &mut Seat<N, Hub<Option<T>, QH, PB, PH, K>>,
        init: A,
        f: F,
    ) -> Result<A, ReceiveError>
        requires { F.IsAlwaysCallable f }
        ensures { MakesCall (empty_hub N.limits N.node_id)
            (λ before after. Drains (λ s received t. HearsCopy s self.now received t) (FoldsOne F.FnMut)
            (numbers_left before) (f, init) before result after) seat.old seat.new }
    {
        let handle = self.handle();
        hub.changed(
            rt,
            seat,
            self,
            &[Change::EntryTaken, Change::ActiveRequestEnded],
            |ports| -> Result<A, ReceiveError>
                requires { Names ports.old handle.now kind.Server × F.IsAlwaysCallable f }
                ensures call { Drains (λ s received t. HearsCopy s handle.entry.now received t) (FoldsOne F.FnMut)
                    (numbers_left ports.old) (f, init) ports.old result ports.new }
                ensures keeps { Keeps [] ports.old ports.new }
            { handle.fold_requests(ports, init, f) },
        )
    }
}
