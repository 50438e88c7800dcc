//! How the payloads of loaned messages of the sliced family are written, and changed in place.
ghost use Rattle.std.specs.Prelude.{◌≡◌, ◌∷◌, [], ℕ};
ghost use Rattle.std.specs.Fn.{FnOnceReturnsAtMut};
ghost use Rattle.rr_shared_ports.specs.Words.{Keeps, Names, empty_hub, with_changed, after_init, filled, with_request_content, with_response_content, MakesCall, CallableInOrder, FillsRequest, FillsResponse, UpdatesRequest, UpdatesResponse, refilled};
ghost use Rattle.rr_protocol.specs.declared.kind.Kind.TheVariants as kind;

use crate::{Claimed, Header, Naming, Seat, SharedPorts};
use rr_ports::{
    BackpressureFn, Body, Hub, RequestMut, RequestMutUninit, ResponseMut, ResponseMutUninit,
    SliceBody,
};
use std::sync::Wait;

impl<N: Naming, T: Copy> Claimed<N, RequestMutUninit<SliceBody<T>>> {
    /// Fills the payload with copies of one element, and makes the request ready to send. After
    /// `RequestMutUninit::fill` of `rr_ports`.
    pub fn fill<QH: Header, PB: Body, PH: Header, K: BackpressureFn>(
        self,
        hub: &SharedPorts<N, Hub<SliceBody<T>, QH, PB, PH, K>>,
        rt: &impl Wait,
        seat: &mut Seat<N, Hub<SliceBody<T>, QH, PB, PH, K>>,
        element: T,
    ) -> Claimed<N, RequestMut<SliceBody<T>>>
        ensures { MakesCall (empty_hub N.limits N.node_id)
            (λ before after. (result ≡ self) × (after
            ≡ with_changed (with_changed before self (with_request_content (filled element))) self after_init))
            seat.old seat.new }
    {
        hub.became(
            rt,
            seat,
            self,
            |handle, ports| -> RequestMut<SliceBody<T>>
                requires { Names ports.old handle kind.RequestMutUninit }
                ensures call { (result ≡ handle) × (ports.new
                    ≡ with_changed (with_changed ports.old handle (with_request_content (filled element))) handle
                    after_init) }
                ensures keeps { Keeps (handle ∷ []) ports.old ports.new }
                ensures kind { Names ports.new result kind.RequestMut }
            { handle.fill(ports, element) },
        )
    }
}

impl<N: Naming, T: Drop> Claimed<N, RequestMutUninit<SliceBody<T>>> {
    /// Fills the payload with the function's results for the indices 0, 1, .., and makes the request ready to send.
    /// The function is called under the lock. After `RequestMutUninit::write_from_fn` of `rr_ports`.
    pub fn write_from_fn<QH: Header, PB: Body, PH: Header, K: BackpressureFn, F: FnMut(usize) -> T>(
        self,
        hub: &SharedPorts<N, Hub<SliceBody<T>, QH, PB, PH, K>>,
        rt: &impl Wait,
        seat: &mut Seat<N, Hub<SliceBody<T>, QH, PB, PH, K>>,
        f: F,
    ) -> Claimed<N, RequestMut<SliceBody<T>>>
        requires { (len : ℕ) → CallableInOrder F.pre F.step f len }
        ensures { MakesCall (empty_hub N.limits N.node_id)
            (λ before after. (result ≡ self) × FillsRequest F.step f before after self) seat.old seat.new }
    {
        hub.became(
            rt,
            seat,
            self,
            |handle, ports| -> RequestMut<SliceBody<T>>
                requires { Names ports.old handle kind.RequestMutUninit
                    × ((len : ℕ) → CallableInOrder F.pre F.step f len) }
                ensures call { (result ≡ handle) × FillsRequest F.step f ports.old ports.new handle }
                ensures keeps { Keeps (handle ∷ []) ports.old ports.new }
                ensures kind { Names ports.new result kind.RequestMut }
            { handle.write_from_fn(ports, f) },
        )
    }
}

impl<N: Naming, T: Copy> Claimed<N, ResponseMutUninit<SliceBody<T>>> {
    /// Fills the payload with copies of one element, and makes the response ready to send. After
    /// `ResponseMutUninit::fill` of `rr_ports`.
    pub fn fill<QB: Body, QH: Header, PH: Header, K: BackpressureFn>(
        self,
        hub: &SharedPorts<N, Hub<QB, QH, SliceBody<T>, PH, K>>,
        rt: &impl Wait,
        seat: &mut Seat<N, Hub<QB, QH, SliceBody<T>, PH, K>>,
        element: T,
    ) -> Claimed<N, ResponseMut<SliceBody<T>>>
        ensures { MakesCall (empty_hub N.limits N.node_id)
            (λ before after. (result ≡ self) × (after
            ≡ with_changed (with_changed before self (with_response_content (filled element))) self after_init))
            seat.old seat.new }
    {
        hub.became(
            rt,
            seat,
            self,
            |handle, ports| -> ResponseMut<SliceBody<T>>
                requires { Names ports.old handle kind.ResponseMutUninit }
                ensures call { (result ≡ handle) × (ports.new
                    ≡ with_changed (with_changed ports.old handle (with_response_content (filled element))) handle
                    after_init) }
                ensures keeps { Keeps (handle ∷ []) ports.old ports.new }
                ensures kind { Names ports.new result kind.ResponseMut }
            { handle.fill(ports, element) },
        )
    }
}

impl<N: Naming, T: Drop> Claimed<N, ResponseMutUninit<SliceBody<T>>> {
    /// Fills the payload with the function's results for the indices 0, 1, .., and makes the response ready to send.
    /// The function is called under the lock. After `ResponseMutUninit::write_from_fn` of `rr_ports`.
    pub fn write_from_fn<QB: Body, QH: Header, PH: Header, K: BackpressureFn, F: FnMut(usize) -> T>(
        self,
        hub: &SharedPorts<N, Hub<QB, QH, SliceBody<T>, PH, K>>,
        rt: &impl Wait,
        seat: &mut Seat<N, Hub<QB, QH, SliceBody<T>, PH, K>>,
        f: F,
    ) -> Claimed<N, ResponseMut<SliceBody<T>>>
        requires { (len : ℕ) → CallableInOrder F.pre F.step f len }
        ensures { MakesCall (empty_hub N.limits N.node_id)
            (λ before after. (result ≡ self) × FillsResponse F.step f before after self) seat.old seat.new }
    {
        hub.became(
            rt,
            seat,
            self,
            |handle, ports| -> ResponseMut<SliceBody<T>>
                requires { Names ports.old handle kind.ResponseMutUninit
                    × ((len : ℕ) → CallableInOrder F.pre F.step f len) }
                ensures call { (result ≡ handle) × FillsResponse F.step f ports.old ports.new handle }
                ensures keeps { Keeps (handle ∷ []) ports.old ports.new }
                ensures kind { Names ports.new result kind.ResponseMut }
            { handle.write_from_fn(ports, f) },
        )
    }
}

impl<N: Naming, T: Drop> Claimed<N, RequestMutUninit<SliceBody<T>>> {
    /// Lets a function change the elements of the request that were written so far in place, under the lock. After
    /// `RequestMutUninit::update` of `rr_ports`.
    pub fn update<QH: Header, PB: Body, PH: Header, K: BackpressureFn, F: FnOnce(&mut [T])>(
        &self,
        hub: &SharedPorts<N, Hub<SliceBody<T>, QH, PB, PH, K>>,
        rt: &impl Wait,
        seat: &mut Seat<N, Hub<SliceBody<T>, QH, PB, PH, K>>,
        f: F,
    )
        requires { F.IsAlwaysCallable f }
        ensures { MakesCall (empty_hub N.limits N.node_id)
            (λ before after. UpdatesRequest (λ c items. c.elements ≡ items) refilled (FnOnceReturnsAtMut F.FnOnce f)
            before after self.now) seat.old seat.new }
    {
        let handle = self.handle();
        hub.rewritten(
            rt,
            seat,
            self,
            |ports| -> ()
                requires { Names ports.old handle.now kind.RequestMutUninit × F.IsAlwaysCallable f }
                ensures call { UpdatesRequest (λ c items. c.elements ≡ items) refilled (FnOnceReturnsAtMut F.FnOnce f)
                    ports.old ports.new handle.entry.now }
                ensures keeps { Keeps (handle.entry.now ∷ []) ports.old ports.new }
                ensures kind { Names ports.new handle.entry.now kind.RequestMutUninit }
            { handle.update(ports, f) },
        )
    }
}

impl<N: Naming, T: Drop> Claimed<N, RequestMut<SliceBody<T>>> {
    /// Lets a function change the elements of the request in place, under the lock. After `RequestMut::update` of
    /// `rr_ports`.
    pub fn update<QH: Header, PB: Body, PH: Header, K: BackpressureFn, F: FnOnce(&mut [T])>(
        &self,
        hub: &SharedPorts<N, Hub<SliceBody<T>, QH, PB, PH, K>>,
        rt: &impl Wait,
        seat: &mut Seat<N, Hub<SliceBody<T>, QH, PB, PH, K>>,
        f: F,
    )
        requires { F.IsAlwaysCallable f }
        ensures { MakesCall (empty_hub N.limits N.node_id)
            (λ before after. UpdatesRequest (λ c items. c.elements ≡ items) refilled (FnOnceReturnsAtMut F.FnOnce f)
            before after self.now) seat.old seat.new }
    {
        let handle = self.handle();
        hub.rewritten(
            rt,
            seat,
            self,
            |ports| -> ()
                requires { Names ports.old handle.now kind.RequestMut × F.IsAlwaysCallable f }
                ensures call { UpdatesRequest (λ c items. c.elements ≡ items) refilled (FnOnceReturnsAtMut F.FnOnce f)
                    ports.old ports.new handle.entry.now }
                ensures keeps { Keeps (handle.entry.now ∷ []) ports.old ports.new }
                ensures kind { Names ports.new handle.entry.now kind.RequestMut }
            { handle.update(ports, f) },
        )
    }
}

impl<N: Naming, T: Drop> Claimed<N, ResponseMutUninit<SliceBody<T>>> {
    /// Lets a function change the elements of the response that were written so far in place, under the lock. After
    /// `ResponseMutUninit::update` of `rr_ports`.
    pub fn update<QB: Body, QH: Header, PH: Header, K: BackpressureFn, F: FnOnce(&mut [T])>(
        &self,
        hub: &SharedPorts<N, Hub<QB, QH, SliceBody<T>, PH, K>>,
        rt: &impl Wait,
        seat: &mut Seat<N, Hub<QB, QH, SliceBody<T>, PH, K>>,
        f: F,
    )
        requires { F.IsAlwaysCallable f }
        ensures { MakesCall (empty_hub N.limits N.node_id)
            (λ before after. UpdatesResponse (λ c items. c.elements ≡ items) refilled (FnOnceReturnsAtMut F.FnOnce f)
            before after self.now) seat.old seat.new }
    {
        let handle = self.handle();
        hub.rewritten(
            rt,
            seat,
            self,
            |ports| -> ()
                requires { Names ports.old handle.now kind.ResponseMutUninit × F.IsAlwaysCallable f }
                ensures call { UpdatesResponse (λ c items. c.elements ≡ items) refilled
                    (FnOnceReturnsAtMut F.FnOnce f) ports.old ports.new handle.entry.now }
                ensures keeps { Keeps (handle.entry.now ∷ []) ports.old ports.new }
                ensures kind { Names ports.new handle.entry.now kind.ResponseMutUninit }
            { handle.update(ports, f) },
        )
    }
}

impl<N: Naming, T: Drop> Claimed<N, ResponseMut<SliceBody<T>>> {
    /// Lets a function change the elements of the response in place, under the lock. After `ResponseMut::update` of
    /// `rr_ports`.
    pub fn update<QB: Body, QH: Header, PH: Header, K: BackpressureFn, F: FnOnce(&mut [T])>(
        &self,
        hub: &SharedPorts<N, Hub<QB, QH, SliceBody<T>, PH, K>>,
        rt: &impl Wait,
        seat: &mut Seat<N, Hub<QB, QH, SliceBody<T>, PH, K>>,
        f: F,
    )
        requires { F.IsAlwaysCallable f }
        ensures { MakesCall (empty_hub N.limits N.node_id)
            (λ before after. UpdatesResponse (λ c items. c.elements ≡ items) refilled (FnOnceReturnsAtMut F.FnOnce f)
            before after self.now) seat.old seat.new }
    {
        let handle = self.handle();
        hub.rewritten(
            rt,
            seat,
            self,
            |ports| -> ()
                requires { Names ports.old handle.now kind.ResponseMut × F.IsAlwaysCallable f }
                ensures call { UpdatesResponse (λ c items. c.elements ≡ items) refilled
                    (FnOnceReturnsAtMut F.FnOnce f) ports.old ports.new handle.entry.now }
                ensures keeps { Keeps (handle.entry.now ∷ []) ports.old ports.new }
                ensures kind { Names ports.new handle.entry.now kind.ResponseMut }
            { handle.update(ports, f) },
        )
    }
}
