//! How the payloads of loaned messages of the typed family are written, and changed in place.
ghost use Rattle.std.specs.Prelude.{◌≡◌, ◌∷◌, []};
ghost use Rattle.std.specs.Fn.{FnOnceReturnsAtMut};
ghost use Rattle.rr_shared_ports.specs.Words.{Keeps, Names, empty_hub, with_changed, after_init, with_elements, with_request_content, with_response_content, MakesCall, UpdatesRequest, UpdatesResponse};
ghost use Rattle.rr_protocol.specs.declared.kind.Kind.TheVariants as kind;

use crate::{Claimed, Header, Naming, Seat, SharedPorts};
use rr_ports::{
    BackpressureFn, Body, Hub, RequestMut, RequestMutUninit, ResponseMut, ResponseMutUninit,
};
use std::sync::Wait;

impl<N: Naming, T: Drop> Claimed<N, RequestMutUninit<Option<T>>> {
    /// Writes the payload, and makes the request ready to send. After `RequestMutUninit::write_payload` of
    /// `rr_ports`.
    pub fn write_payload<QH: Header, PB: Body, PH: Header, K: BackpressureFn>(
        self,
        hub: &SharedPorts<N, Hub<Option<T>, QH, PB, PH, K>>,
        rt: &impl Wait,
        seat: &mut Seat<N, Hub<Option<T>, QH, PB, PH, K>>,
        value: T,
    ) -> Claimed<N, RequestMut<Option<T>>>
        ensures { MakesCall (empty_hub N.limits N.node_id)
            (λ before after. (result ≡ self) × (after
            ≡ with_changed (with_changed before self (with_request_content (with_elements (value ∷ [])))) self
            after_init)) seat.old seat.new }
    {
        hub.became(
            rt,
            seat,
            self,
            |handle, ports| -> RequestMut<Option<T>>
                requires { Names ports.old handle kind.RequestMutUninit }
                ensures call { (result ≡ handle) × (ports.new
                    ≡ with_changed (with_changed ports.old handle (with_request_content (with_elements (value ∷ []))))
                    handle after_init) }
                ensures keeps { Keeps (handle ∷ []) ports.old ports.new }
                ensures kind { Names ports.new result kind.RequestMut }
            { handle.write_payload(ports, value) },
        )
    }
}

impl<N: Naming, T: Drop> Claimed<N, ResponseMutUninit<Option<T>>> {
    /// Writes the payload, and makes the response ready to send. After `ResponseMutUninit::write_payload` of
    /// `rr_ports`.
    pub fn write_payload<QB: Body, QH: Header, PH: Header, K: BackpressureFn>(
        self,
        hub: &SharedPorts<N, Hub<QB, QH, Option<T>, PH, K>>,
        rt: &impl Wait,
        seat: &mut Seat<N, Hub<QB, QH, Option<T>, PH, K>>,
        value: T,
    ) -> Claimed<N, ResponseMut<Option<T>>>
        ensures { MakesCall (empty_hub N.limits N.node_id)
            (λ before after. (result ≡ self) × (after
            ≡ with_changed (with_changed before self (with_response_content (with_elements (value ∷ [])))) self
            after_init)) seat.old seat.new }
    {
        hub.became(
            rt,
            seat,
            self,
            |handle, ports| -> ResponseMut<Option<T>>
                requires { Names ports.old handle kind.ResponseMutUninit }
                ensures call { (result ≡ handle) × (ports.new
                    ≡ with_changed (with_changed ports.old handle
                    (with_response_content (with_elements (value ∷ [])))) handle after_init) }
                ensures keeps { Keeps (handle ∷ []) ports.old ports.new }
                ensures kind { Names ports.new result kind.ResponseMut }
            { handle.write_payload(ports, value) },
        )
    }
}

impl<N: Naming, T: Drop> Claimed<N, RequestMut<Option<T>>> {
    /// Lets a function change the payload of the request in place, under the lock. After `RequestMut::update` of
    /// `rr_ports`.
    pub fn update<QH: Header, PB: Body, PH: Header, K: BackpressureFn, F: FnOnce(&mut T)>(
        &self,
        hub: &SharedPorts<N, Hub<Option<T>, QH, PB, PH, K>>,
        rt: &impl Wait,
        seat: &mut Seat<N, Hub<Option<T>, QH, PB, PH, K>>,
        f: F,
    )
        requires { F.IsAlwaysCallable f }
        ensures { MakesCall (empty_hub N.limits N.node_id)
            (λ before after. UpdatesRequest (λ c value. c.elements ≡ value ∷ []) (λ value. with_elements (value ∷ []))
            (FnOnceReturnsAtMut F.FnOnce f) before after self.now) seat.old seat.new }
    {
        let handle = self.handle();
        hub.rewritten(
            rt,
            seat,
            self,
            |ports| -> ()
                requires { Names ports.old handle.now kind.RequestMut × F.IsAlwaysCallable f }
                ensures call { UpdatesRequest (λ c value. c.elements ≡ value ∷ [])
                    (λ value. with_elements (value ∷ [])) (FnOnceReturnsAtMut F.FnOnce f) ports.old ports.new
                    handle.entry.now }
                ensures keeps { Keeps (handle.entry.now ∷ []) ports.old ports.new }
                ensures kind { Names ports.new handle.entry.now kind.RequestMut }
            { handle.update(ports, f) },
        )
    }
}

impl<N: Naming, T: Drop> Claimed<N, ResponseMut<Option<T>>> {
    /// Lets a function change the payload of the response in place, under the lock. After `ResponseMut::update` of
    /// `rr_ports`.
    pub fn update<QB: Body, QH: Header, PH: Header, K: BackpressureFn, F: FnOnce(&mut T)>(
        &self,
        hub: &SharedPorts<N, Hub<QB, QH, Option<T>, PH, K>>,
        rt: &impl Wait,
        seat: &mut Seat<N, Hub<QB, QH, Option<T>, PH, K>>,
        f: F,
    )
        requires { F.IsAlwaysCallable f }
        ensures { MakesCall (empty_hub N.limits N.node_id)
            (λ before after. UpdatesResponse (λ c value. c.elements ≡ value ∷ [])
            (λ value. with_elements (value ∷ [])) (FnOnceReturnsAtMut F.FnOnce f) before after self.now) seat.old
            seat.new }
    {
        let handle = self.handle();
        hub.rewritten(
            rt,
            seat,
            self,
            |ports| -> ()
                requires { Names ports.old handle.now kind.ResponseMut × F.IsAlwaysCallable f }
                ensures call { UpdatesResponse (λ c value. c.elements ≡ value ∷ [])
                    (λ value. with_elements (value ∷ [])) (FnOnceReturnsAtMut F.FnOnce f) ports.old ports.new
                    handle.entry.now }
                ensures keeps { Keeps (handle.entry.now ∷ []) ports.old ports.new }
                ensures kind { Names ports.new handle.entry.now kind.ResponseMut }
            { handle.update(ports, f) },
        )
    }
}
