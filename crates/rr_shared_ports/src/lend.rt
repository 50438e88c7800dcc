//! How the user headers of loaned messages are changed in place.
ghost use Rattle.std.specs.Prelude.{◌≡◌, []};
ghost use Rattle.std.specs.Fn.{FnOnceReturnsAtMut};
ghost use Rattle.rr_shared_ports.specs.Words.{Keeps, Names, UpdatesRequest, UpdatesResponse, empty_hub, MakesCall, with_user_header};
ghost use Rattle.rr_protocol.specs.declared.kind.Kind.TheVariants as kind;

use crate::{Claimed, Header, Naming, Seat, SharedPorts};
use rr_ports::{
    BackpressureFn, Body, Hub, RequestMut, RequestMutUninit, ResponseMut, ResponseMutUninit,
};
use std::sync::Wait;

impl<N: Naming, QB: Body> Claimed<N, RequestMutUninit<QB>> {
    /// Lets a function change the user header of the request in place, under the lock. After
    /// `RequestMutUninit::update_user_header` of `rr_ports`.
    pub fn update_user_header<
        QH: Header,
        PB: Body,
        PH: Header,
        K: BackpressureFn,
        F: FnOnce(&mut QH),
    >(
        &self,
        hub: &SharedPorts<N, Hub<QB, QH, PB, PH, K>>,
        rt: &impl Wait,
        seat: &mut Seat<N, Hub<QB, QH, PB, PH, K>>,
        f: F,
    )
        requires { F.IsAlwaysCallable f }
        ensures { MakesCall (empty_hub N.limits N.node_id)
            (λ before after. UpdatesRequest (λ c header. c.user_header ≡ header) with_user_header
            (FnOnceReturnsAtMut F.FnOnce f) before after self.now) seat.old seat.new }
    {
        let handle = self.handle();
        hub.changed(
            rt,
            seat,
            self,
            &[],
            |ports| -> ()
                requires { Names ports.old handle.now kind.RequestMutUninit × F.IsAlwaysCallable f }
                ensures call { UpdatesRequest (λ c header. c.user_header ≡ header) with_user_header
                    (FnOnceReturnsAtMut F.FnOnce f) ports.old ports.new handle.entry.now }
                ensures keeps { Keeps [] ports.old ports.new }
            { handle.update_user_header(ports, f) },
        )
    }
}

impl<N: Naming, QB: Body> Claimed<N, RequestMut<QB>> {
    /// Lets a function change the user header of the request in place, under the lock. After
    /// `RequestMut::update_user_header` of `rr_ports`.
    pub fn update_user_header<
        QH: Header,
        PB: Body,
        PH: Header,
        K: BackpressureFn,
        F: FnOnce(&mut QH),
    >(
        &self,
        hub: &SharedPorts<N, Hub<QB, QH, PB, PH, K>>,
        rt: &impl Wait,
        seat: &mut Seat<N, Hub<QB, QH, PB, PH, K>>,
        f: F,
    )
        requires { F.IsAlwaysCallable f }
        ensures { MakesCall (empty_hub N.limits N.node_id)
            (λ before after. UpdatesRequest (λ c header. c.user_header ≡ header) with_user_header
            (FnOnceReturnsAtMut F.FnOnce f) before after self.now) seat.old seat.new }
    {
        let handle = self.handle();
        hub.changed(
            rt,
            seat,
            self,
            &[],
            |ports| -> ()
                requires { Names ports.old handle.now kind.RequestMut × F.IsAlwaysCallable f }
                ensures call { UpdatesRequest (λ c header. c.user_header ≡ header) with_user_header
                    (FnOnceReturnsAtMut F.FnOnce f) ports.old ports.new handle.entry.now }
                ensures keeps { Keeps [] ports.old ports.new }
            { handle.update_user_header(ports, f) },
        )
    }
}

impl<N: Naming, PB: Body> Claimed<N, ResponseMutUninit<PB>> {
    /// Lets a function change the user header of the response in place, under the lock. After
    /// `ResponseMutUninit::update_user_header` of `rr_ports`.
    pub fn update_user_header<
        QB: Body,
        QH: Header,
        PH: Header,
        K: BackpressureFn,
        F: FnOnce(&mut PH),
    >(
        &self,
        hub: &SharedPorts<N, Hub<QB, QH, PB, PH, K>>,
        rt: &impl Wait,
        seat: &mut Seat<N, Hub<QB, QH, PB, PH, K>>,
        f: F,
    )
        requires { F.IsAlwaysCallable f }
        ensures { MakesCall (empty_hub N.limits N.node_id)
            (λ before after. UpdatesResponse (λ c header. c.user_header ≡ header) with_user_header
            (FnOnceReturnsAtMut F.FnOnce f) before after self.now) seat.old seat.new }
    {
        let handle = self.handle();
        hub.changed(
            rt,
            seat,
            self,
            &[],
            |ports| -> ()
                requires { Names ports.old handle.now kind.ResponseMutUninit × F.IsAlwaysCallable f }
                ensures call { UpdatesResponse (λ c header. c.user_header ≡ header) with_user_header
                    (FnOnceReturnsAtMut F.FnOnce f) ports.old ports.new handle.entry.now }
                ensures keeps { Keeps [] ports.old ports.new }
            { handle.update_user_header(ports, f) },
        )
    }
}

impl<N: Naming, PB: Body> Claimed<N, ResponseMut<PB>> {
    /// Lets a function change the user header of the response in place, under the lock. After
    /// `ResponseMut::update_user_header` of `rr_ports`.
    pub fn update_user_header<
        QB: Body,
        QH: Header,
        PH: Header,
        K: BackpressureFn,
        F: FnOnce(&mut PH),
    >(
        &self,
        hub: &SharedPorts<N, Hub<QB, QH, PB, PH, K>>,
        rt: &impl Wait,
        seat: &mut Seat<N, Hub<QB, QH, PB, PH, K>>,
        f: F,
    )
        requires { F.IsAlwaysCallable f }
        ensures { MakesCall (empty_hub N.limits N.node_id)
            (λ before after. UpdatesResponse (λ c header. c.user_header ≡ header) with_user_header
            (FnOnceReturnsAtMut F.FnOnce f) before after self.now) seat.old seat.new }
    {
        let handle = self.handle();
        hub.changed(
            rt,
            seat,
            self,
            &[],
            |ports| -> ()
                requires { Names ports.old handle.now kind.ResponseMut × F.IsAlwaysCallable f }
                ensures call { UpdatesResponse (λ c header. c.user_header ≡ header) with_user_header
                    (FnOnceReturnsAtMut F.FnOnce f) ports.old ports.new handle.entry.now }
                ensures keeps { Keeps [] ports.old ports.new }
            { handle.update_user_header(ports, f) },
        )
    }
}
