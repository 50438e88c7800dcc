//! The end of ports and handles.
ghost use Rattle.std.specs.Prelude.{◌∷◌, []};
ghost use Rattle.rr_shared_ports.specs.Words.{MakesCall};

use crate::waking::Change;
use crate::{Claimed, Header, Naming, Ports, Seat, SharedPorts};
use rr_ports::{
    ActiveRequest, BackpressureFn, Body, Client, Handle, Hub, PendingResponse, RequestMut,
    RequestMutUninit, Response, ResponseMut, ResponseMutUninit, Server,
};
use std::sync::Wait;

/// A port or a handle that a hub can release. Not in iceoryx2.
pub trait Release<H: Ports>: Handle {
    /// Releases it, as `release` of its type in `rr_ports`.
    fn end(self, hub: &mut H)
        requires { H.names hub.old (Self.number self) Self.kind }
        ensures released { H.ends hub.old (Self.number self) hub.new }
        ensures steps { H.steps (Self.number self ∷ []) hub.old hub.new };

    /// Returns whether it is a server or a handle of one.
    fn is_of_server() -> bool {
        false
    }
}

impl<N: Naming, A: Handle> Claimed<N, A> {
    /// Releases a port or a handle. A port stays connected as long as one of its handles lives. Releasing a pending
    /// response drops its queued responses. After `release` of its type in `rr_ports`.
    pub fn release<H: Ports>(self, hub: &SharedPorts<N, H>, rt: &impl Wait, seat: &mut Seat<N, H>)
    where
        A: Release<H>,
        ensures { MakesCall (H.empty N.limits N.node_id) (λ before after. H.ends before self after) seat.old seat.new }
    {
        let changes: &[Change] = if A::is_of_server() {
            &[Change::ActiveRequestEnded, Change::ServerLeft]
        } else {
            &[Change::PendingResponseEnded]
        };
        hub.ended(rt, seat, self, changes, |handle, ports| handle.end(ports));
    }
}

impl<QB: Body, QH: Header, PB: Body, PH: Header, K: BackpressureFn> Release<Hub<QB, QH, PB, PH, K>>
    for Client<QB> {
    fn end(self, hub: &mut Hub<QB, QH, PB, PH, K>) {
        self.release(hub);
    }
}

impl<QB: Body, QH: Header, PB: Body, PH: Header, K: BackpressureFn> Release<Hub<QB, QH, PB, PH, K>>
    for Server<PB> {
    fn end(self, hub: &mut Hub<QB, QH, PB, PH, K>) {
        self.release(hub);
    }

    fn is_of_server() -> bool {
        true
    }
}

impl<QB: Body, QH: Header, PB: Body, PH: Header, K: BackpressureFn> Release<Hub<QB, QH, PB, PH, K>>
    for RequestMutUninit<QB> {
    fn end(self, hub: &mut Hub<QB, QH, PB, PH, K>) {
        self.release(hub);
    }
}

impl<QB: Body, QH: Header, PB: Body, PH: Header, K: BackpressureFn> Release<Hub<QB, QH, PB, PH, K>>
    for RequestMut<QB> {
    fn end(self, hub: &mut Hub<QB, QH, PB, PH, K>) {
        self.release(hub);
    }
}

impl<QB: Body, QH: Header, PB: Body, PH: Header, K: BackpressureFn> Release<Hub<QB, QH, PB, PH, K>>
    for PendingResponse<QB> {
    fn end(self, hub: &mut Hub<QB, QH, PB, PH, K>) {
        self.release(hub);
    }
}

impl<QB: Body, QH: Header, PB: Body, PH: Header, K: BackpressureFn> Release<Hub<QB, QH, PB, PH, K>>
    for ActiveRequest<QB> {
    fn end(self, hub: &mut Hub<QB, QH, PB, PH, K>) {
        self.release(hub);
    }

    fn is_of_server() -> bool {
        true
    }
}

impl<QB: Body, QH: Header, PB: Body, PH: Header, K: BackpressureFn> Release<Hub<QB, QH, PB, PH, K>>
    for ResponseMutUninit<PB> {
    fn end(self, hub: &mut Hub<QB, QH, PB, PH, K>) {
        self.release(hub);
    }

    fn is_of_server() -> bool {
        true
    }
}

impl<QB: Body, QH: Header, PB: Body, PH: Header, K: BackpressureFn> Release<Hub<QB, QH, PB, PH, K>>
    for ResponseMut<PB> {
    fn end(self, hub: &mut Hub<QB, QH, PB, PH, K>) {
        self.release(hub);
    }

    fn is_of_server() -> bool {
        true
    }
}

impl<QB: Body, QH: Header, PB: Body, PH: Header, K: BackpressureFn> Release<Hub<QB, QH, PB, PH, K>>
    for Response<PB> {
    fn end(self, hub: &mut Hub<QB, QH, PB, PH, K>) {
        self.release(hub);
    }
}
