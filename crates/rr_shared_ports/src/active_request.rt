//! Active requests of a shared hub.
ghost use Rattle.std.specs.Prelude.{◌≡◌, IsSomeAnd};
ghost use Rattle.rr_shared_ports.specs.Words.{is_alive, has_disconnect_hint, Names, active_at, empty_hub, MakesCall};
ghost use Rattle.rr_protocol.specs.declared.kind.Kind.TheVariants as kind;

use crate::{Claimed, Header, Naming, Seat, SharedPorts};
use rr_ports::{ActiveRequest, BackpressureFn, Body, Hub, UniqueClientId};
use std::sync::Wait;

impl<N: Naming, QB: Body> Claimed<N, ActiveRequest<QB>> {
    /// Returns the client that sent the request. After `ActiveRequest::origin` of `rr_ports`.
    pub fn origin<QH: Header, PB: Body, PH: Header, K: BackpressureFn>(
        &self,
        hub: &SharedPorts<N, Hub<QB, QH, PB, PH, K>>,
        rt: &impl Wait,
        seat: &mut Seat<N, Hub<QB, QH, PB, PH, K>>,
    ) -> UniqueClientId
        ensures { MakesCall (empty_hub N.limits N.node_id)
            (λ before after. (after ≡ before) × IsSomeAnd (active_at before self.now)
            (λ active. result.0 ≡ active.message.client)) seat.old seat.new }
    {
        let handle = self.handle();
        hub.looked(
            rt,
            seat,
            self,
            |ports| -> UniqueClientId
                requires { Names ports.now handle.now kind.ActiveRequest }
                ensures { IsSomeAnd (active_at ports.now handle.entry.now)
                    (λ active. result.0 ≡ active.message.client) }
            { handle.origin(ports) },
        )
    }

    /// Returns whether the client still awaits responses. After `ActiveRequest::is_connected` of `rr_ports`.
    pub fn is_connected<QH: Header, PB: Body, PH: Header, K: BackpressureFn>(
        &self,
        hub: &SharedPorts<N, Hub<QB, QH, PB, PH, K>>,
        rt: &impl Wait,
        seat: &mut Seat<N, Hub<QB, QH, PB, PH, K>>,
    ) -> bool
        ensures { MakesCall (empty_hub N.limits N.node_id)
            (λ before after. (after ≡ before) × IsSomeAnd (active_at before self.now)
            (λ active. result ≡ is_alive before active.message.number)) seat.old seat.new }
    {
        let handle = self.handle();
        hub.looked(
            rt,
            seat,
            self,
            |ports| -> bool
                requires { Names ports.now handle.now kind.ActiveRequest }
                ensures { IsSomeAnd (active_at ports.now handle.entry.now)
                    (λ active. result ≡ is_alive ports.now active.message.number) }
            { handle.is_connected(ports) },
        )
    }

    /// Returns whether the client has set the disconnect hint. After `ActiveRequest::has_disconnect_hint` of
    /// `rr_ports`.
    pub fn has_disconnect_hint<QH: Header, PB: Body, PH: Header, K: BackpressureFn>(
        &self,
        hub: &SharedPorts<N, Hub<QB, QH, PB, PH, K>>,
        rt: &impl Wait,
        seat: &mut Seat<N, Hub<QB, QH, PB, PH, K>>,
    ) -> bool
        ensures { MakesCall (empty_hub N.limits N.node_id)
            (λ before after. (after ≡ before) × IsSomeAnd (active_at before self.now)
            (λ active. result ≡ has_disconnect_hint before active.message.number)) seat.old seat.new }
    {
        let handle = self.handle();
        hub.looked(
            rt,
            seat,
            self,
            |ports| -> bool
                requires { Names ports.now handle.now kind.ActiveRequest }
                ensures { IsSomeAnd (active_at ports.now handle.entry.now)
                    (λ active. result ≡ has_disconnect_hint ports.now active.message.number) }
            { handle.has_disconnect_hint(ports) },
        )
    }
}
