//! Pending responses of a shared hub.
ghost use Rattle.std.specs.Prelude.{◌≡◌, ◌↔◌, [], IsSomeAnd, IsTrue, length, nat_lt};
ghost use Rattle.rr_shared_ports.specs.Words.{Keeps, Names, with_hint, HasResponse, ReceivesResponse, empty_hub, pending_at, with_changed, MakesCall};
ghost use Rattle.rr_protocol.specs.declared.kind.Kind.TheVariants as kind;

use crate::waking::Change;
use crate::{Claimed, Header, Naming, Seat, SharedPorts};
use rr_ports::{BackpressureFn, Body, Hub, PendingResponse, ReceiveError, Response};
use std::sync::Wait;

impl<N: Naming, QB: Body> Claimed<N, PendingResponse<QB>> {
    /// Sets the disconnect hint, which asks the servers to end the stream. After
    /// `PendingResponse::set_disconnect_hint` of `rr_ports`.
    pub fn set_disconnect_hint<QH: Header, PB: Body, PH: Header, K: BackpressureFn>(
        &self,
        hub: &SharedPorts<N, Hub<QB, QH, PB, PH, K>>,
        rt: &impl Wait,
        seat: &mut Seat<N, Hub<QB, QH, PB, PH, K>>,
    )
        ensures { MakesCall (empty_hub N.limits N.node_id)
            (λ before after. after ≡ with_changed before self.now with_hint) seat.old seat.new }
    {
        let handle = self.handle();
        hub.changed(
            rt,
            seat,
            self,
            &[],
            |ports| -> ()
                requires { Names ports.old handle.now kind.PendingResponse }
                ensures call { ports.new ≡ with_changed ports.old handle.entry.now with_hint }
                ensures keeps { Keeps [] ports.old ports.new }
            { handle.set_disconnect_hint(ports) },
        )
    }

    /// Returns whether a connected server may still answer the request. After `PendingResponse::is_connected` of
    /// `rr_ports`.
    pub fn is_connected<QH: Header, PB: Body, PH: Header, K: BackpressureFn>(
        &self,
        hub: &SharedPorts<N, Hub<QB, QH, PB, PH, K>>,
        rt: &impl Wait,
        seat: &mut Seat<N, Hub<QB, QH, PB, PH, K>>,
    ) -> bool
        ensures { MakesCall (empty_hub N.limits N.node_id)
            (λ before after. (after ≡ before) × IsSomeAnd (pending_at before self.now)
            (λ pending. result ≡ nat_lt 0 (length pending.servers))) seat.old seat.new }
    {
        let handle = self.handle();
        hub.looked(
            rt,
            seat,
            self,
            |ports| -> bool
                requires { Names ports.now handle.now kind.PendingResponse }
                ensures { IsSomeAnd (pending_at ports.now handle.entry.now)
                    (λ pending. result ≡ nat_lt 0 (length pending.servers)) }
            { handle.is_connected(ports) },
        )
    }

    /// Returns how many servers' queues took the request. After `PendingResponse::number_of_server_connections` of
    /// `rr_ports`.
    pub fn number_of_server_connections<QH: Header, PB: Body, PH: Header, K: BackpressureFn>(
        &self,
        hub: &SharedPorts<N, Hub<QB, QH, PB, PH, K>>,
        rt: &impl Wait,
        seat: &mut Seat<N, Hub<QB, QH, PB, PH, K>>,
    ) -> usize
        ensures { MakesCall (empty_hub N.limits N.node_id)
            (λ before after. (after ≡ before) × IsSomeAnd (pending_at before self.now)
            (λ pending. result ≡ pending.connections)) seat.old seat.new }
    {
        let handle = self.handle();
        hub.looked(
            rt,
            seat,
            self,
            |ports| -> usize
                requires { Names ports.now handle.now kind.PendingResponse }
                ensures { IsSomeAnd (pending_at ports.now handle.entry.now) (λ pending. result ≡ pending.connections) }
            { handle.number_of_server_connections(ports) },
        )
    }

    /// Returns whether a response is queued. After `PendingResponse::has_response` of `rr_ports`.
    pub fn has_response<QH: Header, PB: Body, PH: Header, K: BackpressureFn>(
        &self,
        hub: &SharedPorts<N, Hub<QB, QH, PB, PH, K>>,
        rt: &impl Wait,
        seat: &mut Seat<N, Hub<QB, QH, PB, PH, K>>,
    ) -> bool
        ensures { MakesCall (empty_hub N.limits N.node_id)
            (λ before after. (after ≡ before) × IsSomeAnd (pending_at before self.now)
            (λ pending. IsTrue result ↔ HasResponse before pending)) seat.old seat.new }
    {
        let handle = self.handle();
        hub.looked(
            rt,
            seat,
            self,
            |ports| -> bool
                requires { Names ports.now handle.now kind.PendingResponse }
                ensures { IsSomeAnd (pending_at ports.now handle.entry.now)
                    (λ pending. IsTrue result ↔ HasResponse ports.now pending) }
            { handle.has_response(ports) },
        )
    }

    /// Receives a response, if one is queued. After `PendingResponse::receive` of `rr_ports`.
    ///
    /// # Errors
    ///
    /// As `PendingResponse::receive`.
    pub fn receive<QH: Header, PB: Body, PH: Header, K: BackpressureFn>(
        &self,
        hub: &SharedPorts<N, Hub<QB, QH, PB, PH, K>>,
        rt: &impl Wait,
        seat: &mut Seat<N, Hub<QB, QH, PB, PH, K>>,
    ) -> Result<Option<Claimed<N, Response<PB>>>, ReceiveError>
        ensures { MakesCall (empty_hub N.limits N.node_id)
            (λ before after. ReceivesResponse before self.now result after) seat.old seat.new }
    {
        let handle = self.handle();
        hub.received(
            rt,
            seat,
            self,
            &[Change::EntryTaken],
            |ports| handle.receive(ports),
        )
    }
}
