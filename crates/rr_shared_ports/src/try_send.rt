//! Sends that return the message on a refusal.
#![tactic(auto, using(rr_ports::proofs::Frames::callers), unfolding(rr_ports::specs::Facts::Keeps))]

ghost use Rattle.std.specs.Prelude.{◌≡◌, ◌∷◌, [], IfErr, IfOk};
ghost use Rattle.rr_shared_ports.specs.Words.{Keeps, Names, empty_hub, MakesCall, TriesRequest, TriesResponse};
ghost use Rattle.rr_protocol.specs.declared.kind.Kind.TheVariants as kind;

use crate::waking::Change;
use crate::{Claimed, Header, Naming, Seat, SharedPorts};
use rr_ports::{
    BackpressureFn, Body, Hub, PendingResponse, Refused, RequestMut, RequestSendError, ResponseMut,
    SendError,
};
use std::sync::Wait;

impl<N: Naming, QB: Body> Claimed<N, RequestMut<QB>> {
    /// Sends the request as `send` does, or returns it with its content on a refusal. After `RequestMut::try_send` of
    /// `rr_ports`.
    ///
    /// # Errors
    ///
    /// As `RequestMut::try_send`: `message` is the request, and `error` as `send`.
    pub fn try_send<QH: Header, PB: Body, PH: Header, K: BackpressureFn>(
        self,
        hub: &SharedPorts<N, Hub<QB, QH, PB, PH, K>>,
        rt: &impl Wait,
        seat: &mut Seat<N, Hub<QB, QH, PB, PH, K>>,
    ) -> Result<
        Claimed<N, PendingResponse<QB>>,
        Refused<Claimed<N, RequestMut<QB>>, RequestSendError>,
    >
        ensures { MakesCall (empty_hub N.limits N.node_id)
            (λ before after. TriesRequest K.action before self result after) seat.old seat.new }
    {
        hub.tried(
            rt,
            seat,
            self,
            &[Change::RequestQueued],
            |handle, ports| -> Result<
                PendingResponse<QB>,
                Refused<RequestMut<QB>, RequestSendError>,
            >
                requires { Names ports.old handle kind.RequestMut }
                ensures call { TriesRequest K.action ports.old handle result ports.new }
                ensures keeps { Keeps (handle ∷ []) ports.old ports.new }
                ensures made { IfOk result (λ made. (made ≡ handle) × Names ports.new made kind.PendingResponse) }
                ensures kept { IfErr result (λ refused. (refused.message ≡ handle)
                    × Names ports.new handle kind.RequestMut) }
            { handle.try_send(ports) },
        )
    }
}

impl<N: Naming, PB: Body> Claimed<N, ResponseMut<PB>> {
    /// Sends the response as `send` does, or returns it with its content on a refusal. After `ResponseMut::try_send`
    /// of `rr_ports`.
    ///
    /// # Errors
    ///
    /// As `ResponseMut::try_send`: `message` is the response, and `error` is `UnableToDeliver`.
    pub fn try_send<QB: Body, QH: Header, PH: Header, K: BackpressureFn>(
        self,
        hub: &SharedPorts<N, Hub<QB, QH, PB, PH, K>>,
        rt: &impl Wait,
        seat: &mut Seat<N, Hub<QB, QH, PB, PH, K>>,
    ) -> Result<(), Refused<Claimed<N, ResponseMut<PB>>, SendError>>
        ensures { MakesCall (empty_hub N.limits N.node_id)
            (λ before after. TriesResponse K.action before self result after) seat.old seat.new }
    {
        hub.spent(
            rt,
            seat,
            self,
            &[Change::ResponseQueued, Change::ServerLeft],
            |handle, ports| -> Result<(), Refused<ResponseMut<PB>, SendError>>
                requires { Names ports.old handle kind.ResponseMut }
                ensures call { TriesResponse K.action ports.old handle result ports.new }
                ensures keeps { Keeps (handle ∷ []) ports.old ports.new }
                ensures kept { IfErr result (λ refused. (refused.message ≡ handle)
                    × Names ports.new handle kind.ResponseMut) }
            { handle.try_send(ports) },
        )
    }
}
