//! Messages whose payload is complete.
#![tactic(auto, using(rr_ports::proofs::Frames::callers), unfolding(rr_ports::specs::Facts::Keeps))]

ghost use Rattle.std.specs.Prelude.{◌≡◌, ◌∷◌, [], IfErr, IfOk};
ghost use Rattle.rr_shared_ports.specs.Words.{Keeps, Names, empty_hub, MakesCall, Initialises, RequestIsComplete, ResponseIsComplete};
ghost use Rattle.rr_protocol.specs.declared.kind.Kind.TheVariants as kind;

use crate::{Claimed, Header, Naming, Seat, SharedPorts, WriteError};
use rr_ports::{
    BackpressureFn, Body, Hub, Refused, RequestMut, RequestMutUninit, ResponseMut,
    ResponseMutUninit, WriteBody,
};
use std::sync::Wait;

impl<N: Naming, QB: WriteBody> Claimed<N, RequestMutUninit<QB>> {
    /// Makes a request with a complete payload ready to send. After `RequestMutUninit::assume_init` of `rr_ports`,
    /// whose condition this call tests.
    ///
    /// # Errors
    ///
    /// - `Incomplete` if fewer elements were written than were loaned. `message` is the request.
    pub fn assume_init<QH: Header, PB: Body, PH: Header, K: BackpressureFn>(
        self,
        hub: &SharedPorts<N, Hub<QB, QH, PB, PH, K>>,
        rt: &impl Wait,
        seat: &mut Seat<N, Hub<QB, QH, PB, PH, K>>,
    ) -> Result<Claimed<N, RequestMut<QB>>, Refused<Claimed<N, RequestMutUninit<QB>>, WriteError>>
        ensures { MakesCall (empty_hub N.limits N.node_id)
            (λ before after. Initialises RequestIsComplete before self result after) seat.old seat.new }
    {
        hub.tried(
            rt,
            seat,
            self,
            &[],
            |handle, ports| -> Result<RequestMut<QB>, Refused<RequestMutUninit<QB>, WriteError>>
                requires { Names ports.old handle kind.RequestMutUninit }
                ensures call { Initialises RequestIsComplete ports.old handle result ports.new }
                ensures keeps { Keeps (handle ∷ []) ports.old ports.new }
                ensures made { IfOk result (λ made. (made ≡ handle) × Names ports.new handle kind.RequestMut) }
                ensures kept { IfErr result (λ refused. (refused.message ≡ handle)
                    × Names ports.new handle kind.RequestMutUninit) }
            {
                if handle.is_complete(ports) {
                    Ok(handle.assume_init(ports))
                } else {
                    Err(Refused {
                        message: handle,
                        error: WriteError::Incomplete,
                    })
                }
            },
        )
    }
}

impl<N: Naming, PB: WriteBody> Claimed<N, ResponseMutUninit<PB>> {
    /// Makes a response with a complete payload ready to send. After `ResponseMutUninit::assume_init` of `rr_ports`,
    /// whose condition this call tests.
    ///
    /// # Errors
    ///
    /// - `Incomplete` if fewer elements were written than were loaned. `message` is the response.
    pub fn assume_init<QB: Body, QH: Header, PH: Header, K: BackpressureFn>(
        self,
        hub: &SharedPorts<N, Hub<QB, QH, PB, PH, K>>,
        rt: &impl Wait,
        seat: &mut Seat<N, Hub<QB, QH, PB, PH, K>>,
    ) -> Result<Claimed<N, ResponseMut<PB>>, Refused<Claimed<N, ResponseMutUninit<PB>>, WriteError>>
        ensures { MakesCall (empty_hub N.limits N.node_id)
            (λ before after. Initialises ResponseIsComplete before self result after) seat.old seat.new }
    {
        hub.tried(
            rt,
            seat,
            self,
            &[],
            |handle, ports| -> Result<ResponseMut<PB>, Refused<ResponseMutUninit<PB>, WriteError>>
                requires { Names ports.old handle kind.ResponseMutUninit }
                ensures call { Initialises ResponseIsComplete ports.old handle result ports.new }
                ensures keeps { Keeps (handle ∷ []) ports.old ports.new }
                ensures made { IfOk result (λ made. (made ≡ handle) × Names ports.new handle kind.ResponseMut) }
                ensures kept { IfErr result (λ refused. (refused.message ≡ handle)
                    × Names ports.new handle kind.ResponseMutUninit) }
            {
                if handle.is_complete(ports) {
                    Ok(handle.assume_init(ports))
                } else {
                    Err(Refused {
                        message: handle,
                        error: WriteError::Incomplete,
                    })
                }
            },
        )
    }
}
