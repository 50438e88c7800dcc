//! The payload of a received response, in the typed family.
ghost use Rattle.std.specs.Prelude.{◌≡◌, ◌∷◌, [], IsSomeAnd, option_and_then};
ghost use Rattle.std.specs.Fn.{FnOnceReturnsAt};
ghost use Rattle.rr_shared_ports.specs.Words.{Keeps, Names, response_in, after_release, empty_hub, handle_at, MakesCall};
ghost use Rattle.rr_protocol.specs.declared.kind.Kind.TheVariants as kind;

use crate::{Claimed, Header, Naming, Seat, SharedPorts};
use rr_ports::{BackpressureFn, Body, Hub, Response};
use std::sync::Wait;

impl<N: Naming, T: Drop> Claimed<N, Response<Option<T>>> {
    /// Returns the payload of the response. Not in iceoryx2, which returns a reference.
    pub fn payload_copy<QB: Body, QH: Header, PH: Header, K: BackpressureFn>(
        &self,
        hub: &SharedPorts<N, Hub<QB, QH, Option<T>, PH, K>>,
        rt: &impl Wait,
        seat: &mut Seat<N, Hub<QB, QH, Option<T>, PH, K>>,
    ) -> T
    where
        T: Copy,
        ensures { MakesCall (empty_hub N.limits N.node_id)
            (λ before after. (after ≡ before) × IsSomeAnd (option_and_then response_in (handle_at before self.now))
            (λ m. m.content.elements ≡ result ∷ [])) seat.old seat.new }
    {
        let handle = self.handle();
        hub.looked(rt, seat, self, |ports| *handle.payload(ports))
    }

    /// Lets a function read the payload of the response in place, under the lock. Not in iceoryx2, which returns a
    /// reference.
    pub fn read<QB: Body, QH: Header, PH: Header, K: BackpressureFn, U, F: FnOnce(&T) -> U>(
        &self,
        hub: &SharedPorts<N, Hub<QB, QH, Option<T>, PH, K>>,
        rt: &impl Wait,
        seat: &mut Seat<N, Hub<QB, QH, Option<T>, PH, K>>,
        f: F,
    ) -> U
        requires { F.IsAlwaysCallable f }
        ensures { MakesCall (empty_hub N.limits N.node_id)
            (λ before after. (after ≡ before) × (value : T)
            × IsSomeAnd (option_and_then response_in (handle_at before self.now))
            (λ m. m.content.elements ≡ value ∷ []) × FnOnceReturnsAt F.FnOnce f value result) seat.old seat.new }
    {
        let handle = self.handle();
        hub.looked(
            rt,
            seat,
            self,
            |ports| -> U
                requires { Names ports.now handle.now kind.Response × F.IsAlwaysCallable f }
                ensures { (value : T) × IsSomeAnd (option_and_then response_in (handle_at ports.now handle.entry.now))
                    (λ m. m.content.elements ≡ value ∷ []) × FnOnceReturnsAt F.FnOnce f value result }
            { f(handle.payload(ports)) },
        )
    }

    /// Takes the payload out of the response, and releases it. After `Response::into_payload` of `rr_ports`.
    pub fn into_payload<QB: Body, QH: Header, PH: Header, K: BackpressureFn>(
        self,
        hub: &SharedPorts<N, Hub<QB, QH, Option<T>, PH, K>>,
        rt: &impl Wait,
        seat: &mut Seat<N, Hub<QB, QH, Option<T>, PH, K>>,
    ) -> T
        ensures { MakesCall (empty_hub N.limits N.node_id)
            (λ before after. (after ≡ after_release before self)
            × IsSomeAnd (option_and_then response_in (handle_at before self)) (λ m. m.content.elements ≡ result ∷ []))
            seat.old seat.new }
    {
        hub.ended(
            rt,
            seat,
            self,
            &[],
            |handle, ports| -> T
                requires { Names ports.old handle kind.Response }
                ensures call { (ports.new ≡ after_release ports.old handle)
                    × IsSomeAnd (option_and_then response_in (handle_at ports.old handle))
                    (λ m. m.content.elements ≡ result ∷ []) }
                ensures keeps { Keeps (handle ∷ []) ports.old ports.new }
            { handle.into_payload(ports) },
        )
    }
}
