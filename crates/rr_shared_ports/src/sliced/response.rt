//! The payload of a received response, in the sliced family.
ghost use Rattle.std.specs.Prelude.{◌≡◌, IsSomeAnd, option_and_then};
ghost use Rattle.std.specs.Fn.{FnOnceReturnsAt};
ghost use Rattle.rr_shared_ports.specs.Words.{Names, response_in, empty_hub, handle_at, MakesCall};
ghost use Rattle.rr_protocol.specs.declared.kind.Kind.TheVariants as kind;

use crate::{Claimed, Header, Naming, Seat, SharedPorts};
use rr_ports::{BackpressureFn, Body, Hub, Response, SliceBody};
use std::sync::Wait;

impl<N: Naming, T: Drop> Claimed<N, Response<SliceBody<T>>> {
    /// Lets a function read the payload of the response in place, under the lock. Not in iceoryx2, which returns a
    /// reference.
    pub fn read<QB: Body, QH: Header, PH: Header, K: BackpressureFn, U, F: FnOnce(&[T]) -> U>(
        &self,
        hub: &SharedPorts<N, Hub<QB, QH, SliceBody<T>, PH, K>>,
        rt: &impl Wait,
        seat: &mut Seat<N, Hub<QB, QH, SliceBody<T>, PH, K>>,
        f: F,
    ) -> U
        requires { F.IsAlwaysCallable f }
        ensures { MakesCall (empty_hub N.limits N.node_id)
            (λ before after. (after ≡ before) × IsSomeAnd (option_and_then response_in (handle_at before self.now))
            (λ m. FnOnceReturnsAt F.FnOnce f m.content.elements result)) seat.old seat.new }
    {
        let handle = self.handle();
        hub.looked(
            rt,
            seat,
            self,
            |ports| -> U
                requires { Names ports.now handle.now kind.Response × F.IsAlwaysCallable f }
                ensures { IsSomeAnd (option_and_then response_in (handle_at ports.now handle.entry.now))
                    (λ m. FnOnceReturnsAt F.FnOnce f m.content.elements result) }
            { f(handle.payload(ports)) },
        )
    }
}
