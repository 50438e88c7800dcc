//! A message that can be sent once it is written, and the hint of a pending response.
ghost use Rattle.std.specs.Prelude.{◌≡◌, ◌⊎◌, not, true, Some, IsSomeAnd};
ghost use Rattle.rr_protocol.specs.Messages.{with_hint};
ghost use Rattle.rr_protocol.specs.Queries.{kind_at};
ghost use Rattle.rr_protocol.specs.State.{handle_at, with_changed};
ghost use Rattle.rr_protocol.specs.Writing.{after_init};
ghost use Rattle.rr_store.specs.Writing.{is_ready};

use crate::state::Core;
use rr_protocol::{BackpressureFn, Kind};
use rr_slots::Body;
use rr_store::HandleId;
use rr_writing::{assume_init_at, set_disconnect_hint_at};

mod request;
mod response;

impl<QB: Body, QH: Default + Drop, PB: Body, PH: Default + Drop, K: BackpressureFn> Core<
    QB,
    QH,
    PB,
    PH,
    K,
> {
    /// Makes a message with a complete body ready to send.
    ///
    /// After iceoryx2's `RequestMutUninit::assume_init` and `ResponseMutUninit::assume_init`.
    #[inline(always)]
    pub fn assume_init(&mut self, id: &HandleId)
        requires uninit { (kind_at self.old id.now ≡ Some Kind.RequestMutUninit)
            ⊎ (kind_at self.old id.now ≡ Some Kind.ResponseMutUninit) }
        requires complete { IsSomeAnd (handle_at self.old id.now) (λ handle. is_ready handle ≡ true) }
        ensures { self.new ≡ with_changed self.old id.now after_init }
    {
        let place = self.parts.locate(id);
        assume_init_at(&mut self.parts, id.number(), place);
    }

    /// Sets the disconnect hint of a pending response: its client asks for no further responses. Doesn't return
    /// whether the hint was set before.
    ///
    /// After iceoryx2's `PendingResponse::set_disconnect_hint`.
    #[inline(always)]
    pub fn set_disconnect_hint(&mut self, id: &HandleId)
        requires { kind_at self.old id.now ≡ Some Kind.PendingResponse }
        ensures { self.new ≡ with_changed self.old id.now with_hint }
    {
        let place = self.parts.locate(id);
        set_disconnect_hint_at(&mut self.parts, id.number(), place);
    }
}
