//! Writing the payload of a typed request.
#![tactic(auto, using(crate::proofs::Asking::asks), unfolding(crate::specs::Facts::Has, crate::specs::Facts::numbers_left))]

ghost use Rattle.std.specs.Prelude.{◌∷◌, ◌≡◌, IsSomeAnd, option_and_then, [], ℕ};
ghost use Rattle.rr_protocol.specs.declared.kind.Kind.TheVariants as kind;
ghost use Rattle.rr_ports.specs.Facts.{Has, Keeps, Names, numbers_left, Asks, Of};
ghost use Rattle.rr_ports.specs.Owning.{KeepsOwned};
ghost use Rattle.rr_ports.specs.Queues.{KeepsAwaited, KeepsHeard};
ghost use Rattle.rr_protocol.specs.Messages.{request_in};
ghost use Rattle.rr_protocol.specs.State.{handle_at, with_changed};
ghost use Rattle.rr_protocol.specs.Writing.{after_init, with_elements, with_request_content};
ghost use Rattle.rr_slots.specs.Elements.{option_elements};

use crate::hub::Hub;
use crate::request_mut::RequestMut;
use crate::request_mut_uninit::RequestMutUninit;
use rr_hub::BackpressureFn;
use rr_slots::Body;
use std::marker::PhantomData;

impl<T: Drop> RequestMutUninit<Option<T>> {
    /// Returns the payload, or `None` before it was written. After iceoryx2's `RequestMutUninit::payload`, which
    /// lends a `MaybeUninit`.
    #[inline(always)]
    pub fn payload<'a, QH: Default + Drop, PB: Body, PH: Default + Drop, K: BackpressureFn>(
        &self,
        hub: &'a Hub<Option<T>, QH, PB, PH, K>,
    ) -> &'a Option<T>
        requires { Names hub.now self.now kind.RequestMutUninit }
        ensures { IsSomeAnd (option_and_then request_in (handle_at hub.now self.now))
            (λ m. m.content.elements ≡ option_elements result.now) }
    {
        hub.core.request_body(&self.id)
    }

    /// Writes the payload, and makes the request ready to send. A value that was written before is dropped. After
    /// iceoryx2's `RequestMutUninit::write_payload`.
    #[inline(always)]
    pub fn write_payload<QH: Default + Drop, PB: Body, PH: Default + Drop, K: BackpressureFn>(
        self,
        hub: &mut Hub<Option<T>, QH, PB, PH, K>,
        value: T,
    ) -> RequestMut<Option<T>>
        requires { Names hub.old self kind.RequestMutUninit }
        ensures same { result ≡ self }
        ensures written { hub.new ≡ with_changed (with_changed hub.old self
            (with_request_content (with_elements (value ∷ [])))) self after_init }
        ensures kind { Names hub.new result kind.RequestMut }
        ensures says { Has hub.new result (Asks (value ∷ [])) }
        ensures keeps { Keeps (self ∷ []) hub.old hub.new }
        ensures numbers { numbers_left hub.new ≡ numbers_left hub.old }
        ensures of { (port request : ℕ) → Has hub.old self (Of port request) → Has hub.new result (Of port request) }
        ensures heard { KeepsHeard (self ∷ []) hub.old hub.new }
        ensures awaited { KeepsAwaited (self ∷ []) hub.old hub.new }
        ensures owned { KeepsOwned [] hub.old hub.new }
    {
        let RequestMutUninit { id, of: _ } = self;
        hub.core.write_request(&id, value);
        RequestMut {
            id,
            of: PhantomData,
        }
    }
}
