//! A loaned request whose payload is being written.
#![tactic(auto, using(crate::proofs::Asking::asks), unfolding(crate::specs::Facts::Has, crate::specs::Facts::numbers_left))]

ghost use Rattle.std.specs.Prelude.{◌≡◌, IsSomeAnd, option_and_then, true, ◌∷◌, [], List, ℕ, suc};
ghost use Rattle.rr_protocol.specs.declared.kind.Kind.TheVariants as kind;
ghost use Rattle.rr_ports.specs.Facts.{Has, Keeps, Names, numbers_left, Asks, Of};
ghost use Rattle.rr_ports.specs.Owning.{KeepsOwned, Owns};
ghost use Rattle.rr_ports.specs.Queues.{KeepsAwaited, KeepsHeard};
ghost use Rattle.rr_protocol.specs.Messages.{request_in};
ghost use Rattle.rr_protocol.specs.Queries.{request_header};
ghost use Rattle.rr_protocol.specs.Releases.{after_release};
ghost use Rattle.rr_protocol.specs.State.{handle_at, with_changed};
ghost use Rattle.rr_protocol.specs.Writing.{is_complete, after_init};

use crate::handle::Handle;
use crate::hub::Hub;
use crate::request_mut::RequestMut;
use rr_hub::{BackpressureFn, HandleId, Kind, LoanError, RequestHeader};
use rr_slots::{Body, WriteBody};
use std::marker::{Model, PhantomData};

/// A loaned request whose payload is being written. It is not dropped: `assume_init`, a write of the whole payload or
/// `release` ends it.
///
/// # Examples
///
/// Appends values to a request until it is complete or no value is left (`rr_callers::slices`):
///
/// ```
/// ghost use Rattle.std.specs.Prelude.{◌≡◌, [], ◌∷◌};
/// ghost use Rattle.rr_protocol.specs.declared.kind.Kind.TheVariants as kind;
/// ghost use Rattle.rr_ports.specs.Facts.{Keeps, Names, numbers_left};
///
/// use rr_ports::sliced::{Hub, RequestMutUninit};
///
/// type Service = Hub<u64, u64, u64, u64>;
///
/// fn write(hub: &mut Service, request: &RequestMutUninit<u64>, values: &[u64])
///     requires { Names hub.old request.now kind.RequestMutUninit }
///     ensures kind { Names hub.new request.now kind.RequestMutUninit }
///     ensures keeps { Keeps (request.now ∷ []) hub.old hub.new }
///     ensures numbers { numbers_left hub.new ≡ numbers_left hub.old }
/// {
///     for value in values {
///         if request.is_complete(hub) {
///             return;
///         }
///         request.push(hub, *value);
///     }
/// }
/// ```
#[must_use]
pub struct RequestMutUninit<QB> {
    pub(crate) id: HandleId,
    pub(crate) of: PhantomData<QB>,
}

impl<QB> Model for RequestMutUninit<QB> {
    ghost use Rattle.std.specs.Prelude.{ℕ};

    ghost Value = { ℕ };

    ghost view = { λ handle. handle.id };
}

/// Makes the handle of a loan.
#[inline(always)]
pub(crate) fn loaned<QB>(id: Result<HandleId, LoanError>) -> Result<RequestMutUninit<QB>, LoanError>
    ensures { result ≡ id }
{
    match id {
        Ok(id) => Ok(RequestMutUninit {
            id,
            of: PhantomData,
        }),
        Err(error) => Err(error),
    }
}

impl<QB: Body> RequestMutUninit<QB> {
    /// Returns the header of the request. After iceoryx2's `RequestMutUninit::header`.
    #[inline(always)]
    pub fn header<QH: Default + Drop, PB: Body, PH: Default + Drop, K: BackpressureFn>(
        &self,
        hub: &Hub<QB, QH, PB, PH, K>,
    ) -> RequestHeader
        requires { Names hub.now self.now kind.RequestMutUninit }
        ensures { IsSomeAnd (option_and_then request_in (handle_at hub.now self.now))
            (λ m. result ≡ request_header hub.now m) }
    {
        hub.core.request_header(&self.id)
    }

    /// Returns the user header of the request. After iceoryx2's `RequestMutUninit::user_header`.
    #[inline(always)]
    pub fn user_header<'a, QH: Default + Drop, PB: Body, PH: Default + Drop, K: BackpressureFn>(
        &self,
        hub: &'a Hub<QB, QH, PB, PH, K>,
    ) -> &'a QH
        requires { Names hub.now self.now kind.RequestMutUninit }
        ensures { IsSomeAnd (option_and_then request_in (handle_at hub.now self.now))
            (λ m. result.now ≡ m.content.user_header) }
    {
        hub.core.request_user_header(&self.id)
    }

    /// Makes a request with a complete payload ready to send. After iceoryx2's unsafe
    /// `RequestMutUninit::assume_init`, whose condition is the caller's here: `is_complete` tests it.
    #[inline(always)]
    pub fn assume_init<QH: Default + Drop, PB: Body, PH: Default + Drop, K: BackpressureFn>(
        self,
        hub: &mut Hub<QB, QH, PB, PH, K>,
    ) -> RequestMut<QB>
        requires kind { Names hub.old self kind.RequestMutUninit }
        requires complete { IsSomeAnd (option_and_then request_in (handle_at hub.old self))
            (λ m. is_complete m.content ≡ true) }
        ensures same { result ≡ self }
        ensures initialised { hub.new ≡ with_changed hub.old self after_init }
        ensures kind { Names hub.new result kind.RequestMut }
        ensures says { (xs : List QB.Item) → Has hub.old self (Asks xs) → Has hub.new result (Asks xs) }
        ensures keeps { Keeps (self ∷ []) hub.old hub.new }
        ensures numbers { numbers_left hub.new ≡ numbers_left hub.old }
        ensures of { (port request : ℕ) → Has hub.old self (Of port request) → Has hub.new result (Of port request) }
        ensures heard { KeepsHeard (self ∷ []) hub.old hub.new }
        ensures awaited { KeepsAwaited (self ∷ []) hub.old hub.new }
        ensures owned { KeepsOwned [] hub.old hub.new }
    {
        let RequestMutUninit { id, of: _ } = self;
        hub.core.assume_init(&id);
        RequestMut {
            id,
            of: PhantomData,
        }
    }

    /// Releases the request without sending it. Replaces the `Drop` of iceoryx2's `RequestMutUninit`.
    #[inline(always)]
    pub fn release<QH: Default + Drop, PB: Body, PH: Default + Drop, K: BackpressureFn>(
        self,
        hub: &mut Hub<QB, QH, PB, PH, K>,
    )
        requires { Names hub.old self kind.RequestMutUninit }
        ensures released { hub.new ≡ after_release hub.old self }
        ensures keeps { Keeps (self ∷ []) hub.old hub.new }
        ensures numbers { numbers_left hub.new ≡ numbers_left hub.old }
        ensures heard { (port request : ℕ) → Has hub.old self (Of port request) → Names hub.old port kind.Client
            → KeepsHeard (self ∷ []) hub.old hub.new }
        ensures awaited { (port request : ℕ) → Has hub.old self (Of port request) → Names hub.old port kind.Client
            → KeepsAwaited (self ∷ []) hub.old hub.new }
        ensures owned { KeepsOwned [] hub.old hub.new }
        ensures frees { (port request most : ℕ) → Has hub.old self (Of port request) → Owns hub.old port (suc most)
            → Owns hub.new port most }
    {
        let RequestMutUninit { id, of: _ } = self;
        hub.core.release_request(&id);
    }
}

impl<QB: WriteBody> RequestMutUninit<QB> {
    /// Returns whether all elements of the loan were written. Not in iceoryx2.
    #[inline(always)]
    pub fn is_complete<QH: Default + Drop, PB: Body, PH: Default + Drop, K: BackpressureFn>(
        &self,
        hub: &Hub<QB, QH, PB, PH, K>,
    ) -> bool
        requires { Names hub.now self.now kind.RequestMutUninit }
        ensures { IsSomeAnd (option_and_then request_in (handle_at hub.now self.now))
            (λ m. result ≡ is_complete m.content) }
    {
        hub.core.request_body(&self.id).is_complete()
    }
}

impl<QB> Handle for RequestMutUninit<QB> {
    ghost use Rattle.rr_protocol.specs.declared.kind.Kind.TheVariants.{RequestMutUninit as the_kind};

    ghost number = { λ handle. handle };

    ghost kind = { the_kind };

    fn is_in<QC: Body, QH: Default + Drop, PC: Body, PH: Default + Drop, K: BackpressureFn>(
        &self,
        hub: &Hub<QC, QH, PC, PH, K>,
    ) -> bool {
        hub.core.kind(&self.id) == Some(Kind::RequestMutUninit)
    }
}
