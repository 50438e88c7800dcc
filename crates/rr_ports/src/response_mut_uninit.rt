//! A loaned response whose payload is being written.
#![tactic(auto, using(crate::proofs::Asking::asks), unfolding(crate::specs::Facts::Has, crate::specs::Facts::numbers_left))]

ghost use Rattle.std.specs.Prelude.{◌≡◌, IsSomeAnd, option_and_then, true, ◌∷◌, [], List, ℕ, suc};
ghost use Rattle.rr_protocol.specs.declared.kind.Kind.TheVariants as kind;
ghost use Rattle.rr_ports.specs.Facts.{Has, Keeps, Names, numbers_left, Answers, Of};
ghost use Rattle.rr_ports.specs.Owning.{KeepsOwned, Owns};
ghost use Rattle.rr_ports.specs.Queues.{KeepsAwaited, KeepsHeard};
ghost use Rattle.rr_protocol.specs.Messages.{response_in};
ghost use Rattle.rr_protocol.specs.Queries.{response_header};
ghost use Rattle.rr_protocol.specs.Releases.{after_release};
ghost use Rattle.rr_protocol.specs.State.{handle_at, with_changed};
ghost use Rattle.rr_protocol.specs.Writing.{is_complete, after_init};

use crate::handle::Handle;
use crate::hub::Hub;
use crate::response_mut::ResponseMut;
use rr_hub::{BackpressureFn, HandleId, Kind, LoanError, ResponseHeader};
use rr_slots::{Body, WriteBody};
use std::marker::{Model, PhantomData};

/// A loaned response whose payload is being written. It is not dropped: `assume_init`, a write of the whole payload
/// or `release` ends it.
///
/// # Examples
///
/// Sends a slice of one element as a response (`rr_callers::slices`):
///
/// ```
/// ghost use Rattle.std.specs.Prelude.{◌<◌, []};
/// ghost use Rattle.rr_protocol.specs.declared.kind.Kind.TheVariants as kind;
/// ghost use Rattle.rr_ports.specs.Facts.{Keeps, Names, numbers_left};
///
/// use rr_ports::sliced::{ActiveRequest, Hub};
/// use rr_ports::SendError;
///
/// type Service = Hub<u64, u64, u64, u64>;
///
/// fn send_one(hub: &mut Service, active: &ActiveRequest<u64>, value: u64) -> Result<(), SendError>
///     requires active { Names hub.old active.now kind.ActiveRequest }
///     requires number { 0 < numbers_left hub.old }
///     ensures { Keeps [] hub.old hub.new }
/// {
///     let response = active.loan_slice_uninit(hub, 1)?;
///     let response = response.fill(hub, value);
///     response.send(hub)
/// }
/// ```
#[must_use]
pub struct ResponseMutUninit<PB> {
    pub(crate) id: HandleId,
    pub(crate) of: PhantomData<PB>,
}

impl<PB> Model for ResponseMutUninit<PB> {
    ghost use Rattle.std.specs.Prelude.{ℕ};

    ghost Value = { ℕ };

    ghost view = { λ handle. handle.id };
}

/// Makes the handle of a loan.
#[inline(always)]
pub(crate) fn loaned<PB>(
    id: Result<HandleId, LoanError>,
) -> Result<ResponseMutUninit<PB>, LoanError>
    ensures { result ≡ id }
{
    match id {
        Ok(id) => Ok(ResponseMutUninit {
            id,
            of: PhantomData,
        }),
        Err(error) => Err(error),
    }
}

impl<PB: Body> ResponseMutUninit<PB> {
    /// Returns the header of the response. After iceoryx2's `ResponseMutUninit::header`.
    #[inline(always)]
    pub fn header<QB: Body, QH: Default + Drop, PH: Default + Drop, K: BackpressureFn>(
        &self,
        hub: &Hub<QB, QH, PB, PH, K>,
    ) -> ResponseHeader
        requires { Names hub.now self.now kind.ResponseMutUninit }
        ensures { IsSomeAnd (option_and_then response_in (handle_at hub.now self.now))
            (λ m. result ≡ response_header hub.now m) }
    {
        hub.core.response_header(&self.id)
    }

    /// Returns the user header of the response. After iceoryx2's `ResponseMutUninit::user_header`.
    #[inline(always)]
    pub fn user_header<'a, QB: Body, QH: Default + Drop, PH: Default + Drop, K: BackpressureFn>(
        &self,
        hub: &'a Hub<QB, QH, PB, PH, K>,
    ) -> &'a PH
        requires { Names hub.now self.now kind.ResponseMutUninit }
        ensures { IsSomeAnd (option_and_then response_in (handle_at hub.now self.now))
            (λ m. result.now ≡ m.content.user_header) }
    {
        hub.core.response_user_header(&self.id)
    }

    /// Makes a response with a complete payload ready to send. After iceoryx2's unsafe
    /// `ResponseMutUninit::assume_init`, whose condition is the caller's here: `is_complete` tests it.
    #[inline(always)]
    pub fn assume_init<QB: Body, QH: Default + Drop, PH: Default + Drop, K: BackpressureFn>(
        self,
        hub: &mut Hub<QB, QH, PB, PH, K>,
    ) -> ResponseMut<PB>
        requires kind { Names hub.old self kind.ResponseMutUninit }
        requires complete { IsSomeAnd (option_and_then response_in (handle_at hub.old self))
            (λ m. is_complete m.content ≡ true) }
        ensures same { result ≡ self }
        ensures initialised { hub.new ≡ with_changed hub.old self after_init }
        ensures kind { Names hub.new result kind.ResponseMut }
        ensures says { (xs : List PB.Item) → Has hub.old self (Answers xs) → Has hub.new result (Answers xs) }
        ensures keeps { Keeps (self ∷ []) hub.old hub.new }
        ensures numbers { numbers_left hub.new ≡ numbers_left hub.old }
        ensures of { (port request : ℕ) → Has hub.old self (Of port request) → Has hub.new result (Of port request) }
        ensures heard { KeepsHeard (self ∷ []) hub.old hub.new }
        ensures awaited { KeepsAwaited (self ∷ []) hub.old hub.new }
        ensures owned { KeepsOwned [] hub.old hub.new }
    {
        let ResponseMutUninit { id, of: _ } = self;
        hub.core.assume_init(&id);
        ResponseMut {
            id,
            of: PhantomData,
        }
    }

    /// Releases the response without sending it. Replaces the `Drop` of iceoryx2's `ResponseMutUninit`.
    #[inline(always)]
    pub fn release<QB: Body, QH: Default + Drop, PH: Default + Drop, K: BackpressureFn>(
        self,
        hub: &mut Hub<QB, QH, PB, PH, K>,
    )
        requires { Names hub.old self kind.ResponseMutUninit }
        ensures released { hub.new ≡ after_release hub.old self }
        ensures keeps { Keeps (self ∷ []) hub.old hub.new }
        ensures numbers { numbers_left hub.new ≡ numbers_left hub.old }
        ensures heard { (port request : ℕ) → Has hub.old self (Of port request) → Names hub.old port kind.Server
            → KeepsHeard (self ∷ []) hub.old hub.new }
        ensures awaited { (port request : ℕ) → Has hub.old self (Of port request) → Names hub.old port kind.Server
            → KeepsAwaited (self ∷ []) hub.old hub.new }
        ensures owned { KeepsOwned [] hub.old hub.new }
        ensures frees { (port request most : ℕ) → Has hub.old self (Of port request) → Owns hub.old port (suc most)
            → Owns hub.new port most }
    {
        let ResponseMutUninit { id, of: _ } = self;
        hub.core.release_response_loan(&id);
    }
}

impl<PB: WriteBody> ResponseMutUninit<PB> {
    /// Returns whether all elements of the loan were written. Not in iceoryx2.
    #[inline(always)]
    pub fn is_complete<QB: Body, QH: Default + Drop, PH: Default + Drop, K: BackpressureFn>(
        &self,
        hub: &Hub<QB, QH, PB, PH, K>,
    ) -> bool
        requires { Names hub.now self.now kind.ResponseMutUninit }
        ensures { IsSomeAnd (option_and_then response_in (handle_at hub.now self.now))
            (λ m. result ≡ is_complete m.content) }
    {
        hub.core.response_body(&self.id).is_complete()
    }
}

impl<PB> Handle for ResponseMutUninit<PB> {
    ghost use Rattle.rr_protocol.specs.declared.kind.Kind.TheVariants.{ResponseMutUninit as the_kind};

    ghost number = { λ handle. handle };

    ghost kind = { the_kind };

    fn is_in<QC: Body, QH: Default + Drop, PC: Body, PH: Default + Drop, K: BackpressureFn>(
        &self,
        hub: &Hub<QC, QH, PC, PH, K>,
    ) -> bool {
        hub.core.kind(&self.id) == Some(Kind::ResponseMutUninit)
    }
}
