//! A loaned response that can be sent.
#![tactic(auto, using(crate::proofs::Asking::asks), unfolding(crate::specs::Facts::Has, crate::specs::Facts::numbers_left))]

ghost use Rattle.std.specs.Prelude.{◌≡◌, IfErr, IsOk, IsSomeAnd, option_and_then, ◌∷◌, [], ℕ, List, OnOk, length, ◌<◌, ◌++◌, suc};
ghost use Rattle.rr_protocol.specs.declared.kind.Kind.TheVariants as kind;
ghost use Rattle.rr_ports.specs.Facts.{Discards, Has, Keeps, Names, numbers_left, Of, Answers};
ghost use Rattle.rr_ports.specs.Owning.{KeepsOwned, Owns};
ghost use Rattle.rr_ports.specs.Queues.{Awaits, AwaitsNothing, KeepsAwaited, KeepsHeard};
ghost use Rattle.rr_protocol.specs.Messages.{response_in};
ghost use Rattle.rr_protocol.specs.Queries.{response_header};
ghost use Rattle.rr_protocol.specs.Releases.{after_release};
ghost use Rattle.rr_protocol.specs.Sends.{is_response_deliverable, SendsResponse};
ghost use Rattle.rr_protocol.specs.State.{handle_at, response_at};

use crate::handle::Handle;
use crate::hub::Hub;
use rr_hub::{BackpressureFn, HandleId, Kind, ResponseHeader, SendError};
use rr_slots::Body;
use std::marker::{Model, PhantomData};

/// A loaned response that can be sent. It is not dropped: `send` or `release` ends it.
///
/// # Examples
///
/// Sends a response, and returns it if it could not be sent yet (`rr_callers::keeping`):
///
/// ```
/// ghost use Rattle.std.specs.Prelude.{◌≡◌, ◌∷◌, [], IfSome};
/// ghost use Rattle.rr_protocol.specs.declared.kind.Kind.TheVariants as kind;
/// ghost use Rattle.rr_ports.specs.Facts.{Keeps, Names, numbers_left};
///
/// use rr_ports::Refused;
/// use rr_ports::typed::{Hub, ResponseMut};
///
/// type Service = Hub<u64, u64, u64, u64>;
///
/// fn offered_again(hub: &mut Service, response: ResponseMut<u64>) -> Option<ResponseMut<u64>>
///     requires { Names hub.old response kind.ResponseMut }
///     ensures same { IfSome result (λ kept. kept ≡ response) }
///     ensures kind { IfSome result (λ kept. Names hub.new kept kind.ResponseMut) }
///     ensures keeps { Keeps (response ∷ []) hub.old hub.new }
///     ensures numbers { numbers_left hub.new ≡ numbers_left hub.old }
/// {
///     match response.try_send(hub) {
///         Ok(()) => None,
///         Err(refused) => {
///             let Refused { message, error: _ } = refused;
///             Some(message)
///         }
///     }
/// }
/// ```
#[must_use]
pub struct ResponseMut<PB> {
    pub(crate) id: HandleId,
    pub(crate) of: PhantomData<PB>,
}

impl<PB> Model for ResponseMut<PB> {
    ghost use Rattle.std.specs.Prelude.{ℕ};

    ghost Value = { ℕ };

    ghost view = { λ handle. handle.id };
}

impl<PB: Body> ResponseMut<PB> {
    /// Returns the header of the response. After iceoryx2's `ResponseMut::header`.
    #[inline(always)]
    pub fn header<QB: Body, QH: Default + Drop, PH: Default + Drop, K: BackpressureFn>(
        &self,
        hub: &Hub<QB, QH, PB, PH, K>,
    ) -> ResponseHeader
        requires { Names hub.now self.now kind.ResponseMut }
        ensures { IsSomeAnd (option_and_then response_in (handle_at hub.now self.now))
            (λ m. result ≡ response_header hub.now m) }
    {
        hub.core.response_header(&self.id)
    }

    /// Returns the user header of the response. After iceoryx2's `ResponseMut::user_header`.
    #[inline(always)]
    pub fn user_header<'a, QB: Body, QH: Default + Drop, PH: Default + Drop, K: BackpressureFn>(
        &self,
        hub: &'a Hub<QB, QH, PB, PH, K>,
    ) -> &'a PH
        requires { Names hub.now self.now kind.ResponseMut }
        ensures { IsSomeAnd (option_and_then response_in (handle_at hub.now self.now))
            (λ m. result.now ≡ m.content.user_header) }
    {
        hub.core.response_user_header(&self.id)
    }

    /// Returns whether the queue that a send would reach, if any, takes the response: it is not full, or may
    /// overflow. Not in iceoryx2.
    #[inline(always)]
    pub fn is_deliverable<QB: Body, QH: Default + Drop, PH: Default + Drop, K: BackpressureFn>(
        &self,
        hub: &Hub<QB, QH, PB, PH, K>,
    ) -> bool
        requires { Names hub.now self.now kind.ResponseMut }
        ensures { IsSomeAnd (response_at hub.now self.now) (λ m. result ≡ is_response_deliverable hub.now m) }
    {
        hub.core.is_response_deliverable(&self.id)
    }

    /// Sends the response to its request, if it is still pending at a connected client, and otherwise releases the
    /// response. With `DiscardData` a full queue is skipped; a stream that must not have gaps needs
    /// `RetryUntilDelivered`. Takes no memory. After iceoryx2's `ResponseMut::send`.
    ///
    /// # Errors
    ///
    /// - `UnableToDeliver` if the queue to the request is full, may not overflow, and is not skipped. The response is
    ///   released, and the queue is unchanged. Never if the server discards at full queues (`discards`), or no
    ///   response is queued for the request (`delivered`), or fewer than its buffer takes (`room`).
    #[inline(always)]
    pub fn send<QB: Body, QH: Default + Drop, PH: Default + Drop, K: BackpressureFn>(
        self,
        hub: &mut Hub<QB, QH, PB, PH, K>,
    ) -> Result<(), SendError>
        requires { Names hub.old self kind.ResponseMut }
        ensures sends { SendsResponse K.action hub.old self result hub.new }
        ensures keeps { Keeps (self ∷ []) hub.old hub.new }
        ensures numbers { numbers_left hub.new ≡ numbers_left hub.old }
        ensures first { (server pending : ℕ) (xs : List PB.Item) → Has hub.old self (Of server pending)
            → Names hub.old server kind.Server → Has hub.old self (Answers xs) → AwaitsNothing hub.old pending
            → OnOk result (Awaits hub.new pending server (xs ∷ [])) }
        ensures next { (server pending : ℕ) (answers : List (List PB.Item)) (xs : List PB.Item)
            → Has hub.old self (Of server pending) → Names hub.old server kind.Server → Has hub.old self (Answers xs)
            → Awaits hub.old pending server answers → length answers < hub.old.limits.max_response_buffer_size
            → OnOk result (Awaits hub.new pending server (answers ++ xs ∷ [])) }
        ensures heard { (port request : ℕ) → Has hub.old self (Of port request) → Names hub.old port kind.Server
            → KeepsHeard (self ∷ []) hub.old hub.new }
        ensures awaited { (server pending : ℕ) → Has hub.old self (Of server pending)
            → Names hub.old server kind.Server → KeepsAwaited (self ∷ pending ∷ []) hub.old hub.new }
        ensures refused { (server pending : ℕ) → Has hub.old self (Of server pending)
            → Names hub.old server kind.Server → IfErr result (λ error. KeepsAwaited (self ∷ []) hub.old hub.new) }
        ensures delivered { (server pending : ℕ) → Has hub.old self (Of server pending)
            → AwaitsNothing hub.old pending → IsOk result }
        ensures room { (server pending : ℕ) (answers : List (List PB.Item)) → Has hub.old self (Of server pending)
            → Awaits hub.old pending server answers → length answers < hub.old.limits.max_response_buffer_size
            → IsOk result }
        ensures discards { (port request : ℕ) → Has hub.old self (Of port request) → Has hub.old port Discards
            → IsOk result }
        ensures owned { KeepsOwned [] hub.old hub.new }
        ensures frees { (port request most : ℕ) → Has hub.old self (Of port request) → Owns hub.old port (suc most)
            → Owns hub.new port most }
    {
        let ResponseMut { id, of: _ } = self;
        hub.core.reached();
        hub.core.send_response(&id)
    }

    /// Releases the response without sending it. Replaces the `Drop` of iceoryx2's `ResponseMut`.
    #[inline(always)]
    pub fn release<QB: Body, QH: Default + Drop, PH: Default + Drop, K: BackpressureFn>(
        self,
        hub: &mut Hub<QB, QH, PB, PH, K>,
    )
        requires { Names hub.old self kind.ResponseMut }
        ensures released { hub.new ≡ after_release hub.old self }
        ensures keeps { Keeps (self ∷ []) hub.old hub.new }
        ensures numbers { numbers_left hub.new ≡ numbers_left hub.old }
        ensures heard { (port request : ℕ) → Has hub.old self (Of port request) → Names hub.old port kind.Server
            → KeepsHeard (self ∷ []) hub.old hub.new }
        ensures awaited { (port request : ℕ) → Has hub.old self (Of port request) → Names hub.old port kind.Server
            → KeepsAwaited (self ∷ []) hub.old hub.new }
        ensures owned { KeepsOwned [] hub.old hub.new }
        ensures frees { (port request most : ℕ) → Has hub.old self (Of port request) → Owns hub.old port (suc most)
            → Owns hub.new port most }
    {
        let ResponseMut { id, of: _ } = self;
        hub.core.release_response_loan(&id);
    }
}

impl<PB> Handle for ResponseMut<PB> {
    ghost use Rattle.rr_protocol.specs.declared.kind.Kind.TheVariants.{ResponseMut as the_kind};

    ghost number = { λ handle. handle };

    ghost kind = { the_kind };

    fn is_in<QC: Body, QH: Default + Drop, PC: Body, PH: Default + Drop, K: BackpressureFn>(
        &self,
        hub: &Hub<QC, QH, PC, PH, K>,
    ) -> bool {
        hub.core.kind(&self.id) == Some(Kind::ResponseMut)
    }
}
