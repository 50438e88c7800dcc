//! A loaned request that can be sent.
#![tactic(auto, using(crate::proofs::Asking::asks), unfolding(crate::specs::Facts::Has, crate::specs::Facts::numbers_left))]

ghost use Rattle.std.specs.Prelude.{◌≡◌, ◌≢◌, Err, IfErr, IfOk, IsSomeAnd, option_and_then, ◌∷◌, [], List, ℕ, suc};
ghost use Rattle.rr_protocol.specs.declared.kind.Kind.TheVariants as kind;
ghost use Rattle.rr_protocol.specs.declared.error.SendError.TheVariants as send;
ghost use Rattle.rr_ports.specs.Facts.{Asks, Buffers, Discards, Has, Keeps, Names, Of, numbers_left};
ghost use Rattle.rr_ports.specs.Owning.{IsBelow, KeepsOwned, Owns};
ghost use Rattle.rr_ports.specs.Queues.{AwaitsNothing, Hears, HearsNothing, KeepsAwaited, KeepsHeard};
ghost use Rattle.rr_ports.specs.Sending.{SendsPending};
ghost use Rattle.rr_protocol.specs.Messages.{request_in};
ghost use Rattle.rr_protocol.specs.Queries.{request_header};
ghost use Rattle.rr_protocol.specs.Releases.{after_release};
ghost use Rattle.rr_protocol.specs.Sends.{is_request_deliverable};
ghost use Rattle.rr_protocol.specs.State.{handle_at, request_at};

use crate::handle::Handle;
use crate::hub::Hub;
use crate::pending_response::PendingResponse;
use rr_hub::{BackpressureFn, HandleId, Kind, RequestHeader, RequestSendError};
use rr_slots::Body;
use std::marker::{Model, PhantomData};

/// A loaned request that can be sent. It is not dropped: `send` or `release` ends it.
///
/// # Examples
///
/// Has a function replace the payload in place (`rr_callers::values`):
///
/// ```
/// ghost use Rattle.std.specs.Prelude.{◌∷◌, []};
/// ghost use Rattle.rr_protocol.specs.declared.kind.Kind.TheVariants as kind;
/// ghost use Rattle.rr_ports.specs.Facts.{Asks, Has, Keeps, Names};
///
/// use rr_ports::typed::Hub;
/// use rr_ports::typed::RequestMut;
///
/// type Service = Hub<u64, u64, u64, u64>;
///
/// fn replaced(hub: &mut Service, request: &RequestMut<u64>, old: u64)
///     requires request { Names hub.old request.now kind.RequestMut }
///     requires asks { Has hub.old request.now (Asks (old ∷ [])) }
///     ensures kind { Names hub.new request.now kind.RequestMut }
///     ensures says { Has hub.new request.now (Asks (7 ∷ [])) }
///     ensures keeps { Keeps (request.now ∷ []) hub.old hub.new }
/// {
///     request.update(hub, |value: &mut u64| *value = 7);
/// }
/// ```
#[must_use]
pub struct RequestMut<QB> {
    pub(crate) id: HandleId,
    pub(crate) of: PhantomData<QB>,
}

impl<QB> Model for RequestMut<QB> {
    ghost use Rattle.std.specs.Prelude.{ℕ};

    ghost Value = { ℕ };

    ghost view = { λ handle. handle.id };
}

impl<QB: Body> RequestMut<QB> {
    /// Returns the header of the request. After iceoryx2's `RequestMut::header`.
    #[inline(always)]
    pub fn header<QH: Default + Drop, PB: Body, PH: Default + Drop, K: BackpressureFn>(
        &self,
        hub: &Hub<QB, QH, PB, PH, K>,
    ) -> RequestHeader
        requires { Names hub.now self.now kind.RequestMut }
        ensures { IsSomeAnd (option_and_then request_in (handle_at hub.now self.now))
            (λ m. result ≡ request_header hub.now m) }
    {
        hub.core.request_header(&self.id)
    }

    /// Returns the user header of the request. After iceoryx2's `RequestMut::user_header`.
    #[inline(always)]
    pub fn user_header<'a, QH: Default + Drop, PB: Body, PH: Default + Drop, K: BackpressureFn>(
        &self,
        hub: &'a Hub<QB, QH, PB, PH, K>,
    ) -> &'a QH
        requires { Names hub.now self.now kind.RequestMut }
        ensures { IsSomeAnd (option_and_then request_in (handle_at hub.now self.now))
            (λ m. result.now ≡ m.content.user_header) }
    {
        hub.core.request_user_header(&self.id)
    }

    /// Returns whether every queue that a send would reach takes the request: none of them is full, or full ones may
    /// overflow. Not in iceoryx2.
    #[inline(always)]
    pub fn is_deliverable<QH: Default + Drop, PB: Body, PH: Default + Drop, K: BackpressureFn>(
        &self,
        hub: &Hub<QB, QH, PB, PH, K>,
    ) -> bool
        requires { Names hub.now self.now kind.RequestMut }
        ensures { IsSomeAnd (request_at hub.now self.now) (λ m. result ≡ is_request_deliverable hub.now m) }
    {
        hub.core.is_request_deliverable(&self.id)
    }

    /// Sends the request to every connected server. Takes no memory. After iceoryx2's `RequestMut::send`.
    ///
    /// # Errors
    ///
    /// On an error the request is released and is in no queue.
    /// - `ExceedsMaxActiveRequests` if the client has its maximum of pending responses. Never if fewer of its other
    ///   handles live (`few_active`).
    /// - `SendError(UnableToDeliver)` if the queue to some server is full, may not overflow, and is not skipped.
    ///   Never if the client discards at full queues (`discards`).
    #[inline(always)]
    pub fn send<QH: Default + Drop, PB: Body, PH: Default + Drop, K: BackpressureFn>(
        self,
        hub: &mut Hub<QB, QH, PB, PH, K>,
    ) -> Result<PendingResponse<QB>, RequestSendError>
        requires { Names hub.old self kind.RequestMut }
        ensures sends { SendsPending K.action hub.old self result hub.new }
        ensures kind { IfOk result (λ pending. Names hub.new pending kind.PendingResponse) }
        ensures says { IfOk result (λ pending. (xs : List QB.Item) → Has hub.old self (Asks xs)
            → Has hub.new pending (Asks xs)) }
        ensures keeps { Keeps (self ∷ []) hub.old hub.new }
        ensures numbers { numbers_left hub.new ≡ numbers_left hub.old }
        ensures of { (port request : ℕ) → Has hub.old self (Of port request)
            → IfOk result (λ pending. Has hub.new pending (Of port pending)) }
        ensures hears { (server : ℕ) → Names hub.old server kind.Server → HearsNothing hub.old server
            → IfOk result (λ pending. Hears hub.new server pending) }
        ensures awaits { IfOk result (λ pending. AwaitsNothing hub.new pending) }
        ensures awaited { (port request : ℕ) → Has hub.old self (Of port request) → Names hub.old port kind.Client
            → KeepsAwaited (self ∷ []) hub.old hub.new }
        ensures refused { (port request : ℕ) → Has hub.old self (Of port request) → Names hub.old port kind.Client
            → IfErr result (λ error. KeepsHeard (self ∷ []) hub.old hub.new) }
        ensures buffers { (port room : ℕ) → Has hub.old port (Buffers room)
            → IfOk result (λ pending. Has hub.new pending (Buffers room)) }
        ensures discards { (port request : ℕ) → Has hub.old self (Of port request) → Has hub.old port Discards
            → result ≢ Err (RequestSendError.SendError send.UnableToDeliver) }
        ensures owned { KeepsOwned [] hub.old hub.new }
        ensures frees { (port request most : ℕ) → Has hub.old self (Of port request) → Owns hub.old port (suc most)
            → IfErr result (λ error. Owns hub.new port most) }
        ensures few_active { (port request most : ℕ) → Has hub.old self (Of port request)
            → Owns hub.old port (suc most) → IsBelow most hub.old.limits.max_active_requests_per_client
            → result ≢ Err RequestSendError.ExceedsMaxActiveRequests }
        ensures sure { (port request : ℕ) → Has hub.old self (Of port request) → Has hub.old port Discards
            → Owns hub.old port 1 → (error : _) → result ≢ Err error }
    {
        let RequestMut { id, of: _ } = self;
        hub.core.reached();
        let _connections = hub.core.send_request(&id)?;
        Ok(PendingResponse {
            id,
            of: PhantomData,
        })
    }

    /// Releases the request without sending it. Replaces the `Drop` of iceoryx2's `RequestMut`.
    #[inline(always)]
    pub fn release<QH: Default + Drop, PB: Body, PH: Default + Drop, K: BackpressureFn>(
        self,
        hub: &mut Hub<QB, QH, PB, PH, K>,
    )
        requires { Names hub.old self kind.RequestMut }
        ensures released { hub.new ≡ after_release hub.old self }
        ensures keeps { Keeps (self ∷ []) hub.old hub.new }
        ensures numbers { numbers_left hub.new ≡ numbers_left hub.old }
        ensures heard { (port request : ℕ) → Has hub.old self (Of port request) → Names hub.old port kind.Client
            → KeepsHeard (self ∷ []) hub.old hub.new }
        ensures awaited { (port request : ℕ) → Has hub.old self (Of port request) → Names hub.old port kind.Client
            → KeepsAwaited (self ∷ []) hub.old hub.new }
        ensures owned { KeepsOwned [] hub.old hub.new }
        ensures frees { (port request most : ℕ) → Has hub.old self (Of port request) → Owns hub.old port (suc most)
            → Owns hub.new port most }
    {
        let RequestMut { id, of: _ } = self;
        hub.core.release_request(&id);
    }
}

impl<QB> Handle for RequestMut<QB> {
    ghost use Rattle.rr_protocol.specs.declared.kind.Kind.TheVariants.{RequestMut as the_kind};

    ghost number = { λ handle. handle };

    ghost kind = { the_kind };

    fn is_in<QC: Body, QH: Default + Drop, PC: Body, PH: Default + Drop, K: BackpressureFn>(
        &self,
        hub: &Hub<QC, QH, PC, PH, K>,
    ) -> bool {
        hub.core.kind(&self.id) == Some(Kind::RequestMut)
    }
}
