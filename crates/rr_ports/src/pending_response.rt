//! A request that was sent, and whose responses are received.
#![tactic(auto, using(crate::proofs::Asking::asks), unfolding(crate::specs::Facts::Has, crate::specs::Facts::numbers_left))]

ghost use Rattle.std.specs.Prelude.{◌↔◌, ◌≡◌, IfOk, IfSome, IsSomeAnd, IsTrue, option_and_then, length, nat_lt, ◌∷◌, [], ℕ, List, Ok, None, ◌≢◌, suc, IfErr, Err};
ghost use Rattle.rr_protocol.specs.declared.kind.Kind.TheVariants as kind;
ghost use Rattle.rr_ports.specs.Facts.{Has, IsFree, Keeps, Names, numbers_left, Of, Answers};
ghost use Rattle.rr_ports.specs.Owning.{IsBelow, KeepsOwned, Owns};
ghost use Rattle.rr_ports.specs.Queues.{Awaits, AwaitsNothing, KeepsAwaited, KeepsHeard};
ghost use Rattle.rr_protocol.specs.Messages.{request_in, with_hint};
ghost use Rattle.rr_protocol.specs.Queries.{request_header, HasResponse};
ghost use Rattle.rr_protocol.specs.Receives.{ReceivesResponse};
ghost use Rattle.rr_protocol.specs.Releases.{after_release};
ghost use Rattle.rr_protocol.specs.State.{handle_at, pending_at, with_changed};

use crate::handle::Handle;
use crate::hub::Hub;
use crate::response;
use crate::response::Response;
use rr_hub::{BackpressureFn, HandleId, Kind, ReceiveError, RequestHeader, RequestSendError};
use rr_slots::Body;
use std::marker::{Model, PhantomData};

/// A request that was sent, and whose responses are received. It is not dropped: `release` ends it.
///
/// # Examples
///
/// Returns the number that came as a response, if one did (`rr_callers::frames`):
///
/// ```
/// ghost use Rattle.std.specs.Prelude.{◌≡◌, []};
/// ghost use Rattle.rr_protocol.specs.declared.kind.Kind.TheVariants as kind;
/// ghost use Rattle.rr_ports.specs.Facts.{Keeps, Names, numbers_left};
///
/// use rr_ports::typed::{Hub, PendingResponse};
///
/// type Service = Hub<u64, u64, u64, u64>;
///
/// fn received(hub: &mut Service, pending: &PendingResponse<u64>) -> Option<u64>
///     requires { Names hub.old pending.now kind.PendingResponse }
///     ensures keeps { Keeps [] hub.old hub.new }
///     ensures numbers { numbers_left hub.new ≡ numbers_left hub.old }
/// {
///     pending.receive_copy(hub).unwrap_or(None)
/// }
/// ```
#[must_use]
pub struct PendingResponse<QB> {
    pub(crate) id: HandleId,
    pub(crate) of: PhantomData<QB>,
}

impl<QB> Model for PendingResponse<QB> {
    ghost use Rattle.std.specs.Prelude.{ℕ};

    ghost Value = { ℕ };

    ghost view = { λ handle. handle.id };
}

/// Makes the handle of a request that was sent.
#[inline(always)]
pub(crate) fn sent<QB>(
    id: Result<HandleId, RequestSendError>,
) -> Result<PendingResponse<QB>, RequestSendError>
    ensures { result ≡ id }
{
    match id {
        Ok(id) => Ok(PendingResponse {
            id,
            of: PhantomData,
        }),
        Err(error) => Err(error),
    }
}

impl<QB: Body> PendingResponse<QB> {
    /// Returns the header of the request. After iceoryx2's `PendingResponse::header`.
    #[inline(always)]
    pub fn header<QH: Default + Drop, PB: Body, PH: Default + Drop, K: BackpressureFn>(
        &self,
        hub: &Hub<QB, QH, PB, PH, K>,
    ) -> RequestHeader
        requires { Names hub.now self.now kind.PendingResponse }
        ensures { IsSomeAnd (option_and_then request_in (handle_at hub.now self.now))
            (λ m. result ≡ request_header hub.now m) }
    {
        hub.core.request_header(&self.id)
    }

    /// Returns the user header of the request. After iceoryx2's `PendingResponse::user_header`.
    #[inline(always)]
    pub fn user_header<'a, QH: Default + Drop, PB: Body, PH: Default + Drop, K: BackpressureFn>(
        &self,
        hub: &'a Hub<QB, QH, PB, PH, K>,
    ) -> &'a QH
        requires { Names hub.now self.now kind.PendingResponse }
        ensures { IsSomeAnd (option_and_then request_in (handle_at hub.now self.now))
            (λ m. result.now ≡ m.content.user_header) }
    {
        hub.core.request_user_header(&self.id)
    }

    /// Asks the servers for no further responses to this request: `has_disconnect_hint` returns `true` for its active
    /// requests from then on. After iceoryx2's `PendingResponse::set_disconnect_hint`.
    #[inline(always)]
    pub fn set_disconnect_hint<QH: Default + Drop, PB: Body, PH: Default + Drop, K: BackpressureFn>(
        &self,
        hub: &mut Hub<QB, QH, PB, PH, K>,
    )
        requires { Names hub.old self.now kind.PendingResponse }
        ensures hinted { hub.new ≡ with_changed hub.old self.now with_hint }
        ensures keeps { Keeps [] hub.old hub.new }
        ensures numbers { numbers_left hub.new ≡ numbers_left hub.old }
        ensures heard { KeepsHeard [] hub.old hub.new }
        ensures awaited { KeepsAwaited [] hub.old hub.new }
        ensures owned { KeepsOwned [] hub.old hub.new }
    {
        hub.core.set_disconnect_hint(&self.id);
    }

    /// Returns whether a connected server may still answer the request. After iceoryx2's
    /// `PendingResponse::is_connected`.
    #[inline(always)]
    pub fn is_connected<QH: Default + Drop, PB: Body, PH: Default + Drop, K: BackpressureFn>(
        &self,
        hub: &Hub<QB, QH, PB, PH, K>,
    ) -> bool
        requires { Names hub.now self.now kind.PendingResponse }
        ensures { IsSomeAnd (pending_at hub.now self.now) (λ pending. result ≡ nat_lt 0 (length pending.servers)) }
    {
        hub.core.is_pending_connected(&self.id)
    }

    /// Returns how many servers' queues took the request when it was sent. After iceoryx2's
    /// `PendingResponse::number_of_server_connections`.
    #[inline(always)]
    pub fn number_of_server_connections<
        QH: Default + Drop,
        PB: Body,
        PH: Default + Drop,
        K: BackpressureFn,
    >(&self, hub: &Hub<QB, QH, PB, PH, K>) -> usize
        requires { Names hub.now self.now kind.PendingResponse }
        ensures { IsSomeAnd (pending_at hub.now self.now) (λ pending. result ≡ pending.connections) }
    {
        hub.core.number_of_server_connections(&self.id)
    }

    /// Returns whether a response is queued. After iceoryx2's `PendingResponse::has_response`.
    #[inline(always)]
    pub fn has_response<QH: Default + Drop, PB: Body, PH: Default + Drop, K: BackpressureFn>(
        &self,
        hub: &Hub<QB, QH, PB, PH, K>,
    ) -> bool
        requires { Names hub.now self.now kind.PendingResponse }
        ensures { IsSomeAnd (pending_at hub.now self.now) (λ pending. IsTrue result ↔ HasResponse hub.now pending) }
    {
        hub.core.has_response(&self.id)
    }

    /// Receives the oldest response in a server's queue for this request. Receives are round robin: the server after
    /// the one served last comes first. Returns `None` if no response is queued. Takes no memory. After iceoryx2's
    /// `PendingResponse::receive`.
    ///
    /// # Errors
    ///
    /// - `ExceedsMaxBorrows` if every queue that has a response is at its borrow limit. The hub stays as it was.
    ///   Never if fewer other handles of the client live (`few_borrows`).
    #[inline(always)]
    pub fn receive<QH: Default + Drop, PB: Body, PH: Default + Drop, K: BackpressureFn>(
        &self,
        hub: &mut Hub<QB, QH, PB, PH, K>,
    ) -> Result<Option<Response<PB>>, ReceiveError>
        requires { Names hub.old self.now kind.PendingResponse }
        ensures receives { ReceivesResponse hub.old self.now result hub.new }
        ensures free { IfOk result (λ received. IfSome received (λ response. IsFree [] hub.old response)) }
        ensures kind { IfOk result (λ received. IfSome received (λ response. Names hub.new response kind.Response)) }
        ensures keeps { Keeps [] hub.old hub.new }
        ensures numbers { numbers_left hub.new ≡ numbers_left hub.old }
        ensures answers { (server : ℕ) (xs : List PB.Item) (later : List (List PB.Item))
            → Awaits hub.old self.now server (xs ∷ later)
            → IfOk result (λ received. IfSome received (λ response. Has hub.new response (Answers xs))) }
        ensures missed { (server : ℕ) (xs : List PB.Item) (later : List (List PB.Item))
            → Awaits hub.old self.now server (xs ∷ later) → result ≢ Ok None }
        ensures later { (server : ℕ) (xs : List PB.Item) (later : List (List PB.Item))
            → Awaits hub.old self.now server (xs ∷ later)
            → IfOk result (λ received. Awaits hub.new self.now server later) }
        ensures done { (server : ℕ) (xs : List PB.Item) → Awaits hub.old self.now server (xs ∷ [])
            → IfOk result (λ received. AwaitsNothing hub.new self.now) }
        ensures of { (port request : ℕ) → Has hub.old self.now (Of port request)
            → IfOk result (λ received. IfSome received (λ response. Has hub.new response (Of port request))) }
        ensures heard { KeepsHeard [] hub.old hub.new }
        ensures awaited { KeepsAwaited (self.now ∷ []) hub.old hub.new }
        ensures owned { (port request : ℕ) → Has hub.old self.now (Of port request)
            → KeepsOwned (port ∷ []) hub.old hub.new }
        ensures owns { (port request most : ℕ) → Has hub.old self.now (Of port request) → Owns hub.old port most
            → IfOk result (λ received. IfSome received (λ response. Owns hub.new port (suc most))) }
        ensures owns_none { result ≡ Ok None → KeepsOwned [] hub.old hub.new }
        ensures owns_err { IfErr result (λ error. KeepsOwned [] hub.old hub.new) }
        ensures few_borrows { (port request most : ℕ) → Has hub.old self.now (Of port request)
            → Owns hub.old port (suc most) → IsBelow most hub.old.limits.max_borrowed_responses_per_pending_response
            → result ≢ Err ReceiveError.ExceedsMaxBorrows }
        ensures sure { (port request : ℕ) → Has hub.old self.now (Of port request) → Owns hub.old port 1 → (error : _)
            → result ≢ Err error }
    {
        hub.core.reached();
        response::received(hub.core.receive_response(&self.id))
    }

    /// Releases the pending response. Its queued responses are dropped, and servers see that nobody waits for an
    /// answer. Replaces the `Drop` of iceoryx2's `PendingResponse`.
    #[inline(always)]
    pub fn release<QH: Default + Drop, PB: Body, PH: Default + Drop, K: BackpressureFn>(
        self,
        hub: &mut Hub<QB, QH, PB, PH, K>,
    )
        requires { Names hub.old self kind.PendingResponse }
        ensures released { hub.new ≡ after_release hub.old self }
        ensures keeps { Keeps (self ∷ []) hub.old hub.new }
        ensures numbers { numbers_left hub.new ≡ numbers_left hub.old }
        ensures heard { (port request : ℕ) → Has hub.old self (Of port request) → Names hub.old port kind.Client
            → KeepsHeard (self ∷ []) hub.old hub.new }
        ensures awaited { (port request : ℕ) → Has hub.old self (Of port request) → Names hub.old port kind.Client
            → KeepsAwaited (self ∷ []) hub.old hub.new }
        ensures owned { KeepsOwned [] hub.old hub.new }
        ensures frees { (port request most : ℕ) → Has hub.old self (Of port request) → Owns hub.old port (suc most)
            → Owns hub.new port most }
    {
        let PendingResponse { id, of: _ } = self;
        hub.core.reached();
        hub.core.release_pending(&id);
    }
}

impl<QB> Handle for PendingResponse<QB> {
    ghost use Rattle.rr_protocol.specs.declared.kind.Kind.TheVariants.{PendingResponse as the_kind};

    ghost number = { λ handle. handle };

    ghost kind = { the_kind };

    fn is_in<QC: Body, QH: Default + Drop, PC: Body, PH: Default + Drop, K: BackpressureFn>(
        &self,
        hub: &Hub<QC, QH, PC, PH, K>,
    ) -> bool {
        hub.core.kind(&self.id) == Some(Kind::PendingResponse)
    }
}
