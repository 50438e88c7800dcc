//! A request that a server received and may answer.
#![tactic(auto, using(crate::proofs::Asking::asks), unfolding(crate::specs::Facts::Has, crate::specs::Facts::numbers_left))]

ghost use Rattle.std.specs.Prelude.{◌≡◌, IsSomeAnd, option_and_then, ◌∷◌, [], ℕ, suc};
ghost use Rattle.rr_protocol.specs.declared.kind.Kind.TheVariants as kind;
ghost use Rattle.rr_ports.specs.Facts.{Has, Keeps, Names, numbers_left, Of};
ghost use Rattle.rr_ports.specs.Owning.{KeepsOwned, Owns};
ghost use Rattle.rr_ports.specs.Queues.{KeepsAwaited, KeepsHeard};
ghost use Rattle.rr_protocol.specs.Counts.{is_alive};
ghost use Rattle.rr_protocol.specs.Messages.{request_in};
ghost use Rattle.rr_protocol.specs.Queries.{request_header, has_disconnect_hint};
ghost use Rattle.rr_protocol.specs.Releases.{after_release};
ghost use Rattle.rr_protocol.specs.State.{handle_at, active_at};

use crate::handle::Handle;
use crate::hub::Hub;
use rr_hub::{BackpressureFn, HandleId, Kind, ReceiveError, RequestHeader, UniqueClientId};
use rr_slots::Body;
use std::marker::{Model, PhantomData};

/// A request that a server received and may answer as often as it likes. It is not dropped: `release` ends it.
///
/// # Examples
///
/// Sends a number as the next response, unless the client wants no more (`rr_callers::streaming`):
///
/// ```
/// ghost use Rattle.std.specs.Prelude.{[]};
/// ghost use Rattle.rr_protocol.specs.declared.kind.Kind.TheVariants as kind;
/// ghost use Rattle.rr_ports.specs.Facts.{Keeps, Names};
///
/// use rr_ports::typed::{ActiveRequest, Hub};
///
/// type Service = Hub<u64, u64, u64, u64>;
///
/// fn is_sent(hub: &mut Service, active: &ActiveRequest<u64>, value: u64) -> bool
///     requires { Names hub.old active.now kind.ActiveRequest }
///     ensures { Keeps [] hub.old hub.new }
/// {
///     if active.has_disconnect_hint(hub) || hub.numbers_left() == 0 {
///         return false;
///     }
///     active.send_copy(hub, value).is_ok()
/// }
/// ```
#[must_use]
pub struct ActiveRequest<QB> {
    pub(crate) id: HandleId,
    pub(crate) of: PhantomData<QB>,
}

impl<QB> Model for ActiveRequest<QB> {
    ghost use Rattle.std.specs.Prelude.{ℕ};

    ghost Value = { ℕ };

    ghost view = { λ handle. handle.id };
}

/// Makes the handle of a received message.
#[inline(always)]
pub(crate) fn received<QB>(
    id: Result<Option<HandleId>, ReceiveError>,
) -> Result<Option<ActiveRequest<QB>>, ReceiveError>
    ensures { result ≡ id }
{
    match id {
        Ok(Some(id)) => Ok(Some(ActiveRequest {
            id,
            of: PhantomData,
        })),
        Ok(None) => Ok(None),
        Err(error) => Err(error),
    }
}

impl<QB: Body> ActiveRequest<QB> {
    /// Returns the header of the request. After iceoryx2's `ActiveRequest::header`.
    #[inline(always)]
    pub fn header<QH: Default + Drop, PB: Body, PH: Default + Drop, K: BackpressureFn>(
        &self,
        hub: &Hub<QB, QH, PB, PH, K>,
    ) -> RequestHeader
        requires { Names hub.now self.now kind.ActiveRequest }
        ensures { IsSomeAnd (option_and_then request_in (handle_at hub.now self.now))
            (λ m. result ≡ request_header hub.now m) }
    {
        hub.core.request_header(&self.id)
    }

    /// Returns the user header of the request. After iceoryx2's `ActiveRequest::user_header`.
    #[inline(always)]
    pub fn user_header<'a, QH: Default + Drop, PB: Body, PH: Default + Drop, K: BackpressureFn>(
        &self,
        hub: &'a Hub<QB, QH, PB, PH, K>,
    ) -> &'a QH
        requires { Names hub.now self.now kind.ActiveRequest }
        ensures { IsSomeAnd (option_and_then request_in (handle_at hub.now self.now))
            (λ m. result.now ≡ m.content.user_header) }
    {
        hub.core.request_user_header(&self.id)
    }

    /// Returns the client that sent the request. After iceoryx2's `ActiveRequest::origin`.
    #[inline(always)]
    pub fn origin<QH: Default + Drop, PB: Body, PH: Default + Drop, K: BackpressureFn>(
        &self,
        hub: &Hub<QB, QH, PB, PH, K>,
    ) -> UniqueClientId
        requires { Names hub.now self.now kind.ActiveRequest }
        ensures { IsSomeAnd (active_at hub.now self.now) (λ active. result.0 ≡ active.message.client) }
    {
        hub.core.request_origin(&self.id)
    }

    /// Returns whether the pending response of the request is still live. After iceoryx2's
    /// `ActiveRequest::is_connected`.
    #[inline(always)]
    pub fn is_connected<QH: Default + Drop, PB: Body, PH: Default + Drop, K: BackpressureFn>(
        &self,
        hub: &Hub<QB, QH, PB, PH, K>,
    ) -> bool
        requires { Names hub.now self.now kind.ActiveRequest }
        ensures { IsSomeAnd (active_at hub.now self.now) (λ active. result ≡ is_alive hub.now active.message.number) }
    {
        hub.core.is_active_connected(&self.id)
    }

    /// Returns whether the pending response of the request lives and has asked for no further responses. After
    /// iceoryx2's `ActiveRequest::has_disconnect_hint`.
    #[inline(always)]
    pub fn has_disconnect_hint<QH: Default + Drop, PB: Body, PH: Default + Drop, K: BackpressureFn>(
        &self,
        hub: &Hub<QB, QH, PB, PH, K>,
    ) -> bool
        requires { Names hub.now self.now kind.ActiveRequest }
        ensures { IsSomeAnd (active_at hub.now self.now)
            (λ active. result ≡ has_disconnect_hint hub.now active.message.number) }
    {
        hub.core.has_disconnect_hint(&self.id)
    }

    /// Releases the active request. Its server no longer answers the request, except with responses that it has on
    /// loan already. Replaces the `Drop` of iceoryx2's `ActiveRequest`.
    #[inline(always)]
    pub fn release<QH: Default + Drop, PB: Body, PH: Default + Drop, K: BackpressureFn>(
        self,
        hub: &mut Hub<QB, QH, PB, PH, K>,
    )
        requires { Names hub.old self kind.ActiveRequest }
        ensures released { hub.new ≡ after_release hub.old self }
        ensures keeps { Keeps (self ∷ []) hub.old hub.new }
        ensures numbers { numbers_left hub.new ≡ numbers_left hub.old }
        ensures heard { (port request : ℕ) → Has hub.old self (Of port request) → Names hub.old port kind.Server
            → KeepsHeard (self ∷ []) hub.old hub.new }
        ensures awaited { (port request : ℕ) → Has hub.old self (Of port request) → Names hub.old port kind.Server
            → KeepsAwaited (self ∷ []) hub.old hub.new }
        ensures owned { KeepsOwned [] hub.old hub.new }
        ensures frees { (port request most : ℕ) → Has hub.old self (Of port request) → Owns hub.old port (suc most)
            → Owns hub.new port most }
    {
        let ActiveRequest { id, of: _ } = self;
        hub.core.release_active(&id);
    }
}

impl<QB> Handle for ActiveRequest<QB> {
    ghost use Rattle.rr_protocol.specs.declared.kind.Kind.TheVariants.{ActiveRequest as the_kind};

    ghost number = { λ handle. handle };

    ghost kind = { the_kind };

    fn is_in<QC: Body, QH: Default + Drop, PC: Body, PH: Default + Drop, K: BackpressureFn>(
        &self,
        hub: &Hub<QC, QH, PC, PH, K>,
    ) -> bool {
        hub.core.kind(&self.id) == Some(Kind::ActiveRequest)
    }
}
