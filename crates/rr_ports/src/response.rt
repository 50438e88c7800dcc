//! A response that was received.
#![tactic(auto, using(crate::proofs::Asking::asks), unfolding(crate::specs::Facts::Has, crate::specs::Facts::numbers_left))]

ghost use Rattle.std.specs.Prelude.{◌≡◌, IsSomeAnd, option_and_then, ◌∷◌, [], ℕ, suc};
ghost use Rattle.rr_protocol.specs.declared.kind.Kind.TheVariants as kind;
ghost use Rattle.rr_ports.specs.Facts.{Has, Keeps, Names, numbers_left, Of};
ghost use Rattle.rr_ports.specs.Owning.{KeepsOwned, Owns};
ghost use Rattle.rr_ports.specs.Queues.{KeepsAwaited, KeepsHeard};
ghost use Rattle.rr_protocol.specs.Messages.{response_in};
ghost use Rattle.rr_protocol.specs.Queries.{response_header};
ghost use Rattle.rr_protocol.specs.Releases.{after_release};
ghost use Rattle.rr_protocol.specs.State.{handle_at};

use crate::handle::Handle;
use crate::hub::Hub;
use rr_hub::{BackpressureFn, HandleId, Kind, ReceiveError, ResponseHeader, UniqueServerId};
use rr_slots::Body;
use std::marker::{Model, PhantomData};

/// A response that was received. It is not dropped: `release` ends it.
///
/// # Examples
///
/// Returns the first element of a response, which it reads where it lies (`rr_callers::slices`):
///
/// ```
/// ghost use Rattle.std.specs.Prelude.{[]};
/// ghost use Rattle.rr_protocol.specs.declared.kind.Kind.TheVariants as kind;
/// ghost use Rattle.rr_ports.specs.Facts.{Keeps, Names};
///
/// use rr_ports::sliced::{Hub, PendingResponse};
///
/// type Service = Hub<u64, u64, u64, u64>;
///
/// fn receive(hub: &mut Service, pending: &PendingResponse<u64>) -> Option<u64>
///     requires { Names hub.old pending.now kind.PendingResponse }
///     ensures { Keeps [] hub.old hub.new }
/// {
///     match pending.receive(hub) {
///         Ok(Some(response)) => {
///             let sum = response.payload(hub).first().copied();
///             response.release(hub);
///             sum
///         }
///         _ => None,
///     }
/// }
/// ```
#[must_use]
pub struct Response<PB> {
    pub(crate) id: HandleId,
    pub(crate) of: PhantomData<PB>,
}

impl<PB> Model for Response<PB> {
    ghost use Rattle.std.specs.Prelude.{ℕ};

    ghost Value = { ℕ };

    ghost view = { λ handle. handle.id };
}

/// Makes the handle of a received message.
#[inline(always)]
pub(crate) fn received<PB>(
    id: Result<Option<HandleId>, ReceiveError>,
) -> Result<Option<Response<PB>>, ReceiveError>
    ensures { result ≡ id }
{
    match id {
        Ok(Some(id)) => Ok(Some(Response {
            id,
            of: PhantomData,
        })),
        Ok(None) => Ok(None),
        Err(error) => Err(error),
    }
}

impl<PB: Body> Response<PB> {
    /// Returns the header of the response. After iceoryx2's `Response::header`.
    #[inline(always)]
    pub fn header<QB: Body, QH: Default + Drop, PH: Default + Drop, K: BackpressureFn>(
        &self,
        hub: &Hub<QB, QH, PB, PH, K>,
    ) -> ResponseHeader
        requires { Names hub.now self.now kind.Response }
        ensures { IsSomeAnd (option_and_then response_in (handle_at hub.now self.now))
            (λ m. result ≡ response_header hub.now m) }
    {
        hub.core.response_header(&self.id)
    }

    /// Returns the user header of the response. After iceoryx2's `Response::user_header`.
    #[inline(always)]
    pub fn user_header<'a, QB: Body, QH: Default + Drop, PH: Default + Drop, K: BackpressureFn>(
        &self,
        hub: &'a Hub<QB, QH, PB, PH, K>,
    ) -> &'a PH
        requires { Names hub.now self.now kind.Response }
        ensures { IsSomeAnd (option_and_then response_in (handle_at hub.now self.now))
            (λ m. result.now ≡ m.content.user_header) }
    {
        hub.core.response_user_header(&self.id)
    }

    /// Returns the server that sent the response. After iceoryx2's `Response::origin`.
    #[inline(always)]
    pub fn origin<QB: Body, QH: Default + Drop, PH: Default + Drop, K: BackpressureFn>(
        &self,
        hub: &Hub<QB, QH, PB, PH, K>,
    ) -> UniqueServerId
        requires { Names hub.now self.now kind.Response }
        ensures { IsSomeAnd (option_and_then response_in (handle_at hub.now self.now)) (λ m. result.0 ≡ m.server) }
    {
        hub.core.response_origin(&self.id)
    }

    /// Releases the response. Replaces the `Drop` of iceoryx2's `Response`.
    #[inline(always)]
    pub fn release<QB: Body, QH: Default + Drop, PH: Default + Drop, K: BackpressureFn>(
        self,
        hub: &mut Hub<QB, QH, PB, PH, K>,
    )
        requires { Names hub.old self kind.Response }
        ensures released { hub.new ≡ after_release hub.old self }
        ensures keeps { Keeps (self ∷ []) hub.old hub.new }
        ensures numbers { numbers_left hub.new ≡ numbers_left hub.old }
        ensures heard { (port request : ℕ) → Has hub.old self (Of port request) → Names hub.old port kind.Client
            → KeepsHeard (self ∷ []) hub.old hub.new }
        ensures awaited { (port request : ℕ) → Has hub.old self (Of port request) → Names hub.old port kind.Client
            → KeepsAwaited (self ∷ []) hub.old hub.new }
        ensures owned { KeepsOwned [] hub.old hub.new }
        ensures frees { (port request most : ℕ) → Has hub.old self (Of port request) → Owns hub.old port (suc most)
            → Owns hub.new port most }
    {
        let Response { id, of: _ } = self;
        hub.core.release_response(&id);
    }
}

impl<PB> Handle for Response<PB> {
    ghost use Rattle.rr_protocol.specs.declared.kind.Kind.TheVariants.{Response as the_kind};

    ghost number = { λ handle. handle };

    ghost kind = { the_kind };

    fn is_in<QC: Body, QH: Default + Drop, PC: Body, PH: Default + Drop, K: BackpressureFn>(
        &self,
        hub: &Hub<QC, QH, PC, PH, K>,
    ) -> bool {
        hub.core.kind(&self.id) == Some(Kind::Response)
    }
}
