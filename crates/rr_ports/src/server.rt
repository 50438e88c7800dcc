//! Servers.
#![tactic(auto, using(crate::proofs::Asking::asks), unfolding(crate::specs::Facts::Has, crate::specs::Facts::numbers_left))]

ghost use Rattle.std.specs.Prelude.{◌↔◌, ◌+◌, ◌≤◌, ◌<◌, ◌≡◌, IfOk, IfSome, IsOk, IsSomeAnd, IsTrue, ◌∷◌, [], ℕ, List, Ok, None, ◌≢◌, suc, IfErr, Err};
ghost use Rattle.rr_protocol.specs.declared.kind.Kind.TheVariants as kind;
ghost use Rattle.rr_ports.specs.Facts.{Has, IsFree, Keeps, Names, numbers_left, WholePool, Asks, Of};
ghost use Rattle.rr_ports.specs.Owning.{IsBelow, KeepsOwned, Owns};
ghost use Rattle.rr_ports.specs.Queues.{Hears, HearsNothing, KeepsAwaited, KeepsHeard};
ghost use Rattle.rr_protocol.specs.Queries.{HasRequests};
ghost use Rattle.rr_protocol.specs.Receives.{ReceivesRequest};
ghost use Rattle.rr_protocol.specs.Releases.{after_release};
ghost use Rattle.rr_protocol.specs.State.{server_at};

use crate::active_request;
use crate::active_request::ActiveRequest;
use crate::handle::Handle;
use crate::hub::Hub;
use crate::update_connections::UpdateConnections;
use rr_hub::{
    BackpressureFn, BackpressureStrategy, ConnectionFailure, Kind, ReceiveError, ServerCreateError,
    UniqueServerId,
};
use rr_slots::Body;
use std::marker::{Model, PhantomData};

/// A server: it receives requests and answers them. It is not dropped: `release` ends it.
///
/// # Examples
///
/// Answers the oldest request with the double of its number (`rr_callers::serving`):
///
/// ```
/// ghost use Rattle.std.specs.Prelude.{◌<◌, []};
/// ghost use Rattle.rr_protocol.specs.declared.kind.Kind.TheVariants as kind;
/// ghost use Rattle.rr_ports.specs.Facts.{Keeps, Names, numbers_left};
///
/// use rr_ports::ReceiveError;
/// use rr_ports::typed::{Hub, Server};
///
/// type Service = Hub<u64, u64, u64, u64>;
///
/// fn is_served(hub: &mut Service, server: &Server<u64>) -> Result<bool, ReceiveError>
///     requires server { Names hub.old server.now kind.Server }
///     requires numbers { 1 < numbers_left hub.old }
///     ensures { Keeps [] hub.old hub.new }
/// {
///     let Some(active) = server.receive(hub)? else {
///         return Ok(false);
///     };
///     let asked = *active.payload(hub);
///     // A client whose queue is full misses this answer.
///     let _ = active.send_copy(hub, asked.wrapping_mul(2));
///     active.release(hub);
///     Ok(true)
/// }
/// ```
#[must_use]
pub struct Server<PB> {
    pub(crate) number: u64,
    pub(crate) of: PhantomData<PB>,
}

impl<PB> Model for Server<PB> {
    ghost use Rattle.std.specs.Prelude.{ℕ};

    ghost Value = { ℕ };

    ghost view = { λ handle. handle.number };
}

/// Makes the port's value from its creation.
pub(crate) fn created<PB>(
    number: Result<u64, ServerCreateError>,
) -> Result<Server<PB>, ServerCreateError>
    ensures { result ≡ number }
{
    match number {
        Ok(number) => Ok(Server {
            number,
            of: PhantomData,
        }),
        Err(error) => Err(error),
    }
}

impl<PB: Body> Server<PB> {
    /// Returns the server's id, by which headers name it. After iceoryx2's `Server::id`.
    #[inline(always)]
    pub fn id(&self) -> UniqueServerId
        ensures { result.0 ≡ self.now }
    {
        UniqueServerId(self.number)
    }

    /// Returns the strategy of the server's sends at a full queue. After iceoryx2's `Server::backpressure_strategy`.
    #[inline(always)]
    pub fn backpressure_strategy<
        QB: Body,
        QH: Default + Drop,
        PH: Default + Drop,
        K: BackpressureFn,
    >(&self, hub: &Hub<QB, QH, PB, PH, K>) -> BackpressureStrategy
        requires { Names hub.now self.now kind.Server }
        ensures { IsSomeAnd (server_at hub.now self.now) (λ s. result ≡ s.port.strategy) }
    {
        hub.core.server_backpressure_strategy(self.number)
    }

    /// Returns whether a request is queued, even if nobody waits for its answer any more. After iceoryx2's
    /// `Server::has_requests`.
    ///
    /// # Errors
    ///
    /// Never returns an error: no connection within one process fails.
    #[inline(always)]
    pub fn has_requests<QB: Body, QH: Default + Drop, PH: Default + Drop, K: BackpressureFn>(
        &self,
        hub: &Hub<QB, QH, PB, PH, K>,
    ) -> Result<bool, ConnectionFailure>
        requires { Names hub.now self.now kind.Server }
        ensures ok { IsOk result }
        ensures waits { IfOk result (λ waits. IsTrue waits ↔ HasRequests hub.now self.now) }
    {
        Ok(hub.core.has_requests(self.number))
    }

    /// Receives the oldest request of a client, under the next number; at least one must be left. Receives are round
    /// robin: the client after the one served last comes first. Unless the limits allow fire-and-forget requests,
    /// drops requests at the front of a queue whose pending responses were released. Returns `None` if no request is
    /// queued then. Takes no memory. After iceoryx2's `Server::receive`.
    ///
    /// # Errors
    ///
    /// - `ExceedsMaxBorrows` if every queue that has a request is at its borrow limit. Requests dropped on the way
    ///   stay dropped; nothing else changes. Never if fewer handles of the server live than a server may have active
    ///   requests per client (`few_borrows`).
    #[inline(always)]
    pub fn receive<QB: Body, QH: Default + Drop, PH: Default + Drop, K: BackpressureFn>(
        &self,
        hub: &mut Hub<QB, QH, PB, PH, K>,
    ) -> Result<Option<ActiveRequest<QB>>, ReceiveError>
        requires kind { Names hub.old self.now kind.Server }
        requires number { 0 < numbers_left hub.old }
        ensures receives { ReceivesRequest hub.old self.now result hub.new }
        ensures free { IfOk result (λ received. IfSome received (λ active. IsFree [] hub.old active)) }
        ensures kind { IfOk result (λ received. IfSome received (λ active. Names hub.new active kind.ActiveRequest)) }
        ensures pool { (room : ℕ) → Has hub.old self.now (WholePool room)
            → IfOk result (λ received. IfSome received (λ active. Has hub.new active (WholePool room))) }
        ensures keeps { Keeps [] hub.old hub.new }
        ensures numbers { numbers_left hub.old ≤ numbers_left hub.new + 1 }
        ensures of { (pending : ℕ) → Hears hub.old self.now pending
            → IfOk result (λ received. IfSome received (λ active. Has hub.new active (Of self.now pending))) }
        ensures asks { (pending : ℕ) (xs : List QB.Item) → Hears hub.old self.now pending
            → Has hub.old pending (Asks xs) → IfOk result
            (λ received. IfSome received (λ active. Has hub.new active (Asks xs))) }
        ensures missed { (pending : ℕ) → Hears hub.old self.now pending → result ≢ Ok None }
        ensures port { IfOk result (λ received. IfSome received
            (λ active. (request : ℕ) × Has hub.new active (Of self.now request))) }
        ensures quiet { (pending : ℕ) → Hears hub.old self.now pending
            → IfOk result (λ received. HearsNothing hub.new self.now) }
        ensures heard { KeepsHeard (self.now ∷ []) hub.old hub.new }
        ensures awaited { KeepsAwaited [] hub.old hub.new }
        ensures owned { KeepsOwned (self.now ∷ []) hub.old hub.new }
        ensures owns { (most : ℕ) → Owns hub.old self.now most
            → IfOk result (λ received. IfSome received (λ active. Owns hub.new self.now (suc most))) }
        ensures owns_none { result ≡ Ok None → KeepsOwned [] hub.old hub.new }
        ensures owns_err { IfErr result (λ error. KeepsOwned [] hub.old hub.new) }
        ensures few_borrows { (most : ℕ) → Owns hub.old self.now most
            → IsBelow most hub.old.limits.max_active_requests_per_client
            → result ≢ Err ReceiveError.ExceedsMaxBorrows }
        ensures sure { Owns hub.old self.now 0 → (error : _) → result ≢ Err error }
    {
        hub.core.reached();
        active_request::received(hub.core.receive_request(self.number))
    }

    /// Releases the server. It stays connected as long as one of its handles lives, and is disconnected with the last
    /// of them. Replaces the `Drop` of iceoryx2's `Server`.
    #[inline(always)]
    pub fn release<QB: Body, QH: Default + Drop, PH: Default + Drop, K: BackpressureFn>(
        self,
        hub: &mut Hub<QB, QH, PB, PH, K>,
    )
        requires { Names hub.old self kind.Server }
        ensures released { hub.new ≡ after_release hub.old self }
        ensures keeps { Keeps (self ∷ []) hub.old hub.new }
        ensures numbers { numbers_left hub.new ≡ numbers_left hub.old }
        ensures heard { KeepsHeard (self ∷ []) hub.old hub.new }
        ensures owned { KeepsOwned [] hub.old hub.new }
    {
        let Server { number, of: _ } = self;
        hub.core.reached();
        hub.core.release_server(number);
    }
}

impl<PB: Body> UpdateConnections for Server<PB> {
    fn update_connections<
        QC: Body,
        QH: Default + Drop,
        PC: Body,
        PH: Default + Drop,
        K: BackpressureFn,
    >(&self, _hub: &Hub<QC, QH, PC, PH, K>) -> Result<(), ConnectionFailure> {
        Ok(())
    }
}

impl<PB> Handle for Server<PB> {
    ghost use Rattle.rr_protocol.specs.declared.kind.Kind.TheVariants.{Server as the_kind};

    ghost number = { λ handle. handle };

    ghost kind = { the_kind };

    fn is_in<QC: Body, QH: Default + Drop, PC: Body, PH: Default + Drop, K: BackpressureFn>(
        &self,
        hub: &Hub<QC, QH, PC, PH, K>,
    ) -> bool {
        hub.core.port_kind(self.number) == Some(Kind::Server)
    }
}
