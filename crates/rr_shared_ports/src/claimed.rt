//! A port or a handle with the claim on it.
ghost use Rattle.std.specs.Prelude.{◌≡◌};
ghost use Rattle.std.specs.Fn.{FnOnceReturnsAt, FnOnceTakesAt};
ghost use Rattle.rr_shared_ports.specs.Words.{MakesCall};

use crate::{Naming, Ports, Seat, SharedPorts};
use rr_claims::Claim;
use rr_ports::Handle;
use rr_protocol::Kind;
use std::marker::{Model, PhantomData};
use std::sync::Wait;

/// A port or a handle of a shared hub, with a claim on it: no other thread's call can invalidate it. Contracts see
/// its number. It is as large as the handle, and is not dropped: `release` ends it. Not in iceoryx2.
///
/// # Examples
///
/// Asks for a number, and waits for the answer (`rr_example_jobs::clients`):
///
/// ```
/// use rr_shared_ports::typed::{Client, Seat, SharedPorts};
/// use rr_shared_ports::{AskError, Naming};
/// use std::sync::Wait;
///
/// type Hub<N> = SharedPorts<N, u64, (), u64, ()>;
///
/// type Caller<N> = Seat<N, u64, (), u64, ()>;
///
/// fn ask<N: Naming, R: Wait>(
///     rt: &R,
///     hub: &Hub<N>,
///     seat: &mut Caller<N>,
///     client: &Client<N, u64>,
///     asked: u64,
/// ) -> u64 {
///     match client.call(hub, rt, seat, asked) {
///         Ok(answer) => answer,
///         Err(AskError::Send(_refused)) => 0,
///         Err(AskError::Finish(_over)) => 0,
///     }
/// }
/// ```
#[must_use]
pub struct Claimed<N: Naming, A: Handle> {
    pub(crate) handle: A,
    pub(crate) claim: Claim<Kind>,
    pub(crate) of: PhantomData<N>,
}

impl<N: Naming, A: Handle> Model for Claimed<N, A> {
    ghost use Rattle.std.specs.Prelude.{◌≡◌, ℕ};

    ghost Value = { ℕ };

    ghost view = { λ c. A.number c.handle };

    ghost invariant = { λ c. (c.claim.id ≡ N.keeper_id) × (c.claim.number ≡ A.number c.handle)
        × (c.claim.what ≡ A.kind) };
}

impl<N: Naming, A: Handle> Claimed<N, A> {
    /// Returns the port or handle of `rr_ports`, for use in functions passed to `look`. Takes no lock. Not in
    /// iceoryx2.
    pub fn handle(&self) -> &A
        ensures { A.number result.now ≡ self.now }
    {
        &self.handle
    }

    /// Lets a function read the hub under the lock, where the claimed port or handle exists. The function may make
    /// any call of `rr_ports` that changes nothing: `header`, `user_header`, `payload`, `backpressure_strategy` and
    /// so on. Its result can't borrow from the hub. Not in iceoryx2.
    pub fn look<H: Ports, U, F: FnOnce(&H) -> U>(
        &self,
        hub: &SharedPorts<N, H>,
        rt: &impl Wait,
        seat: &mut Seat<N, H>,
        f: F,
    ) -> U
        requires { (state : H) → H.names state self.now A.kind → FnOnceTakesAt F.FnOnce f state }
        ensures { MakesCall (H.empty N.limits N.node_id)
            (λ before after. (after ≡ before) × FnOnceReturnsAt F.FnOnce f before result) seat.old seat.new }
    {
        hub.looked(rt, seat, self, f)
    }
}
