//! Making a core, the next number, and the facts of every core.
ghost use Rattle.std.specs.Prelude.{◌≡◌, ℕ, None, Some, false, slice_get, true};
ghost use Rattle.rr_laws.specs.Apart.{ChannelsApart, LoansKeepServers};
ghost use Rattle.rr_laws.specs.Reached.{IsReached, has_client, has_server};
ghost use Rattle.rr_laws.specs.Roles.{roles_of};
ghost use Rattle.rr_protocol.specs.Creation.{CreatesHub};
ghost use Rattle.rr_protocol.specs.Queries.{kind_at};
ghost use Rattle.rr_protocol.specs.State.{numbers_left};

use crate::state::Core;
use rr_creating::new_store;
use rr_protocol::{BackpressureFn, HubCreateError, Limits, UniqueNodeId};
use rr_slots::Body;
use rr_store::NUMBERS;
use std::alloc::Global;

impl<QB: Body, QH: Default + Drop, PB: Body, PH: Default + Drop, K: BackpressureFn> Core<
    QB,
    QH,
    PB,
    PH,
    K,
> {
    /// Makes a hub without ports. Takes no memory, so it never returns `OutOfMemory`. Not in iceoryx2.
    ///
    /// # Errors
    ///
    /// - `ZeroLimit` if a limit is below its least value.
    /// - `LimitsTooLarge` if a worst-case size overflows a `usize`.
    pub fn new(alloc: Global, limits: Limits, node_id: UniqueNodeId) -> Result<Self, HubCreateError>
        ensures { CreatesHub limits node_id.0 result }
    {
        match new_store(alloc, limits, node_id) {
            Ok(parts) => Ok(Core { alloc, parts }),
            Err(refusal) => Err(refusal),
        }
    }

    /// Returns how many numbers the hub has left to assign. Not in iceoryx2.
    pub fn numbers_left(&self) -> u64
        ensures { result ≡ numbers_left self.now }
    {
        NUMBERS - self.parts.next
    }

    /// Returns the next number to assign, if one remains. It names nothing yet. Not in iceoryx2.
    pub fn next_number(&self) -> u64
        ensures number { result ≡ self.now.next }
        ensures free { kind_at self.now result ≡ None }
    {
        self.parts.next
    }

    /// Does nothing. Proofs above cite its clauses: the facts of every state that a run reaches; that no two requests
    /// of a client that are on loan or wait for answers are on the same channel; that no two servers have the same
    /// number, and no client has a server's; and that a response on loan belongs to the server of its active request.
    /// Not in iceoryx2.
    #[inline(always)]
    pub fn reached(&self)
        ensures reached { IsReached self.now }
        ensures channels { ChannelsApart (roles_of self.now.handles) }
        ensures servers { (i j : ℕ) (x y : _) → slice_get self.now.servers i ≡ Some x
            → slice_get self.now.servers j ≡ Some y → x.id ≡ y.id → i ≡ j }
        ensures kinds { (n : ℕ) → has_client self.now.clients n ≡ true → has_server self.now.servers n ≡ false }
        ensures loans { LoansKeepServers (roles_of self.now.handles) }
    {
        // Opens the value, so that its invariant is known.
        let _next = self.parts.next;
    }
}
