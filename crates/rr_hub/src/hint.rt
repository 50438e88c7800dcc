//! Queries of hints and connections of pending responses. None changes the core.
ghost use Rattle.std.specs.Prelude.{◌≡◌, false, None, Some, IsSomeAnd};
ghost use Rattle.rr_protocol.specs.Queries.{has_disconnect_hint, kind_at};
ghost use Rattle.rr_protocol.specs.State.{pending_at, active_at};
ghost use Rattle.rr_store.specs.Hints.{stage_connections, stage_hint};

use crate::state::Core;
use rr_protocol::{BackpressureFn, Kind};
use rr_slots::Body;
use rr_store::{HandleId, Stage};

impl<QB: Body, QH: Default + Drop, PB: Body, PH: Default + Drop, K: BackpressureFn> Core<
    QB,
    QH,
    PB,
    PH,
    K,
> {
    /// Returns how many servers' queues took a pending response's request when it was sent, in one look-up. After
    /// iceoryx2's `PendingResponse::number_of_server_connections`.
    #[inline(always)]
    pub fn number_of_server_connections(&self, id: &HandleId) -> usize
        requires { kind_at self.now id.now ≡ Some Kind.PendingResponse }
        ensures { IsSomeAnd (pending_at self.now id.now) (λ pending. result ≡ pending.connections) }
    {
        connections(self.parts.look_up(id).stage)
    }

    /// Returns whether the pending response of an active request's request lives and has its hint set. Reads the only
    /// place where that handle can be. After iceoryx2's `ActiveRequest::has_disconnect_hint`.
    #[inline(always)]
    pub fn has_disconnect_hint(&self, id: &HandleId) -> bool
        requires { kind_at self.now id.now ≡ Some Kind.ActiveRequest }
        ensures { IsSomeAnd (active_at self.now id.now)
            (λ active. result ≡ has_disconnect_hint self.now active.message.number) }
    {
        let entry = self.parts.look_up(id);
        let details = self.parts.clients.details(entry.sender, entry.slot);
        let own = self.parts.clients.own_place(entry.sender, entry.slot);
        match self.parts.table.get_at(details.number, own) {
            Some(request) => has_hint(request.stage),
            None => false,
        }
    }
}

/// Returns how many queues took the request of a pending response. 0 in other stages.
#[inline(always)]
fn connections(stage: Stage) -> usize
    ensures { result ≡ stage_connections stage }
{
    match stage {
        Stage::PendingResponse(_, connections) => connections,
        _ => 0,
    }
}

/// Returns whether the hint of a pending response is set. `false` in other stages.
#[inline(always)]
fn has_hint(stage: Stage) -> bool
    ensures { result ≡ stage_hint stage }
{
    match stage {
        Stage::PendingResponse(hint, _) => hint,
        _ => false,
    }
}
