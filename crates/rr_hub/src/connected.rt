//! Whether a server may still answer a request.
ghost use Rattle.std.specs.Prelude.{◌≡◌, false, nat_lt, length, Some, ◌≤◌, ◌<◌, ◌+◌, ◌*◌, ℕ, slice_get, slice_index_or, ◌==◌};
ghost use Rattle.rr_store.specs.Opened.{opened};
ghost use Rattle.rr_store.specs.Views.{sender_of, waiting_at, no_server};
ghost use Rattle.std.specs.List.{list_any};
ghost use Rattle.rr_store.specs.Parts.{ServerPart};

use rr_protocol::BackpressureFn;
use rr_slots::Body;
use rr_store::{ServerPort, Store};

/// Returns whether a connected server may still answer the request in a slot. Reads each connected server once.
#[inline(always)]
pub fn is_answerable<QB: Body, QH: Default + Drop, PB: Body, PH: Default + Drop, K: BackpressureFn>(
    store: &Store<QB, QH, PB, PH, K>,
    sender: usize,
    slot: usize,
) -> bool
    requires sender { sender < length (opened store.now).client_senders }
    requires start { slot * store.now.limits.max_servers
        ≤ length (sender_of sender (opened store.now).client_senders).may_answer }
    requires marks { (i : ℕ) (s : ServerPart K) → slice_get (opened store.now).servers i ≡ Some s
        → slot * store.now.limits.max_servers + s.receiver
        < length (sender_of sender (opened store.now).client_senders).may_answer }
    ensures { result ≡ nat_lt 0 (length (waiting_at (opened store.now) sender slot)) }
{
    is_any_marked(
        store.servers.connected(),
        store.clients.marks(sender),
        slot * store.limits.max_servers,
    )
}

/// Returns whether one of the servers is marked, in the marks by receiver that begin at `start`.
#[inline(always)]
fn is_any_marked<K: Drop>(servers: &[ServerPort<K>], marks: &[u64], start: usize) -> bool
    requires { (i : ℕ) (s : ServerPort K) → slice_get servers.now i ≡ Some s
        → start + s.port.receiver < length marks.now }
    ensures { result ≡ list_any (λ s. slice_index_or marks.now (start + s.port.receiver) no_server == s.port.id)
        servers.now }
{
    for server in servers {
        if marks[start + server.port.receiver] == server.port.id {
            return true;
        }
    }
    false
}
