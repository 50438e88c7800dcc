//! Whether no queue that a send would reach is full without overflow.
ghost use Rattle.std.specs.Prelude.{◌≡◌, Some, ◌<◌, ◌+◌, ℕ, [], length, not, slice_get, slice_index_or};
ghost use Rattle.rr_store.specs.Opened.{opened};
ghost use Rattle.rr_store.specs.Views.{sender_of};
ghost use Rattle.std.specs.List.{list_any};
ghost use Rattle.rr_store.specs.Changes.{is_closed_to};
ghost use Rattle.rr_store.specs.Delivering.{HasQueue, is_blocked_in};
ghost use Rattle.rr_store.specs.Parts.{ServerPart};
ghost use Rattle.rr_store.specs.Sending.{is_blocked_at};

use crate::full::{is_request_blocked, is_response_blocked};
use rr_protocol::BackpressureFn;
use rr_sender::Sender;
use rr_slots::Body;
use rr_store::{ServerPort, Store};

/// Returns whether each queue from a client's sender to a server takes one more entry. Reads each server at most
/// once.
#[inline(always)]
pub fn takes_request<QB: Body, QH: Default + Drop, PB: Body, PH: Default + Drop, K: BackpressureFn>(
    store: &Store<QB, QH, PB, PH, K>,
    sender: usize,
) -> bool
    requires sender { sender < length (opened store.now).client_senders }
    requires queues { (i : ℕ) (s : ServerPart K) → slice_get (opened store.now).servers i ≡ Some s
        → (s.receiver < length (sender_of sender (opened store.now).client_senders).messages.queues)
        × (0 < length (slice_index_or (sender_of sender (opened store.now).client_senders).messages.queues s.receiver
        [])) }
    ensures { result ≡ not (list_any (is_closed_to (opened store.now) sender) (opened store.now).servers) }
{
    let messages = store.clients.messages(sender);
    let overflow = store.limits.enable_safe_overflow_for_requests;
    !is_any_blocked(messages, store.servers.connected(), overflow)
}

/// Returns whether the queue that a server's sender reaches on a channel, if any, takes one more entry.
#[inline(always)]
pub fn takes_response<
    QB: Body,
    QH: Default + Drop,
    PB: Body,
    PH: Default + Drop,
    K: BackpressureFn,
>(store: &Store<QB, QH, PB, PH, K>, sender: usize, channel: usize, reach: Option<usize>) -> bool
    requires sender { sender < length (opened store.now).server_senders }
    requires queue { HasQueue (sender_of sender (opened store.now).server_senders).messages channel reach }
    ensures { result ≡ not (is_blocked_in (sender_of sender (opened store.now).server_senders).messages
        store.now.limits.enable_safe_overflow_for_responses channel reach) }
{
    let messages = store.servers.messages(sender);
    let overflow = store.limits.enable_safe_overflow_for_responses;
    !is_response_blocked(messages, reach, channel, overflow)
}

/// Returns whether the queue to some server is full and may not overflow.
#[inline(always)]
fn is_any_blocked<B: Body, N: Copy, H: Drop, K: Drop>(
    messages: &Sender<B, N, H>,
    servers: &[ServerPort<K>],
    overflow: bool,
) -> bool
    requires inside { (i : ℕ) (s : ServerPort K) → slice_get servers.now i ≡ Some s
        → s.port.receiver < length messages.now.queues }
    requires channels { (i : ℕ) (s : ServerPort K) → slice_get servers.now i ≡ Some s
        → 0 < length (slice_index_or messages.now.queues s.port.receiver []) }
    ensures { result ≡ list_any (λ s. is_blocked_at overflow messages.now s.port.receiver) servers.now }
{
    for server in servers {
        if is_request_blocked(messages, server.port.receiver, overflow) {
            return true;
        }
    }
    false
}
