//! Sends of requests.
ghost use Rattle.std.specs.Prelude.{◌≡◌, None, Some, ◌==◌, ◌&&◌, if◌then◌else◌, ◌+◌, ◌≤◌, ◌<◌, ℕ, [], IsSome, count_by, length, slice_get, slice_index_or, not};
ghost use Rattle.rr_protocol.specs.Backpressure.{discards};
ghost use Rattle.rr_protocol.specs.declared.error.RequestSendError.TheVariants as limit;
ghost use Rattle.rr_protocol.specs.declared.error.SendError.TheVariants as send;
ghost use Rattle.rr_protocol.specs.Queries.{kind_at};
ghost use Rattle.rr_protocol.specs.Sends.{SendsRequest, request_send_refusal};
ghost use Rattle.rr_protocol.specs.State.{IsRequestMutAnd};
ghost use Rattle.rr_store.specs.Opened.{opened};
ghost use Rattle.rr_store.specs.Reaching.{IsCore};
ghost use Rattle.rr_store.specs.Views.{state_of, sender_of};
ghost use Rattle.rr_table.specs.TableView.{IsAt};
ghost use Rattle.std.specs.List.{position, list_any};
ghost use Rattle.rr_store.specs.Changes.{is_closed_to, is_open_to};
ghost use Rattle.rr_store.specs.Order.{IsRising};
ghost use Rattle.rr_store.specs.declared.port.ClientPort.{ClientPort};
ghost use Rattle.rr_store.specs.Parts.{ServerPart};
ghost use Rattle.rr_store.specs.Ports.{client_part, connected_of};
ghost use Rattle.rr_store.specs.Sending.{is_blocked_at, is_refused_at};
ghost use Rattle.rr_protocol.specs.declared.kind.Kind.TheVariants as kind;

use crate::full::{discards, is_request_blocked};
use rr_protocol::{BackpressureFn, RequestSendError, SendError};
use rr_releasing::release_request_at;
use rr_sender::Sender;
use rr_slots::Body;
use rr_store::{HandleEntry, Port, ServerPort, Stage, Store};
use rr_table::Place;

/// Sends the request in this place to every connected server, and returns how many queues took it. The request
/// becomes a pending response, under the same number.
///
/// # Errors
///
/// - `ExceedsMaxActiveRequests` if the client has its maximum of pending responses.
/// - `UnableToDeliver` if the queue to some server is full, may not overflow, and is not skipped.
///
/// The request is released then, and no queue has it.
#[inline(always)]
pub fn send_request_at<
    QB: Body,
    QH: Default + Drop,
    PB: Body,
    PH: Default + Drop,
    K: BackpressureFn,
>(
    store: &mut Store<QB, QH, PB, PH, K>,
    number: u64,
    place: Place,
) -> Result<usize, RequestSendError>
    requires core { IsCore (opened store.old) }
    requires at { IsAt store.old.table number place }
    requires kind { kind_at (state_of (opened store.old)) number ≡ Some kind.RequestMut }
    ensures core { IsCore (opened store.new) }
    ensures sends { SendsRequest K.action (state_of (opened store.old)) number result (state_of (opened store.new)) }
{
    let entry = store.table.at(number, place);
    let connections = open_connections(store, entry.sender);
    if let Some(refusal) = request_send_limit(store, entry.sender, connections) {
        release_request_at(store, number, place);
        return Err(refusal);
    }
    let stage = Stage::PendingResponse(false, connections);
    store
        .table
        .set_at(number, place, HandleEntry { stage, ..entry });
    let overflow = store.limits.enable_safe_overflow_for_requests;
    let receivers = store.limits.max_servers;
    let servers = store.servers.connected();
    store
        .clients
        .queue(entry.sender, entry.slot, receivers, servers, overflow);
    store.clients.count_as_sent(entry.sender);
    Ok(connections)
}

/// Returns the first reason that refuses a send of the request in this place, or `None` if it would be sent.
#[inline(always)]
pub fn request_refusal_at<
    QB: Body,
    QH: Default + Drop,
    PB: Body,
    PH: Default + Drop,
    K: BackpressureFn,
>(store: &Store<QB, QH, PB, PH, K>, number: u64, place: Place) -> Option<RequestSendError>
    requires core { IsCore (opened store.now) }
    requires at { IsAt store.now.table number place }
    requires kind { kind_at (state_of (opened store.now)) number ≡ Some kind.RequestMut }
    ensures { IsRequestMutAnd (state_of (opened store.now)) number
        (λ client message. result ≡ request_send_refusal K.action (state_of (opened store.now)) client message) }
{
    let entry = store.table.at(number, place);
    let connections = open_connections(store, entry.sender);
    request_send_limit(store, entry.sender, connections)
}

/// Returns how many connected servers' queues from a sender take one more entry.
#[inline(always)]
pub fn open_connections<
    QB: Body,
    QH: Default + Drop,
    PB: Body,
    PH: Default + Drop,
    K: BackpressureFn,
>(store: &Store<QB, QH, PB, PH, K>, sender: usize) -> usize
    requires sender { sender < length (opened store.now).client_senders }
    requires queues { (i : ℕ) (s : ServerPart K) → slice_get (opened store.now).servers i ≡ Some s
        → (s.receiver < length (sender_of sender (opened store.now).client_senders).messages.queues)
        × (0 < length (slice_index_or (sender_of sender (opened store.now).client_senders).messages.queues s.receiver
        [])) }
    ensures { result ≡ count_by (is_open_to (opened store.now) sender) (opened store.now).servers }
{
    let overflow = store.limits.enable_safe_overflow_for_requests;
    let servers = store.servers.connected();
    let messages = store.clients.messages(sender);
    open_count(messages, servers, overflow)
}

/// Returns the first reason that refuses to send one more request from a sender, if `connections` queues would take
/// it: its client has its maximum of pending responses, or the queue to a server is full, may not overflow, and is
/// not skipped.
#[inline(always)]
pub fn request_send_limit<
    QB: Body,
    QH: Default + Drop,
    PB: Body,
    PH: Default + Drop,
    K: BackpressureFn,
>(store: &Store<QB, QH, PB, PH, K>, sender: usize, connections: usize) -> Option<RequestSendError>
    requires sender { sender < length store.now.clients.senders }
    requires rising { IsRising (λ c. c.port.id) store.now.clients.ports }
    requires present { IsSome (position (λ c. c.port.id == (sender_of sender store.now.clients.senders).owner)
        store.now.clients.ports) }
    requires queues { (i : ℕ) (s : ServerPart K) → slice_get (opened store.now).servers i ≡ Some s
        → (s.receiver < length (sender_of sender (opened store.now).client_senders).messages.queues)
        × (0 < length (slice_index_or (sender_of sender (opened store.now).client_senders).messages.queues s.receiver
        [])) }
    requires connections { connections ≡ count_by (is_open_to (opened store.now) sender) (opened store.now).servers }
    ensures many { store.now.limits.max_active_requests_per_client
        ≤ (sender_of sender store.now.clients.senders).pendings → result ≡ Some limit.ExceedsMaxActiveRequests }
    ensures few { (i : ℕ) (c : ClientPort K) → position
        (λ c. c.port.id == (sender_of sender store.now.clients.senders).owner) store.now.clients.ports ≡ Some i
        → slice_get store.now.clients.ports i ≡ Some c
        → (sender_of sender store.now.clients.senders).pendings < store.now.limits.max_active_requests_per_client
        → result ≡ (if list_any (λ s. is_closed_to (opened store.now) sender s && not
        (discards K.action (client_part c).port s.port.id)) (opened store.now).servers then Some
        (limit.SendError send.UnableToDeliver) else None) }
{
    if store.limits.max_active_requests_per_client <= store.clients.pendings(sender) {
        return Some(RequestSendError::ExceedsMaxActiveRequests);
    }
    let servers = store.servers.connected();
    if connections == servers.len() {
        return None;
    }
    let client = store.clients.port(store.clients.index_of_sender(sender));
    let messages = store.clients.messages(sender);
    let overflow = store.limits.enable_safe_overflow_for_requests;
    if is_refused(messages, &client.port, servers, overflow) {
        return Some(RequestSendError::SendError(SendError::UnableToDeliver));
    }
    None
}

/// Returns whether the queue to some server is full, may not overflow, and is not skipped.
#[inline(always)]
fn is_refused<B: Body, N: Copy, H: Drop, K: BackpressureFn>(
    messages: &Sender<B, N, H>,
    port: &Port<K>,
    servers: &[ServerPort<K>],
    overflow: bool,
) -> bool
    requires inside { (i : ℕ) (s : ServerPort K) → slice_get servers.now i ≡ Some s
        → s.port.receiver < length messages.now.queues }
    requires channels { (i : ℕ) (s : ServerPort K) → slice_get servers.now i ≡ Some s
        → 0 < length (slice_index_or messages.now.queues s.port.receiver []) }
    ensures { result ≡ list_any (is_refused_at K.action (connected_of port.now).port overflow messages.now)
        servers.now }
{
    for server in servers {
        if is_request_blocked(messages, server.port.receiver, overflow)
            && !discards(port, server.port.id)
        {
            return true;
        }
    }
    false
}

/// Returns how many servers' queues take one more entry.
#[inline(always)]
fn open_count<B: Body, N: Copy, H: Drop, K: Drop>(
    messages: &Sender<B, N, H>,
    servers: &[ServerPort<K>],
    overflow: bool,
) -> usize
    requires inside { (i : ℕ) (s : ServerPort K) → slice_get servers.now i ≡ Some s
        → s.port.receiver < length messages.now.queues }
    requires channels { (i : ℕ) (s : ServerPort K) → slice_get servers.now i ≡ Some s
        → 0 < length (slice_index_or messages.now.queues s.port.receiver []) }
    ensures { result ≡ count_by (λ s. not (is_blocked_at overflow messages.now s.port.receiver)) servers.now }
{
    let mut count = 0;
    for server in servers {
        if !is_request_blocked(messages, server.port.receiver, overflow) {
            count += 1;
        }
    }
    count
}
