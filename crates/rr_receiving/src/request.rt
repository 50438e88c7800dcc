//! Receiving requests.
ghost use Rattle.std.specs.Prelude.{◌≡◌, ◌<◌, ℕ, [], IfNone, IfSome, Ok, Some, false, length, true};
ghost use Rattle.rr_protocol.specs.Queries.{kind_at};
ghost use Rattle.rr_protocol.specs.Receives.{ReceivesRequest};
ghost use Rattle.rr_protocol.specs.State.{numbers_left};
ghost use Rattle.rr_store.specs.Opened.{opened};
ghost use Rattle.rr_store.specs.Reaching.{IsCore};
ghost use Rattle.rr_store.specs.Views.{state_of};
ghost use Rattle.rr_store.specs.Changes.{with_request_senders};
ghost use Rattle.rr_store.specs.Draining.{HaveQueues};
ghost use Rattle.rr_store.specs.Receiving.{HaveChannels, IsNextFrom, IsNextSender, queue_from};
ghost use Rattle.rr_store.specs.Skimming.{IsSkimmedTo};
ghost use Rattle.rr_protocol.specs.declared.kind.Kind.TheVariants as kind;

use rr_protocol::{BackpressureFn, ReceiveError};
use rr_slots::Body;
use rr_store::{HandleEntry, HandleId, Stage, Store};

/// Receives the oldest request of a client that a server, whose value lives, has not received yet. It has the next
/// number, of which one remains.
///
/// Receives are round robin: the client after the one served last comes first. Unless the limits allow
/// fire-and-forget requests, drops requests at the front of a queue whose pending responses were released. Skips
/// clients whose requests the server has borrowed up to its limit. Returns `None` if no request is queued then. Takes
/// O(marked senders + requests that it drops), and no memory. After iceoryx2's `Server::receive`.
///
/// # Errors
///
/// - `ExceedsMaxBorrows` if requests are queued, but the server is at its borrow limit for each of their clients.
#[inline(always)]
pub fn receive_request<
    QB: Body,
    QH: Default + Drop,
    PB: Body,
    PH: Default + Drop,
    K: BackpressureFn,
>(store: &mut Store<QB, QH, PB, PH, K>, server: u64) -> Result<Option<HandleId>, ReceiveError>
    requires core { IsCore (opened store.old) }
    requires kind { kind_at (state_of (opened store.old)) server ≡ Some kind.Server }
    requires number { 0 < numbers_left (state_of (opened store.old)) }
    ensures core { IsCore (opened store.new) }
    ensures receives { ReceivesRequest (state_of (opened store.old)) server result (state_of (opened store.new)) }
{
    let index = store.servers.index_of(server);
    let receiver = store.servers.receiver_of_port(index);
    match next_request_sender(store, receiver) {
        Ok(Some(sender)) => {
            let slot = store.clients.take_first(sender, receiver, 0);
            let own = store.clients.place_at_receiver(sender, receiver, slot);
            let entry = HandleEntry {
                stage: Stage::ActiveRequest(server, 0),
                sender,
                slot,
            };
            let number = store.add(own, entry);
            Ok(Some(HandleId::new(number, own)))
        }
        Ok(None) => Ok(None),
        Err(error) => Err(error),
    }
}

/// Returns the client's sender from which a server takes its next request. Before that, unless the limits allow
/// fire-and-forget requests, drops dead requests from the fronts of the queues that it polls and that are below the
/// borrow limit.
#[inline(always)]
fn next_request_sender<
    QB: Body,
    QH: Default + Drop,
    PB: Body,
    PH: Default + Drop,
    K: BackpressureFn,
>(store: &mut Store<QB, QH, PB, PH, K>, receiver: usize) -> Result<Option<usize>, ReceiveError>
    requires receiver { HaveQueues store.old.clients.senders receiver }
    requires channel { HaveChannels store.old.clients.senders receiver 0 }
    ensures rest { opened store.new ≡ with_request_senders (opened store.old) store.new.clients.senders }
    ensures kept { store.old.limits.enable_fire_and_forget_requests ≡ true → opened store.new ≡ opened store.old }
    ensures skimmed { store.old.limits.enable_fire_and_forget_requests ≡ false
        → IsSkimmedTo store.old.table receiver store.old.limits.max_active_requests_per_client
        store.old.clients.senders store.new.clients.senders result }
    ensures next { IsNextSender store.new.clients.senders receiver 0 store.old.limits.max_active_requests_per_client
        result }
{
    if 1 < store.clients.sender_count() {
        return request_sender_in_turn(store, receiver);
    }
    let most = store.limits.max_active_requests_per_client;
    if store.limits.enable_fire_and_forget_requests {
        return store.clients.only_sender(receiver, 0, most);
    }
    store.clients.skim_only(&store.table, receiver, most)
}

/// Returns the client's sender from which a server takes its next request, if there are several, and advances the
/// cursor past it. Returns at once if no sender is marked.
#[inline(always)]
fn request_sender_in_turn<
    QB: Body,
    QH: Default + Drop,
    PB: Body,
    PH: Default + Drop,
    K: BackpressureFn,
>(store: &mut Store<QB, QH, PB, PH, K>, receiver: usize) -> Result<Option<usize>, ReceiveError>
    requires several { 1 < length store.old.clients.senders }
    requires receiver { HaveQueues store.old.clients.senders receiver }
    requires channel { HaveChannels store.old.clients.senders receiver 0 }
    ensures rest { opened store.new ≡ with_request_senders (opened store.old) store.new.clients.senders }
    ensures kept { store.old.limits.enable_fire_and_forget_requests ≡ true → opened store.new ≡ opened store.old }
    ensures skimmed { store.old.limits.enable_fire_and_forget_requests ≡ false
        → IsSkimmedTo store.old.table receiver store.old.limits.max_active_requests_per_client
        store.old.clients.senders store.new.clients.senders result }
    ensures next { IsNextSender store.new.clients.senders receiver 0 store.old.limits.max_active_requests_per_client
        result }
{
    let Some(first) = first_request_sender(store, receiver) else {
        return Ok(None);
    };
    let found = request_sender_beginning(store, receiver, first);
    if let Ok(Some(sender)) = found {
        store.request_turns.set(receiver, 0, sender.wrapping_add(1));
    }
    found
}

/// Returns the client's sender that a server polls first, if there are several. Clears the bit of the sender served
/// last if its queue is empty. Returns `None` if no sender is marked.
#[cold]
fn first_request_sender<
    QB: Body,
    QH: Default + Drop,
    PB: Body,
    PH: Default + Drop,
    K: BackpressureFn,
>(store: &mut Store<QB, QH, PB, PH, K>, receiver: usize) -> Option<usize>
    requires several { 1 < length store.old.clients.senders }
    requires receiver { HaveQueues store.old.clients.senders receiver }
    requires channel { HaveChannels store.old.clients.senders receiver 0 }
    ensures kept { opened store.new ≡ opened store.old }
    ensures there { IfSome result (λ sender. sender < length store.old.clients.senders) }
    ensures idle { IfNone result ((sender : ℕ) → sender < length store.old.clients.senders
        → queue_from store.old.clients.senders receiver 0 sender ≡ []) }
{
    if store.clients.is_idle(receiver, 0) {
        return None;
    }
    let turn = store.request_turns.at(receiver, 0);
    let first = store.clients.next_around(receiver, 0, turn)?;
    store.clients.forget_before(receiver, 0, turn, first);
    Some(first)
}

/// Returns the client's sender from which a server takes next: this one, or else the next one in round-robin order.
#[inline(always)]
fn request_sender_beginning<
    QB: Body,
    QH: Default + Drop,
    PB: Body,
    PH: Default + Drop,
    K: BackpressureFn,
>(
    store: &mut Store<QB, QH, PB, PH, K>,
    receiver: usize,
    first: usize,
) -> Result<Option<usize>, ReceiveError>
    requires several { 1 < length store.old.clients.senders }
    requires sender { first < length store.old.clients.senders }
    requires receiver { HaveQueues store.old.clients.senders receiver }
    requires channel { HaveChannels store.old.clients.senders receiver 0 }
    ensures rest { opened store.new ≡ with_request_senders (opened store.old) store.new.clients.senders }
    ensures kept { store.old.limits.enable_fire_and_forget_requests ≡ true → opened store.new ≡ opened store.old }
    ensures skimmed { store.old.limits.enable_fire_and_forget_requests ≡ false
        → IsSkimmedTo store.old.table receiver store.old.limits.max_active_requests_per_client
        store.old.clients.senders store.new.clients.senders result }
    ensures next { IsNextSender store.new.clients.senders receiver 0 store.old.limits.max_active_requests_per_client
        result }
{
    match request_sender_at(store, receiver, first) {
        Some(sender) => Ok(Some(sender)),
        None => request_sender_around(store, receiver, first),
    }
}

/// Returns a client's sender if a server takes its next request from it.
#[inline(always)]
fn request_sender_at<QB: Body, QH: Default + Drop, PB: Body, PH: Default + Drop, K: BackpressureFn>(
    store: &mut Store<QB, QH, PB, PH, K>,
    receiver: usize,
    sender: usize,
) -> Option<usize>
    requires several { 1 < length store.old.clients.senders }
    requires sender { sender < length store.old.clients.senders }
    requires receiver { HaveQueues store.old.clients.senders receiver }
    requires channel { HaveChannels store.old.clients.senders receiver 0 }
    ensures rest { opened store.new ≡ with_request_senders (opened store.old) store.new.clients.senders }
    ensures kept { store.old.limits.enable_fire_and_forget_requests ≡ true → opened store.new ≡ opened store.old }
    ensures skimmed { store.old.limits.enable_fire_and_forget_requests ≡ false
        → IsSkimmedTo store.old.table receiver store.old.limits.max_active_requests_per_client
        store.old.clients.senders store.new.clients.senders (Ok result) }
    ensures next { IfSome result (λ sender. IsNextSender store.new.clients.senders receiver 0
        store.old.limits.max_active_requests_per_client (Ok (Some sender))) }
{
    let most = store.limits.max_active_requests_per_client;
    if store.limits.enable_fire_and_forget_requests {
        return store.clients.ready_or_forgotten(sender, receiver, 0, most);
    }
    store.clients.skim_at(&store.table, sender, receiver, most)
}

/// Polls the senders at or after `turn`, then wraps around to the rest. Returns the sender that the server takes its
/// next request from.
#[cold]
fn request_sender_around<
    QB: Body,
    QH: Default + Drop,
    PB: Body,
    PH: Default + Drop,
    K: BackpressureFn,
>(
    store: &mut Store<QB, QH, PB, PH, K>,
    receiver: usize,
    turn: usize,
) -> Result<Option<usize>, ReceiveError>
    requires receiver { HaveQueues store.old.clients.senders receiver }
    requires channel { HaveChannels store.old.clients.senders receiver 0 }
    ensures rest { opened store.new ≡ with_request_senders (opened store.old) store.new.clients.senders }
    ensures kept { store.old.limits.enable_fire_and_forget_requests ≡ true → opened store.new ≡ opened store.old }
    ensures skimmed { store.old.limits.enable_fire_and_forget_requests ≡ false
        → IsSkimmedTo store.old.table receiver store.old.limits.max_active_requests_per_client
        store.old.clients.senders store.new.clients.senders result }
    ensures next { IsNextSender store.new.clients.senders receiver 0 store.old.limits.max_active_requests_per_client
        result }
{
    if turn == 0 {
        return request_sender_from(store, receiver, 0);
    }
    match request_sender_from(store, receiver, turn) {
        Ok(Some(sender)) => Ok(Some(sender)),
        _ => request_sender_from(store, receiver, 0),
    }
}

/// Polls the senders at or after `from`. Returns the one that the server takes its next request from, as
/// `next_request_sender` does.
#[inline(always)]
fn request_sender_from<
    QB: Body,
    QH: Default + Drop,
    PB: Body,
    PH: Default + Drop,
    K: BackpressureFn,
>(
    store: &mut Store<QB, QH, PB, PH, K>,
    receiver: usize,
    from: usize,
) -> Result<Option<usize>, ReceiveError>
    requires receiver { HaveQueues store.old.clients.senders receiver }
    requires channel { HaveChannels store.old.clients.senders receiver 0 }
    ensures rest { opened store.new ≡ with_request_senders (opened store.old) store.new.clients.senders }
    ensures kept { store.old.limits.enable_fire_and_forget_requests ≡ true → opened store.new ≡ opened store.old }
    ensures skimmed { store.old.limits.enable_fire_and_forget_requests ≡ false
        → IsSkimmedTo store.old.table receiver store.old.limits.max_active_requests_per_client
        store.old.clients.senders store.new.clients.senders result }
    ensures next { IsNextFrom from store.new.clients.senders receiver 0
        store.old.limits.max_active_requests_per_client result }
{
    let most = store.limits.max_active_requests_per_client;
    if store.limits.enable_fire_and_forget_requests {
        return store.clients.next_sender(receiver, 0, most, from);
    }
    store
        .clients
        .skim_to_next(&store.table, receiver, most, from)
}
