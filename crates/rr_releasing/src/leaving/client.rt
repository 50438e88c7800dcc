//! Clients that leave.
ghost use Rattle.std.specs.Prelude.{◌≡◌, Some, ◌<◌, false, IsSomeAnd, length, slice_get, ℕ};
ghost use Rattle.rr_protocol.specs.Releases.{after_client_left, without_unused_port, room_for_expired_clients};
ghost use Rattle.rr_store.specs.Leaving.{is_client_used};
ghost use Rattle.rr_store.specs.declared.port.ClientPort.{ClientPort};
ghost use Rattle.rr_store.specs.Opened.{opened};
ghost use Rattle.rr_store.specs.Ports.{client_part};
ghost use Rattle.rr_store.specs.Sound.{HasPort, IsSoundStore, empty_hand};
ghost use Rattle.rr_store.specs.Views.{sender_of, state_of};

use rr_protocol::BackpressureFn;
use rr_slots::Body;
use rr_store::Store;

/// Lets the client of a sender leave, if neither its value nor one of its handles lives. Reads only the sender while
/// the value lives.
#[inline(always)]
pub fn leave_client_of_sender_if_unused<
    QB: Body,
    QH: Default + Drop,
    PB: Body,
    PH: Default + Drop,
    K: BackpressureFn,
>(store: &mut Store<QB, QH, PB, PH, K>, sender: usize)
    requires sound { IsSoundStore (opened store.old) empty_hand }
    requires port { HasPort (λ c. c.sender) (opened store.old).clients sender }
    ensures sound { IsSoundStore (opened store.new) empty_hand }
    ensures view { state_of (opened store.new) ≡ without_unused_port (state_of (opened store.old))
        (sender_of sender (opened store.old).client_senders).owner }
{
    if !store.clients.has_value(sender) {
        leave_client_without_value(store, sender);
    }
}

/// Lets a sender's client, whose value was released, leave if none of its handles lives.
#[cold]
fn leave_client_without_value<
    QB: Body,
    QH: Default + Drop,
    PB: Body,
    PH: Default + Drop,
    K: BackpressureFn,
>(store: &mut Store<QB, QH, PB, PH, K>, sender: usize)
    requires sound { IsSoundStore (opened store.old) empty_hand }
    requires port { HasPort (λ c. c.sender) (opened store.old).clients sender }
    ensures sound { IsSoundStore (opened store.new) empty_hand }
    ensures view { state_of (opened store.new) ≡ without_unused_port (state_of (opened store.old))
        (sender_of sender (opened store.old).client_senders).owner }
{
    let index = store.clients.index_of_sender(sender);
    leave_client_if_unused(store, index);
}

/// Lets the client at `index` leave, if neither its value nor one of its handles lives.
pub fn leave_client_if_unused<
    QB: Body,
    QH: Default + Drop,
    PB: Body,
    PH: Default + Drop,
    K: BackpressureFn,
>(store: &mut Store<QB, QH, PB, PH, K>, index: usize)
    requires sound { IsSoundStore (opened store.old) empty_hand }
    requires index { index < length (opened store.old).clients }
    ensures sound { IsSoundStore (opened store.new) empty_hand }
    ensures view { IsSomeAnd (slice_get (opened store.old).clients index)
        (λ c. state_of (opened store.new) ≡ without_unused_port (state_of (opened store.old)) c.port.id) }
{
    if !is_client_used(store, index) {
        leave_client(store, index);
    }
}

/// Lets the client at `index`, which is not in use, leave: its requests that nobody received become expired pairs of
/// their receivers, and entries for it are dropped.
fn leave_client<QB: Body, QH: Default + Drop, PB: Body, PH: Default + Drop, K: BackpressureFn>(
    store: &mut Store<QB, QH, PB, PH, K>,
    index: usize,
)
    requires sound { IsSoundStore (opened store.old) empty_hand }
    requires index { index < length (opened store.old).clients }
    requires unused { IsSomeAnd (slice_get (opened store.old).clients index)
        (λ c. is_client_used (opened store.old) c ≡ false) }
    ensures sound { IsSoundStore (opened store.new) empty_hand }
    ensures view { IsSomeAnd (slice_get (opened store.old).clients index)
        (λ c. state_of (opened store.new) ≡ after_client_left (state_of (opened store.old)) c.port.id) }
{
    let leaving = store.clients.leaving(index);
    let receiver = store.clients.receiver_of_port(index);
    let room = room_for_expired_clients(store);
    store
        .clients
        .expire(store.servers.connected(), leaving, room);
    store.servers.clear_for(receiver);
    store.clients.remove_port(index, leaving);
}

/// Returns whether the value of the client at `index` lives, or it has a handle. Reads each server's sender and
/// channel at most once.
#[cold]
fn is_client_used<QB: Body, QH: Default + Drop, PB: Body, PH: Default + Drop, K: BackpressureFn>(
    store: &Store<QB, QH, PB, PH, K>,
    index: usize,
) -> bool
    requires inside { index < length store.now.clients.ports }
    requires sender { (c : ClientPort K) → slice_get store.now.clients.ports index ≡ Some c
        → c.port.sender < length store.now.clients.senders }
    requires receivers { (c : ClientPort K) → slice_get store.now.clients.ports index ≡ Some c → (l : ℕ)
        → l < length store.now.servers.senders
        → c.port.receiver < length (sender_of l store.now.servers.senders).messages.borrowed }
    ensures used { (c : ClientPort K) → slice_get store.now.clients.ports index ≡ Some c
        → result ≡ is_client_used (opened store.now) (client_part c) }
{
    let port = &store.clients.port(index).port;
    let sender = port.sender;
    if port.has_value || store.clients.loans(sender) > 0 || store.clients.pendings(sender) > 0 {
        return true;
    }
    store.servers.is_borrowing(port.receiver)
}

/// Returns how many clients that left a server keeps requests of: none without fire-and-forget requests.
#[cold]
fn room_for_expired_clients<
    QB: Body,
    QH: Default + Drop,
    PB: Body,
    PH: Default + Drop,
    K: BackpressureFn,
>(store: &Store<QB, QH, PB, PH, K>) -> usize
    ensures { result ≡ room_for_expired_clients (state_of (opened store.now)) }
{
    if store.limits.enable_fire_and_forget_requests {
        store.limits.server_expired_connection_buffer
    } else {
        0
    }
}
