//! Servers that leave.
ghost use Rattle.std.specs.Prelude.{◌≡◌, Some, ◌<◌, false, IsSomeAnd, length, slice_get, ℕ};
ghost use Rattle.rr_protocol.specs.Releases.{after_server_left, without_unused_port};
ghost use Rattle.rr_store.specs.Leaving.{is_server_used};
ghost use Rattle.rr_store.specs.declared.port.ServerPort.{ServerPort};
ghost use Rattle.rr_store.specs.Opened.{opened};
ghost use Rattle.rr_store.specs.Ports.{server_part};
ghost use Rattle.rr_store.specs.Sound.{HasPort, IsSoundStore, empty_hand};
ghost use Rattle.rr_store.specs.Views.{sender_of, state_of};

use rr_protocol::BackpressureFn;
use rr_slots::Body;
use rr_store::Store;

/// Lets the server of a sender leave, if neither its value nor one of its handles lives. Reads only the sender while
/// the value lives.
#[inline(always)]
pub fn leave_server_of_sender_if_unused<
    QB: Body,
    QH: Default + Drop,
    PB: Body,
    PH: Default + Drop,
    K: BackpressureFn,
>(store: &mut Store<QB, QH, PB, PH, K>, sender: usize)
    requires sound { IsSoundStore (opened store.old) empty_hand }
    requires port { HasPort (λ s. s.sender) (opened store.old).servers sender }
    ensures sound { IsSoundStore (opened store.new) empty_hand }
    ensures view { state_of (opened store.new) ≡ without_unused_port (state_of (opened store.old))
        (sender_of sender (opened store.old).server_senders).owner }
{
    if !store.servers.has_value(sender) {
        leave_server_without_value(store, sender);
    }
}

/// Lets a sender's server, whose value was released, leave if none of its handles lives.
#[cold]
fn leave_server_without_value<
    QB: Body,
    QH: Default + Drop,
    PB: Body,
    PH: Default + Drop,
    K: BackpressureFn,
>(store: &mut Store<QB, QH, PB, PH, K>, sender: usize)
    requires sound { IsSoundStore (opened store.old) empty_hand }
    requires port { HasPort (λ s. s.sender) (opened store.old).servers sender }
    ensures sound { IsSoundStore (opened store.new) empty_hand }
    ensures view { state_of (opened store.new) ≡ without_unused_port (state_of (opened store.old))
        (sender_of sender (opened store.old).server_senders).owner }
{
    let index = store.servers.index_of_sender(sender);
    leave_server_if_unused(store, index);
}

/// Lets the server at `index` leave, if neither its value nor one of its handles lives.
pub fn leave_server_if_unused<
    QB: Body,
    QH: Default + Drop,
    PB: Body,
    PH: Default + Drop,
    K: BackpressureFn,
>(store: &mut Store<QB, QH, PB, PH, K>, index: usize)
    requires sound { IsSoundStore (opened store.old) empty_hand }
    requires index { index < length (opened store.old).servers }
    ensures sound { IsSoundStore (opened store.new) empty_hand }
    ensures view { IsSomeAnd (slice_get (opened store.old).servers index)
        (λ s. state_of (opened store.new) ≡ without_unused_port (state_of (opened store.old)) s.port.id) }
{
    if !is_server_used(store, index) {
        leave_server(store, index);
    }
}

/// Lets the server at `index`, which is not in use, leave: its responses that nobody received become expired pairs of
/// their receivers, and entries for it are dropped.
fn leave_server<QB: Body, QH: Default + Drop, PB: Body, PH: Default + Drop, K: BackpressureFn>(
    store: &mut Store<QB, QH, PB, PH, K>,
    index: usize,
)
    requires sound { IsSoundStore (opened store.old) empty_hand }
    requires index { index < length (opened store.old).servers }
    requires unused { IsSomeAnd (slice_get (opened store.old).servers index)
        (λ s. is_server_used (opened store.old) s ≡ false) }
    ensures sound { IsSoundStore (opened store.new) empty_hand }
    ensures view { IsSomeAnd (slice_get (opened store.old).servers index)
        (λ s. state_of (opened store.new) ≡ after_server_left (state_of (opened store.old)) s.port.id) }
{
    let leaving = store.servers.leaving(index);
    let receiver = store.servers.receiver_of_port(index);
    let room = store.limits.client_expired_connection_buffer;
    store
        .servers
        .expire(store.clients.connected(), leaving, room);
    store.clients.clear_for(receiver);
    store.servers.remove_port(index, leaving);
}

/// Returns whether the value of the server at `index` lives, or it has a handle. Reads each client's sender at most
/// once.
#[cold]
fn is_server_used<QB: Body, QH: Default + Drop, PB: Body, PH: Default + Drop, K: BackpressureFn>(
    store: &Store<QB, QH, PB, PH, K>,
    index: usize,
) -> bool
    requires inside { index < length store.now.servers.ports }
    requires sender { (s : ServerPort K) → slice_get store.now.servers.ports index ≡ Some s
        → s.port.sender < length store.now.servers.senders }
    requires receivers { (s : ServerPort K) → slice_get store.now.servers.ports index ≡ Some s → (l : ℕ)
        → l < length store.now.clients.senders
        → s.port.receiver < length (sender_of l store.now.clients.senders).messages.borrowed }
    ensures used { (s : ServerPort K) → slice_get store.now.servers.ports index ≡ Some s
        → result ≡ is_server_used (opened store.now) (server_part s) }
{
    let port = &store.servers.port(index).port;
    if port.has_value || store.servers.loans(port.sender) > 0 {
        return true;
    }
    store.clients.is_borrowing(port.receiver)
}
