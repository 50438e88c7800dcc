//! Creating clients.
ghost use Rattle.std.specs.Prelude.{◌≡◌, ◌≤◌, ◌+◌, None, IsTrue, IfOk, OnErr, OnOk, length, ◌<◌, ◌^◌, ◌*◌, Some, [], replicate, true};
ghost use Rattle.rr_slots.specs.Families.{takes_len};
ghost use Rattle.rr_protocol.specs.Creation.{CreatesClient, client_refusal, with_client};
ghost use Rattle.rr_store.specs.Draining.{AreThere};
ghost use Rattle.rr_store.specs.Creating.{senders_after, left_at, IsNew, idle_left};
ghost use Rattle.rr_store.specs.KnownWaiting.{AreAlike, AreSentAgain};
ghost use Rattle.rr_store.specs.Opened.{opened};
ghost use Rattle.rr_store.specs.Reaching.{IsCore};
ghost use Rattle.rr_store.specs.Views.{state_of, sender_of, no_request, no_server};
ghost use Rattle.rr_protocol.specs.Limits.{hub_refusal, worst_case_requests};
ghost use Rattle.rr_table.specs.TableView.{IsRenewed};
ghost use Rattle.rr_store.specs.Asked.{CanTakeOver};
ghost use Rattle.rr_store.specs.Changes.{with_client_again, with_new_client};
ghost use Rattle.rr_store.specs.Ports.{connected_of};

use crate::pools::{pool_size, worst_case_requests};
use rr_protocol::{BackpressureFn, ClientCreateError, ClientSettings, Limits};
use rr_sender::{Sender, SenderSize};
use rr_slots::{Body, WriteBody};
use rr_store::{ClientPort, NO_SERVER, NUMBERS, Port, RequestDetails, Store};
use std::alloc::{AllocError, Global};

/// Creates a client under the next number.
///
/// Returns `UnableToCreatePortTag` if no number remains, `ExceedsMaxSupportedClients` if the hub has its maximum of
/// connected clients, or `UnableToCreateDataSegment` if memory was refused; nothing has changed then. The initial
/// length is one that the body's family takes.
pub fn create_client<
    QB: WriteBody,
    QH: Default + Drop,
    PB: Body,
    PH: Default + Drop,
    K: BackpressureFn,
>(
    store: &mut Store<QB, QH, PB, PH, K>,
    alloc: Global,
    settings: ClientSettings<K>,
) -> Result<u64, ClientCreateError>
    requires core { IsCore (opened store.old) }
    requires len { IsTrue (takes_len QB.family settings.initial_max_slice_len) }
    ensures core { IsCore (opened store.new) }
    ensures view { CreatesClient (state_of (opened store.old)) settings result (state_of (opened store.new)) }
{
    match client_refusal(store) {
        Some(refusal) => Err(refusal),
        None => match add_client(store, alloc, settings) {
            Ok(number) => Ok(number),
            Err(_) => Err(ClientCreateError::UnableToCreateDataSegment),
        },
    }
}

/// Adds a client. Returns `AllocError` if memory was refused; contracts see no change then.
fn add_client<QB: WriteBody, QH: Default + Drop, PB: Body, PH: Default + Drop, K: BackpressureFn>(
    store: &mut Store<QB, QH, PB, PH, K>,
    alloc: Global,
    settings: ClientSettings<K>,
) -> Result<u64, AllocError>
    requires core { IsCore (opened store.old) }
    requires len { IsTrue (takes_len QB.family settings.initial_max_slice_len) }
    requires due { client_refusal (state_of (opened store.old)) ≡ None }
    ensures core { IsCore (opened store.new) }
    ensures number { IfOk result (λ number. number ≡ store.old.next) }
    ensures ok { OnOk result (state_of (opened store.new) ≡ with_client (state_of (opened store.old)) settings) }
    ensures err { OnErr result (state_of (opened store.new) ≡ state_of (opened store.old)) }
{
    store.clients.reserve_left()?;
    insert_client(store, alloc, settings)
}

/// Adds a client that can leave without memory. It reuses the sender of a client that left, if nothing uses that any
/// more. Returns `AllocError` if memory was refused; nothing has changed then.
fn insert_client<
    QB: WriteBody,
    QH: Default + Drop,
    PB: Body,
    PH: Default + Drop,
    K: BackpressureFn,
>(
    store: &mut Store<QB, QH, PB, PH, K>,
    alloc: Global,
    settings: ClientSettings<K>,
) -> Result<u64, AllocError>
    requires core { IsCore (opened store.old) }
    requires len { IsTrue (takes_len QB.family settings.initial_max_slice_len) }
    requires due { client_refusal (state_of (opened store.old)) ≡ None }
    requires room { length (opened store.old).clients + 1 + length (opened store.old).left_clients
        ≤ (opened store.old).client_room }
    requires left { AreThere store.old.clients.senders store.old.clients.left }
    requires next { store.old.next + 1 < 2 ^ 64 }
    requires limits { hub_refusal store.old.limits ≡ None }
    ensures core { IsCore (opened store.new) }
    ensures number { IfOk result (λ number. number ≡ store.old.next) }
    ensures senders { OnOk result (length (opened store.new).client_senders
        ≡ senders_after (opened store.old).client_senders (opened store.old).left_clients) }
    ensures ok { OnOk result (state_of (opened store.new) ≡ with_client (state_of (opened store.old)) settings) }
    ensures err { OnErr result (opened store.new ≡ opened store.old) }
{
    let limits = store.limits;
    let slots = pool_size(worst_case_requests(&limits), settings.pool);
    let receiver = store.clients.free_receiver(limits.max_clients);
    store.response_turns.begin(alloc, receiver, slots)?;
    let client = client_store(alloc, &limits, slots, settings.initial_max_slice_len)?;
    match store.clients.idle_left() {
        Some(index) => append_client_again(store, alloc, settings, slots, receiver, index, client),
        None => append_client(store, alloc, settings, slots, receiver, client),
    }
}

/// Returns the first reason that refuses one more client.
fn client_refusal<QB: Body, QH: Default + Drop, PB: Body, PH: Default + Drop, K: BackpressureFn>(
    store: &Store<QB, QH, PB, PH, K>,
) -> Option<ClientCreateError>
    ensures { result ≡ client_refusal (state_of (opened store.now)) }
{
    if NUMBERS <= store.next {
        return Some(ClientCreateError::UnableToCreatePortTag);
    }
    if store.limits.max_clients <= store.clients.port_count() {
        return Some(ClientCreateError::ExceedsMaxSupportedClients);
    }
    None
}

/// Adds a client with `slots` slots under the next number, which it returns. Returns `AllocError` if memory was
/// refused; nothing has changed then.
fn append_client<QB: Body, QH: Default + Drop, PB: Body, PH: Default + Drop, K: BackpressureFn>(
    store: &mut Store<QB, QH, PB, PH, K>,
    alloc: Global,
    settings: ClientSettings<K>,
    slots: usize,
    receiver: usize,
    client: ClientStore<QB, QH>,
) -> Result<u64, AllocError>
    requires next { store.old.next + 1 < 2 ^ 64 }
    requires unsent { client.messages.queues ≡ replicate store.old.limits.max_servers (replicate 1 []) }
    requires alike { AreAlike store.old.limits.max_servers 1 store.old.clients.senders }
    ensures number { IfOk result (λ number. number ≡ store.old.next) }
    ensures ok { OnOk result (opened store.new ≡ with_new_client (opened store.old) settings slots receiver
        client.messages client.marks.items client.row_len) }
    ensures err { OnErr result (opened store.new ≡ opened store.old) }
{
    let number = store.next;
    let sender = store.clients.sender_count();
    let receivers = store.limits.max_servers;
    let port = client_port(number, settings, slots, sender, receiver);
    store.clients.insert(
        alloc,
        &mut store.table,
        ClientPort {
            port,
            loans_made: 0,
        },
        client.messages,
        receivers,
        1,
        client.marks,
        client.row_len,
    )?;
    store.next = number + 1;
    Ok(number)
}

/// Adds a client as `append_client` does, but reuses the sender of the client at an index of those that left: that
/// sender becomes a new one, and that client is removed from the list. Returns `AllocError` if memory was refused;
/// nothing has changed then.
fn append_client_again<
    QB: Body,
    QH: Default + Drop,
    PB: Body,
    PH: Default + Drop,
    K: BackpressureFn,
>(
    store: &mut Store<QB, QH, PB, PH, K>,
    alloc: Global,
    settings: ClientSettings<K>,
    slots: usize,
    receiver: usize,
    index: usize,
    client: ClientStore<QB, QH>,
) -> Result<u64, AllocError>
    requires next { store.old.next + 1 < 2 ^ 64 }
    requires again { AreSentAgain store.old.clients.senders client.messages.queues }
    requires left { CanTakeOver (opened store.old).client_senders (opened store.old).left_clients store.old.table.rows
        index }
    ensures number { IfOk result (λ number. number ≡ store.old.next) }
    ensures ok { OnOk result (opened store.new ≡ with_client_again (opened store.old) settings slots receiver
        client.messages client.marks.items index store.new.table) }
    ensures table { OnOk result (IsRenewed (sender_of (left_at index (opened store.old).left_clients).sender
        (opened store.old).client_senders).row client.row_len store.old.table store.new.table) }
    ensures err { OnErr result (opened store.new ≡ opened store.old) }
{
    let number = store.next;
    let sender = store.clients.left_sender(index);
    let port = client_port(number, settings, slots, sender, receiver);
    store.clients.insert_again(
        alloc,
        &mut store.table,
        ClientPort {
            port,
            loans_made: 0,
        },
        index,
        client.messages,
        client.marks,
        client.row_len,
    )?;
    store.next = number + 1;
    Ok(number)
}

/// The details of no request.
const NO_REQUEST: RequestDetails = RequestDetails {
    number: 0,
    client: 0,
    request_id: 0,
};

/// Returns the number of places in a row: for each slot one for its own handle, and one for a handle of each server.
/// `Err` if no memory holds that number.
fn row_len(slots: usize, servers: usize) -> Result<usize, AllocError>
    ensures len { IfOk result (λ len. len ≡ (servers + 1) * slots) }
    ensures fits { IfOk result (λ len. len < 2 ^ 64) }
{
    match servers.checked_add(1) {
        Some(handles) => match handles.checked_mul(slots) {
            Some(len) => Ok(len),
            None => Err(AllocError),
        },
        None => Err(AllocError),
    }
}

/// The storage of a client's messages: its sender, the marks of its slots, and the length of its row in the table.
#[derive(Drop)]
pub struct ClientStore<B: Body, H: Default + Drop> {
    pub messages: Sender<B, RequestDetails, H>,
    pub marks: Vec<u64>,
    pub row_len: usize,
}

/// Makes the store of a client: `slots` slots, each with room for `room` elements, a length that the body's family
/// takes. Returns `AllocError` if memory was refused.
fn client_store<B: WriteBody, H: Default + Drop>(
    alloc: Global,
    limits: &Limits,
    slots: usize,
    room: usize,
) -> Result<ClientStore<B, H>, AllocError>
    requires { IsTrue (takes_len B.family room) }
    ensures messages { IfOk result (λ store. IsNew slots room limits.now.max_servers 1
        limits.now.max_active_requests_per_client no_request store.messages) }
    ensures marks { IfOk result (λ store. store.marks.items ≡ replicate (slots * limits.now.max_servers) no_server) }
    ensures row { IfOk result (λ store. store.row_len ≡ (limits.now.max_servers + 1) * slots) }
    ensures fits { IfOk result (λ store. store.row_len < 2 ^ 64) }
{
    let row_len = row_len(slots, limits.max_servers)?;
    let size = SenderSize {
        slots,
        room,
        receivers: limits.max_servers,
        channels: 1,
        capacity: limits.max_active_requests_per_client,
    };
    Ok(ClientStore {
        messages: Sender::new(alloc, size, NO_REQUEST)?,
        marks: vec![in alloc; NO_SERVER; row_len - slots]?,
        row_len,
    })
}

/// A client's port.
fn client_port<K: Drop>(
    id: u64,
    settings: ClientSettings<K>,
    pool_size: usize,
    sender: usize,
    receiver: usize,
) -> Port<K>
    ensures { connected_of result ≡ record {
      port = record {
        id = id;
        strategy = settings.strategy;
        handler = settings.handler;
        allocation_strategy = settings.allocation_strategy;
        initial_max_slice_len = settings.initial_max_slice_len;
        pool_size = pool_size;
        has_value = true;
      };
      sender = sender;
      receiver = receiver;
    } }
{
    Port {
        id,
        strategy: settings.strategy,
        handler: settings.handler,
        allocation_strategy: settings.allocation_strategy,
        initial_max_slice_len: settings.initial_max_slice_len,
        pool_size,
        has_value: true,
        sender,
        receiver,
    }
}
