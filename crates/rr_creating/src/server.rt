//! Creating servers.
ghost use Rattle.std.specs.Prelude.{◌≡◌, ◌≤◌, ◌+◌, None, IsTrue, IfOk, OnErr, OnOk, [], length, replicate, ◌<◌, ◌^◌, true};
ghost use Rattle.rr_slots.specs.Families.{takes_len};
ghost use Rattle.rr_protocol.specs.Creation.{CreatesServer, server_refusal, with_server};
ghost use Rattle.rr_protocol.specs.Limits.{hub_refusal, worst_case_requests, max_loaned_responses, worst_case_responses};
ghost use Rattle.rr_store.specs.Draining.{AreThere};
ghost use Rattle.rr_store.specs.Creating.{IsNew, senders_after, left_at};
ghost use Rattle.rr_store.specs.KnownWaiting.{AreAlike, AreSentAgain};
ghost use Rattle.rr_store.specs.Opened.{opened};
ghost use Rattle.rr_store.specs.Reaching.{IsCore};
ghost use Rattle.rr_store.specs.Views.{no_response, state_of, sender_of};
ghost use Rattle.rr_table.specs.TableView.{IsRenewed};
ghost use Rattle.rr_store.specs.Asked.{CanTakeOver};
ghost use Rattle.rr_store.specs.Changes.{with_new_server, with_server_again};
ghost use Rattle.rr_store.specs.Ports.{connected_of, server_part};

use crate::pools::{pool_size, worst_case_requests, worst_case_responses};
use rr_protocol::{BackpressureFn, Limits, ServerCreateError, ServerSettings};
use rr_sender::{Sender, SenderSize};
use rr_slots::{Body, WriteBody};
use rr_store::{NUMBERS, Port, ResponseDetails, ServerPort, Store};
use std::alloc::{AllocError, Global};

/// A placeholder for the details of a response.
const NO_RESPONSE: ResponseDetails = ResponseDetails {
    number: 0,
    server: 0,
    active_request: 0,
    request: 0,
    request_id: 0,
    client: 0,
    client_sender: 0,
    channel: 0,
};

/// Creates a server under the next number.
///
/// Returns `UnableToCreatePortTag` if no number remains, `ExceedsMaxSupportedServers` if the hub has its maximum of
/// connected servers, or `UnableToCreateDataSegment` if the worst-case number of responses overflows a `usize` or
/// memory was refused; nothing has changed then. The initial length is one that the body's family takes.
pub fn create_server<
    QB: Body,
    QH: Default + Drop,
    PB: WriteBody,
    PH: Default + Drop,
    K: BackpressureFn,
>(
    store: &mut Store<QB, QH, PB, PH, K>,
    alloc: Global,
    settings: ServerSettings<K>,
) -> Result<u64, ServerCreateError>
    requires core { IsCore (opened store.old) }
    requires len { IsTrue (takes_len PB.family settings.initial_max_slice_len) }
    ensures core { IsCore (opened store.new) }
    ensures view { CreatesServer (state_of (opened store.old)) settings result (state_of (opened store.new)) }
{
    match server_refusal(store, &settings) {
        Some(refusal) => Err(refusal),
        None => match add_server(store, alloc, settings) {
            Ok(number) => Ok(number),
            Err(_) => Err(ServerCreateError::UnableToCreateDataSegment),
        },
    }
}

/// Adds a server. Returns `AllocError` if memory was refused; contracts see no change then.
fn add_server<QB: Body, QH: Default + Drop, PB: WriteBody, PH: Default + Drop, K: BackpressureFn>(
    store: &mut Store<QB, QH, PB, PH, K>,
    alloc: Global,
    settings: ServerSettings<K>,
) -> Result<u64, AllocError>
    requires core { IsCore (opened store.old) }
    requires len { IsTrue (takes_len PB.family settings.initial_max_slice_len) }
    requires due { server_refusal (state_of (opened store.old)) settings ≡ None }
    ensures core { IsCore (opened store.new) }
    ensures number { IfOk result (λ number. number ≡ store.old.next) }
    ensures ok { OnOk result (state_of (opened store.new) ≡ with_server (state_of (opened store.old)) settings) }
    ensures err { OnErr result (state_of (opened store.new) ≡ state_of (opened store.old)) }
{
    store.servers.reserve_left()?;
    insert_server(store, alloc, settings)
}

/// Adds a server that can leave without memory. It reuses the sender of a server that left, if nothing uses that any
/// more. Returns `AllocError` if memory was refused; nothing has changed then.
fn insert_server<
    QB: Body,
    QH: Default + Drop,
    PB: WriteBody,
    PH: Default + Drop,
    K: BackpressureFn,
>(
    store: &mut Store<QB, QH, PB, PH, K>,
    alloc: Global,
    settings: ServerSettings<K>,
) -> Result<u64, AllocError>
    requires core { IsCore (opened store.old) }
    requires len { IsTrue (takes_len PB.family settings.initial_max_slice_len) }
    requires due { server_refusal (state_of (opened store.old)) settings ≡ None }
    requires room { length (opened store.old).servers + 1 + length (opened store.old).left_servers
        ≤ (opened store.old).server_room }
    requires left { AreThere store.old.servers.senders store.old.servers.left }
    ensures core { IsCore (opened store.new) }
    ensures number { IfOk result (λ number. number ≡ store.old.next) }
    ensures senders { OnOk result (length (opened store.new).server_senders
        ≡ senders_after (opened store.old).server_senders (opened store.old).left_servers) }
    ensures ok { OnOk result (state_of (opened store.new) ≡ with_server (state_of (opened store.old)) settings) }
    ensures err { OnErr result (opened store.new ≡ opened store.old) }
{
    let limits = store.limits;
    let loans = settings.loans.max(1);
    let slots = pool_size(worst_case_responses(&limits, loans), settings.pool);
    let receiver = store.servers.free_receiver(limits.max_servers);
    store.request_turns.begin(alloc, receiver, 1)?;
    let messages = server_messages(alloc, &limits, slots, settings.initial_max_slice_len)?;
    match store.servers.idle_left() {
        Some(index) => append_server_again(
            store, alloc, settings, loans, slots, receiver, index, messages,
        ),
        None => append_server(store, alloc, settings, loans, slots, receiver, messages),
    }
}

/// Makes the sender of a server: `slots` slots, each with room for `room` elements, a length that the body's family
/// takes. Returns `AllocError` if memory was refused.
fn server_messages<B: WriteBody, H: Default + Drop>(
    alloc: Global,
    limits: &Limits,
    slots: usize,
    room: usize,
) -> Result<Sender<B, ResponseDetails, H>, AllocError>
    requires len { IsTrue (takes_len B.family room) }
    requires hub { hub_refusal limits.now ≡ None }
    ensures { IfOk result (λ messages. IsNew slots room limits.now.max_clients (worst_case_requests limits.now)
        limits.now.max_response_buffer_size no_response messages) }
{
    let size = SenderSize {
        slots,
        room,
        receivers: limits.max_clients,
        channels: worst_case_requests(limits),
        capacity: limits.max_response_buffer_size,
    };
    Sender::new(alloc, size, NO_RESPONSE)
}

/// Returns the first reason that refuses one more server with these settings.
fn server_refusal<QB: Body, QH: Default + Drop, PB: Body, PH: Default + Drop, K: BackpressureFn>(
    store: &Store<QB, QH, PB, PH, K>,
    settings: &ServerSettings<K>,
) -> Option<ServerCreateError>
    requires { hub_refusal store.now.limits ≡ None }
    ensures { result ≡ server_refusal (state_of (opened store.now)) settings.now }
{
    if NUMBERS <= store.next {
        return Some(ServerCreateError::UnableToCreatePortTag);
    }
    if store.limits.max_servers <= store.servers.port_count() {
        return Some(ServerCreateError::ExceedsMaxSupportedServers);
    }
    match store.limits.worst_case_responses(settings.loans.max(1)) {
        Some(_) => None,
        None => Some(ServerCreateError::UnableToCreateDataSegment),
    }
}

/// Adds a server with `slots` slots, and at most `loans` responses on loan for each request, under the next number,
/// which it returns. Returns `AllocError` if memory was refused; nothing has changed then.
fn append_server<QB: Body, QH: Default + Drop, PB: Body, PH: Default + Drop, K: BackpressureFn>(
    store: &mut Store<QB, QH, PB, PH, K>,
    alloc: Global,
    settings: ServerSettings<K>,
    loans: usize,
    slots: usize,
    receiver: usize,
    messages: Sender<PB, ResponseDetails, PH>,
) -> Result<u64, AllocError>
    requires next { store.old.next + 1 < 2 ^ 64 }
    requires hub { hub_refusal store.old.limits ≡ None }
    requires unsent { messages.queues ≡ replicate store.old.limits.max_clients
        (replicate (worst_case_requests store.old.limits) []) }
    requires alike { AreAlike store.old.limits.max_clients (worst_case_requests store.old.limits)
        store.old.servers.senders }
    requires clients { 0 < store.old.limits.max_clients }
    requires loans { max_loaned_responses store.old.limits loans < 2 ^ 64 }
    ensures number { IfOk result (λ number. number ≡ store.old.next) }
    ensures ok { OnOk result (opened store.new ≡ with_new_server (opened store.old) settings loans slots receiver
        messages) }
    ensures err { OnErr result (opened store.new ≡ opened store.old) }
{
    let number = store.next;
    let sender = store.servers.sender_count();
    let limits = &store.limits;
    let receivers = limits.max_clients;
    let channels = worst_case_requests(limits);
    let server = server_of(limits, number, settings, loans, slots, sender, receiver);
    store.servers.insert(
        alloc,
        &mut store.table,
        server,
        messages,
        receivers,
        channels,
        Vec::new(alloc),
        slots,
    )?;
    store.next = number + 1;
    Ok(number)
}

/// Adds a server as `append_server` does, but reuses the sender of the server at an index of those that left: that
/// sender becomes a new one, and that server is removed from the list. Returns `AllocError` if memory was refused;
/// nothing has changed then.
fn append_server_again<
    QB: Body,
    QH: Default + Drop,
    PB: Body,
    PH: Default + Drop,
    K: BackpressureFn,
>(
    store: &mut Store<QB, QH, PB, PH, K>,
    alloc: Global,
    settings: ServerSettings<K>,
    loans: usize,
    slots: usize,
    receiver: usize,
    index: usize,
    messages: Sender<PB, ResponseDetails, PH>,
) -> Result<u64, AllocError>
    requires next { store.old.next + 1 < 2 ^ 64 }
    requires clients { 0 < store.old.limits.max_clients }
    requires loans { max_loaned_responses store.old.limits loans < 2 ^ 64 }
    requires again { AreSentAgain store.old.servers.senders messages.queues }
    requires left { CanTakeOver (opened store.old).server_senders (opened store.old).left_servers store.old.table.rows
        index }
    ensures number { IfOk result (λ number. number ≡ store.old.next) }
    ensures ok { OnOk result (opened store.new ≡ with_server_again (opened store.old) settings loans slots receiver
        messages index store.new.table) }
    ensures table { OnOk result (IsRenewed (sender_of (left_at index (opened store.old).left_servers).sender
        (opened store.old).server_senders).row slots store.old.table store.new.table) }
    ensures err { OnErr result (opened store.new ≡ opened store.old) }
{
    let number = store.next;
    let sender = store.servers.left_sender(index);
    let limits = &store.limits;
    let server = server_of(limits, number, settings, loans, slots, sender, receiver);
    store.servers.insert_again(
        alloc,
        &mut store.table,
        server,
        index,
        messages,
        Vec::new(alloc),
        slots,
    )?;
    store.next = number + 1;
    Ok(number)
}

/// A server's port.
fn server_port<K: Drop>(
    id: u64,
    settings: ServerSettings<K>,
    pool_size: usize,
    sender: usize,
    receiver: usize,
) -> Port<K>
    ensures { connected_of result ≡ record {
      port = record {
        id = id;
        strategy = settings.strategy;
        handler = settings.handler;
        allocation_strategy = settings.allocation_strategy;
        initial_max_slice_len = settings.initial_max_slice_len;
        pool_size = pool_size;
        has_value = true;
      };
      sender = sender;
      receiver = receiver;
    } }
{
    Port {
        id,
        strategy: settings.strategy,
        handler: settings.handler,
        allocation_strategy: settings.allocation_strategy,
        initial_max_slice_len: settings.initial_max_slice_len,
        pool_size,
        has_value: true,
        sender,
        receiver,
    }
}

/// Makes a server that may have `loans` responses on loan for each request.
fn server_of<K: Drop>(
    limits: &Limits,
    id: u64,
    settings: ServerSettings<K>,
    loans: usize,
    pool_size: usize,
    sender: usize,
    receiver: usize,
) -> ServerPort<K>
    requires clients { 0 < limits.now.max_clients }
    requires loans { max_loaned_responses limits.now loans < 2 ^ 64 }
    ensures { server_part result ≡ record {
      connected = record {
        port = record {
          id = id;
          strategy = settings.strategy;
          handler = settings.handler;
          allocation_strategy = settings.allocation_strategy;
          initial_max_slice_len = settings.initial_max_slice_len;
          pool_size = pool_size;
          has_value = true;
        };
        sender = sender;
        receiver = receiver;
      };
      max_loaned_responses_per_request = loans;
      max_loaned_responses = max_loaned_responses limits.now loans;
    } }
{
    let max_loaned_responses = loans * limits.max_active_requests_per_client * limits.max_clients;
    ServerPort {
        port: server_port(id, settings, pool_size, sender, receiver),
        max_loaned_responses_per_request: loans,
        max_loaned_responses,
    }
}
