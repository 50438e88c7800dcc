//! Releases of active requests.
ghost use Rattle.std.specs.Prelude.{◌≡◌, true, IsSomeAnd};
ghost use Rattle.rr_protocol.specs.Releases.{after_release};
ghost use Rattle.rr_protocol.specs.State.{handle_at};
ghost use Rattle.rr_store.specs.Opened.{opened};
ghost use Rattle.rr_store.specs.Releasing.{IsHandleGone, is_active_request, server_of_stage};
ghost use Rattle.rr_store.specs.Reaching.{IsCore};
ghost use Rattle.rr_store.specs.Sound.{HasPort, IsSoundStore, empty_hand};
ghost use Rattle.rr_store.specs.Views.{sender_of, state_of};
ghost use Rattle.rr_table.specs.TableView.{IsAt};

use crate::leaving::server::leave_server_of_sender_if_unused;
use rr_protocol::BackpressureFn;
use rr_slots::Body;
use rr_store::{Stage, Store};
use rr_table::Place;

/// Releases the active request in this place: gives its slot back, decrements the server's borrows from the client,
/// and clears the mark by which the server may answer. The server leaves if nothing else of it lives.
#[inline(always)]
pub fn release_active_at<
    QB: Body,
    QH: Default + Drop,
    PB: Body,
    PH: Default + Drop,
    K: BackpressureFn,
>(store: &mut Store<QB, QH, PB, PH, K>, number: u64, place: Place)
    requires core { IsCore (opened store.old) }
    requires at { IsAt store.old.table number place }
    requires kind { IsSomeAnd (handle_at (state_of (opened store.old)) number)
        (λ handle. is_active_request handle ≡ true) }
    ensures core { IsCore (opened store.new) }
    ensures view { state_of (opened store.new) ≡ after_release (state_of (opened store.old)) number }
{
    let sender = end_active(store, number, place);
    leave_server_of_sender_if_unused(store, sender);
}

/// Takes the active request out of its place, clears its server's mark on the request's slot, and ends the server's
/// borrow of the slot. Returns the server's sender.
#[inline(always)]
fn end_active<QB: Body, QH: Default + Drop, PB: Body, PH: Default + Drop, K: BackpressureFn>(
    store: &mut Store<QB, QH, PB, PH, K>,
    number: u64,
    place: Place,
) -> usize
    requires core { IsCore (opened store.old) }
    requires at { IsAt store.old.table number place }
    requires kind { IsSomeAnd (handle_at (state_of (opened store.old)) number)
        (λ handle. is_active_request handle ≡ true) }
    ensures sound { IsSoundStore (opened store.new) empty_hand }
    ensures port { HasPort (λ s. s.sender) (opened store.new).servers result }
    ensures gone { IsHandleGone (state_of (opened store.old)) number
        (sender_of result (opened store.new).server_senders).owner (state_of (opened store.new)) }
{
    let entry = store.table.take_at(number, place);
    let index = store.servers.index_of(server(entry.stage));
    let receiver = store.servers.receiver_of_port(index);
    let receivers = store.limits.max_servers;
    store
        .clients
        .clear_mark(entry.sender, entry.slot, receivers, receiver);
    store
        .clients
        .end_borrow(entry.sender, receiver, 0, entry.slot);
    store.servers.sender_of_port(index)
}

/// Returns the server that received an active request. 0 in other stages.
#[inline(always)]
fn server(stage: Stage) -> u64
    ensures { result ≡ server_of_stage stage }
{
    match stage {
        Stage::ActiveRequest(server, _) => server,
        _ => 0,
    }
}
