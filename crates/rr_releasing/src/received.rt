//! Releases of received responses.
ghost use Rattle.std.specs.Prelude.{◌≡◌, true, IsSomeAnd, option_and_then};
ghost use Rattle.rr_protocol.specs.Messages.{response_in};
ghost use Rattle.rr_protocol.specs.Releases.{after_release};
ghost use Rattle.rr_protocol.specs.State.{handle_at};
ghost use Rattle.rr_slots.specs.Elements.{option_elements};
ghost use Rattle.rr_store.specs.Opened.{opened};
ghost use Rattle.rr_store.specs.Releasing.{IsHandleGone, is_received_response};
ghost use Rattle.rr_store.specs.Reaching.{IsCore};
ghost use Rattle.rr_store.specs.Sound.{HasPort, IsSoundStore, empty_hand};
ghost use Rattle.rr_store.specs.Views.{sender_of, state_of};
ghost use Rattle.rr_table.specs.TableView.{IsAt};

use crate::leaving::client::leave_client_of_sender_if_unused;
use rr_protocol::BackpressureFn;
use rr_slots::Body;
use rr_store::Store;
use rr_table::Place;

/// Releases the received response in this place: gives its slot back, and decrements the client's borrows from the
/// channel. The client leaves if nothing else of it lives.
#[inline(always)]
pub fn release_received_at<
    QB: Body,
    QH: Default + Drop,
    PB: Body,
    PH: Default + Drop,
    K: BackpressureFn,
>(store: &mut Store<QB, QH, PB, PH, K>, number: u64, place: Place)
    requires core { IsCore (opened store.old) }
    requires at { IsAt store.old.table number place }
    requires kind { IsSomeAnd (handle_at (state_of (opened store.old)) number)
        (λ handle. is_received_response handle ≡ true) }
    ensures core { IsCore (opened store.new) }
    ensures view { state_of (opened store.new) ≡ after_release (state_of (opened store.old)) number }
{
    let sender = end_received(store, number, place);
    leave_client_of_sender_if_unused(store, sender);
}

/// Takes the received response out of its place, gives its slot back, and decrements its client's borrows from the
/// channel. Returns the client's sender.
#[inline(always)]
fn end_received<QB: Body, QH: Default + Drop, PB: Body, PH: Default + Drop, K: BackpressureFn>(
    store: &mut Store<QB, QH, PB, PH, K>,
    number: u64,
    place: Place,
) -> usize
    requires core { IsCore (opened store.old) }
    requires at { IsAt store.old.table number place }
    requires kind { IsSomeAnd (handle_at (state_of (opened store.old)) number)
        (λ handle. is_received_response handle ≡ true) }
    ensures sound { IsSoundStore (opened store.new) empty_hand }
    ensures port { HasPort (λ c. c.sender) (opened store.new).clients result }
    ensures gone { IsHandleGone (state_of (opened store.old)) number
        (sender_of result (opened store.new).client_senders).owner (state_of (opened store.new)) }
{
    let entry = store.table.take_at(number, place);
    let details = store.servers.details(entry.sender, entry.slot);
    let receiver = store.clients.receiver_of(details.client_sender);
    store
        .servers
        .end_borrow(entry.sender, receiver, details.channel, entry.slot);
    details.client_sender
}

/// Releases the received response in this place, as `release_received_at` does, and returns its element.
#[inline(always)]
pub fn take_received_at<
    QB: Body,
    QH: Default + Drop,
    T: Drop,
    PH: Default + Drop,
    K: BackpressureFn,
>(store: &mut Store<QB, QH, Option<T>, PH, K>, number: u64, place: Place) -> Option<T>
    requires core { IsCore (opened store.old) }
    requires at { IsAt store.old.table number place }
    requires kind { IsSomeAnd (handle_at (state_of (opened store.old)) number)
        (λ handle. is_received_response handle ≡ true) }
    ensures core { IsCore (opened store.new) }
    ensures view { state_of (opened store.new) ≡ after_release (state_of (opened store.old)) number }
    ensures elements { IsSomeAnd (option_and_then response_in (handle_at (state_of (opened store.old)) number))
        (λ m. option_elements result ≡ m.content.elements) }
    ensures asked { IsSomeAnd (option_and_then response_in (handle_at (state_of (opened store.old)) number))
        (λ m. 1 ≡ m.content.asked_len) }
{
    let (sender, element) = end_taken(store, number, place);
    leave_client_of_sender_if_unused(store, sender);
    element
}

/// Ends the received response in its place, as `end_received` does. Returns the client's sender, and the response's
/// element.
#[inline(always)]
fn end_taken<QB: Body, QH: Default + Drop, T: Drop, PH: Default + Drop, K: BackpressureFn>(
    store: &mut Store<QB, QH, Option<T>, PH, K>,
    number: u64,
    place: Place,
) -> (usize, Option<T>)
    requires core { IsCore (opened store.old) }
    requires at { IsAt store.old.table number place }
    requires kind { IsSomeAnd (handle_at (state_of (opened store.old)) number)
        (λ handle. is_received_response handle ≡ true) }
    ensures sound { IsSoundStore (opened store.new) empty_hand }
    ensures port { HasPort (λ c. c.sender) (opened store.new).clients result.0 }
    ensures gone { IsHandleGone (state_of (opened store.old)) number
        (sender_of result.0 (opened store.new).client_senders).owner (state_of (opened store.new)) }
    ensures elements { IsSomeAnd (option_and_then response_in (handle_at (state_of (opened store.old)) number))
        (λ m. option_elements result.1 ≡ m.content.elements) }
    ensures asked { IsSomeAnd (option_and_then response_in (handle_at (state_of (opened store.old)) number))
        (λ m. 1 ≡ m.content.asked_len) }
{
    let entry = store.table.take_at(number, place);
    let details = store.servers.details(entry.sender, entry.slot);
    let receiver = store.clients.receiver_of(details.client_sender);
    // Only its clause is used: the body was loaned for one element, as every body of this family.
    let body = store.servers.body(entry.sender, entry.slot);
    let _ = body;
    let element = store
        .servers
        .end_borrow_taking(entry.sender, receiver, details.channel, entry.slot);
    (details.client_sender, element)
}
