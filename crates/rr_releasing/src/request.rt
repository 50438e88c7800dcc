//! Releases of requests on loan.
ghost use Rattle.std.specs.Prelude.{◌≡◌, true, IsSomeAnd};
ghost use Rattle.rr_protocol.specs.Releases.{after_release};
ghost use Rattle.rr_protocol.specs.State.{handle_at};
ghost use Rattle.rr_store.specs.Opened.{opened};
ghost use Rattle.rr_store.specs.Releasing.{IsHandleGone, is_loaned_request};
ghost use Rattle.rr_store.specs.Reaching.{IsCore};
ghost use Rattle.rr_store.specs.Sound.{HasPort, IsSoundStore, empty_hand};
ghost use Rattle.rr_store.specs.Views.{sender_of, state_of};
ghost use Rattle.rr_table.specs.TableView.{IsAt};

use crate::leaving::client::leave_client_of_sender_if_unused;
use rr_protocol::BackpressureFn;
use rr_slots::Body;
use rr_store::Store;
use rr_table::Place;

/// Releases the loaned request in this place: gives its slot back, and decrements its client's loans. The client
/// leaves if nothing else of it lives.
#[inline(always)]
pub fn release_request_at<
    QB: Body,
    QH: Default + Drop,
    PB: Body,
    PH: Default + Drop,
    K: BackpressureFn,
>(store: &mut Store<QB, QH, PB, PH, K>, number: u64, place: Place)
    requires core { IsCore (opened store.old) }
    requires at { IsAt store.old.table number place }
    requires kind { IsSomeAnd (handle_at (state_of (opened store.old)) number)
        (λ handle. is_loaned_request handle ≡ true) }
    ensures core { IsCore (opened store.new) }
    ensures view { state_of (opened store.new) ≡ after_release (state_of (opened store.old)) number }
{
    let sender = end_request(store, number, place);
    leave_client_of_sender_if_unused(store, sender);
}

/// Takes the loaned request out of its place, gives its slot back, and decrements its client's loans. Returns the
/// client's sender.
#[inline(always)]
fn end_request<QB: Body, QH: Default + Drop, PB: Body, PH: Default + Drop, K: BackpressureFn>(
    store: &mut Store<QB, QH, PB, PH, K>,
    number: u64,
    place: Place,
) -> usize
    requires core { IsCore (opened store.old) }
    requires at { IsAt store.old.table number place }
    requires kind { IsSomeAnd (handle_at (state_of (opened store.old)) number)
        (λ handle. is_loaned_request handle ≡ true) }
    ensures sound { IsSoundStore (opened store.new) empty_hand }
    ensures port { HasPort (λ c. c.sender) (opened store.new).clients result }
    ensures gone { IsHandleGone (state_of (opened store.old)) number
        (sender_of result (opened store.new).client_senders).owner (state_of (opened store.new)) }
{
    let entry = store.table.take_at(number, place);
    store.clients.give_back(entry.sender, entry.slot);
    store.clients.end_loan(entry.sender);
    entry.sender
}
