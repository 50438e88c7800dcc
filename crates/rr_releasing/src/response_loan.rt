//! Releases of responses on loan.
ghost use Rattle.std.specs.Prelude.{◌≡◌, true, IsSomeAnd};
ghost use Rattle.rr_protocol.specs.Releases.{after_release};
ghost use Rattle.rr_protocol.specs.State.{handle_at};
ghost use Rattle.rr_store.specs.Opened.{opened};
ghost use Rattle.rr_store.specs.Releasing.{IsHandleGone, is_loaned_response};
ghost use Rattle.rr_store.specs.Reaching.{IsCore};
ghost use Rattle.rr_store.specs.Sound.{HasPort, IsSoundStore, empty_hand};
ghost use Rattle.rr_store.specs.Views.{sender_of, state_of};
ghost use Rattle.rr_table.specs.TableView.{IsAt};

use crate::leaving::server::leave_server_of_sender_if_unused;
use rr_protocol::BackpressureFn;
use rr_slots::Body;
use rr_store::Store;
use rr_table::Place;

/// Releases the loaned response in this place: gives its slot back, and decrements the loans of its server and of its
/// active request, if that is not released yet. The server leaves if nothing else of it lives.
#[inline(always)]
pub fn release_response_loan_at<
    QB: Body,
    QH: Default + Drop,
    PB: Body,
    PH: Default + Drop,
    K: BackpressureFn,
>(store: &mut Store<QB, QH, PB, PH, K>, number: u64, place: Place)
    requires core { IsCore (opened store.old) }
    requires at { IsAt store.old.table number place }
    requires kind { IsSomeAnd (handle_at (state_of (opened store.old)) number)
        (λ handle. is_loaned_response handle ≡ true) }
    ensures core { IsCore (opened store.new) }
    ensures view { state_of (opened store.new) ≡ after_release (state_of (opened store.old)) number }
{
    let sender = end_response(store, number, place);
    leave_server_of_sender_if_unused(store, sender);
}

/// Takes the loaned response out of its place, gives its slot back, and decrements the loans of its server and of its
/// active request, if that is not released yet. Returns the server's sender.
#[inline(always)]
fn end_response<QB: Body, QH: Default + Drop, PB: Body, PH: Default + Drop, K: BackpressureFn>(
    store: &mut Store<QB, QH, PB, PH, K>,
    number: u64,
    place: Place,
) -> usize
    requires core { IsCore (opened store.old) }
    requires at { IsAt store.old.table number place }
    requires kind { IsSomeAnd (handle_at (state_of (opened store.old)) number)
        (λ handle. is_loaned_response handle ≡ true) }
    ensures sound { IsSoundStore (opened store.new) empty_hand }
    ensures port { HasPort (λ s. s.sender) (opened store.new).servers result }
    ensures gone { IsHandleGone (state_of (opened store.old)) number
        (sender_of result (opened store.new).server_senders).owner (state_of (opened store.new)) }
{
    let entry = store.table.take_at(number, place);
    let details = store.servers.details(entry.sender, entry.slot);
    store.servers.give_back(entry.sender, entry.slot);
    let receiver = store.servers.end_loan(entry.sender);
    store.end_loan_from(details, receiver);
    entry.sender
}
