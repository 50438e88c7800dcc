//! Responses of one element that a single call loans, writes and sends.
ghost use Rattle.std.specs.Prelude.{◌≡◌, ◌<◌, ◌∷◌, [], IsTrue, Some};
ghost use Rattle.rr_hub.specs.Copies.{IsOfCore, SendsResponseAtOnce, with_complete_response};
ghost use Rattle.rr_protocol.specs.declared.kind.Kind.TheVariants as kind;
ghost use Rattle.rr_protocol.specs.Queries.{kind_at};
ghost use Rattle.rr_protocol.specs.Sends.{SendsResponse};
ghost use Rattle.rr_protocol.specs.State.{numbers_left};
ghost use Rattle.rr_slots.specs.Families.{takes_len};
ghost use Rattle.rr_store.specs.Opened.{opened};
ghost use Rattle.rr_store.specs.Reaching.{IsCore};
ghost use Rattle.rr_store.specs.Views.{state_of};
ghost use Rattle.rr_table.specs.TableView.{IsAt};

use rr_loaning::{loan_response_at, new_response_details, response_loan_limit};
use rr_protocol::{BackpressureFn, LoanError, SendError};
use rr_sending::{is_response_refused, send_response_at};
use rr_slots::{Body, WriteBody};
use rr_store::{HandleId, Store};
use rr_table::Place;
use rr_writing::write_response_at;

/// Loans a response of one element from the active request in this place, writes the element and sends it.
///
/// # Errors
///
/// - `LoanError(..)` as `loan_response_at`; the store is unchanged then.
/// - `UnableToDeliver` as `send_response_at`.
#[inline(always)]
pub(crate) fn send_response_at_once<
    QB: Body,
    QH: Default + Drop,
    PB: WriteBody,
    PH: Default + Drop,
    K: BackpressureFn,
>(
    store: &mut Store<QB, QH, PB, PH, K>,
    active: u64,
    place: Place,
    element: PB::Item,
) -> Result<(), SendError>
    requires core { IsCore (opened store.old) }
    requires at { IsAt store.old.table active place }
    requires kind { kind_at (state_of (opened store.old)) active ≡ Some kind.ActiveRequest }
    requires number { 0 < numbers_left (state_of (opened store.old)) }
    requires len { IsTrue (takes_len PB.family 1) }
    requires one { (body : PB) → PB.asked_len body ≡ 1 }
    ensures core { IsCore (opened store.new) }
    ensures sends { SendsResponseAtOnce PH.is_default K.action (state_of (opened store.old)) active 1 (element ∷ [])
        result (state_of (opened store.new)) }
{
    let entry = store.table.at(active, place);
    let (server, loans) = match entry.stage.active() {
        Some(found) => found,
        None => unreachable!(),
    };
    let index = store.servers.index_of(server);
    if let Some(refusal) = response_loan_limit(store, index, 1, loans) {
        return Err(SendError::LoanError(refusal));
    }
    let sender = store.servers.sender_of_port(index);
    let details = new_response_details(store, server, active, entry.sender, entry.slot);
    let reach = store.clients.reached_receiver(&store.table, details);
    if is_response_refused(store, sender, details, reach) {
        return send_response_in_steps(store, active, place, element);
    }
    match store.servers.loan(sender, 1, details, PH::default()) {
        Ok(own) => {
            store.servers.write(sender, own.index, element);
            let overflow = store.limits.enable_safe_overflow_for_responses;
            store
                .servers
                .hand_over(sender, own.index, details.channel, reach, overflow);
            store.next += 1;
            Ok(())
        }
        Err(_) => Err(SendError::LoanError(LoanError::OutOfMemory)),
    }
}

/// Loans a response of one element, writes the element and sends it, in three steps.
///
/// # Errors
///
/// - As `send_response_at_once`.
#[cold]
fn send_response_in_steps<
    QB: Body,
    QH: Default + Drop,
    PB: WriteBody,
    PH: Default + Drop,
    K: BackpressureFn,
>(
    store: &mut Store<QB, QH, PB, PH, K>,
    active: u64,
    place: Place,
    element: PB::Item,
) -> Result<(), SendError>
    requires core { IsCore (opened store.old) }
    requires at { IsAt store.old.table active place }
    requires kind { kind_at (state_of (opened store.old)) active ≡ Some kind.ActiveRequest }
    requires number { 0 < numbers_left (state_of (opened store.old)) }
    requires len { IsTrue (takes_len PB.family 1) }
    requires one { (body : PB) → PB.asked_len body ≡ 1 }
    ensures core { IsCore (opened store.new) }
    ensures sends { SendsResponseAtOnce PH.is_default K.action (state_of (opened store.old)) active 1 (element ∷ [])
        result (state_of (opened store.new)) }
{
    match loan_response_at(store, active, place, 1) {
        Ok(response) => send_loaned_response(store, &response, element),
        Err(error) => Err(SendError::LoanError(error)),
    }
}

/// Writes the only element of a response that was just loaned and sends it.
///
/// # Errors
///
/// - As `send_response_at`.
fn send_loaned_response<
    QB: Body,
    QH: Default + Drop,
    PB: WriteBody,
    PH: Default + Drop,
    K: BackpressureFn,
>(
    store: &mut Store<QB, QH, PB, PH, K>,
    response: &HandleId,
    element: PB::Item,
) -> Result<(), SendError>
    requires core { IsCore (opened store.old) }
    requires kind { kind_at (state_of (opened store.old)) response.now ≡ Some kind.ResponseMutUninit }
    requires one { (body : PB) → PB.asked_len body ≡ 1 }
    ensures core { IsCore (opened store.new) }
    ensures ready { IsOfCore (with_complete_response (state_of (opened store.old)) response.now (element ∷ [])) }
    ensures sends { SendsResponse K.action (with_complete_response (state_of (opened store.old)) response.now
        (element ∷ [])) response.now result (state_of (opened store.new)) }
{
    let number = response.number();
    let place = store.locate(response);
    write_response_at(store, number, place, element);
    let place = store.locate(response);
    send_response_at(store, number, place)
}
