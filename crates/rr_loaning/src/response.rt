//! Loans of responses.
ghost use Rattle.std.specs.Prelude.{◌≡◌, ◌≢◌, ◌<◌, Some, Err, IsTrue, IsSomeAnd, length, slice_get};
ghost use Rattle.rr_slots.specs.Families.{takes_len};
ghost use Rattle.rr_protocol.specs.Loans.{LoansResponse};
ghost use Rattle.rr_protocol.specs.Queries.{kind_at};
ghost use Rattle.rr_protocol.specs.State.{numbers_left};
ghost use Rattle.rr_laws.specs.Unreduced.{ServerHasPool};
ghost use Rattle.rr_store.specs.Opened.{opened};
ghost use Rattle.rr_store.specs.Reaching.{IsCore};
ghost use Rattle.rr_store.specs.Views.{state_of, sender_of};
ghost use Rattle.rr_table.specs.TableView.{IsAt};
ghost use Rattle.rr_store.specs.Answering.{response_loan_details_of};
ghost use Rattle.rr_store.specs.Changes.{response_loan_limit};
ghost use Rattle.rr_store.specs.Sound.{request_details};
ghost use Rattle.rr_protocol.specs.declared.kind.Kind.TheVariants as kind;

use crate::limits::{is_at_loan_limit, is_too_long};
use rr_protocol::{BackpressureFn, LoanError};
use rr_slots::{Body, WriteBody};
use rr_store::{HandleEntry, HandleId, ResponseDetails, Stage, Store};
use rr_table::Place;

/// Loans a response of `len` elements, a length that the body's family takes, from the active request in this place.
/// It has the next number, of which one remains, and a default user header, and goes to the request's channel.
///
/// # Errors
///
/// - `ExceedsMaxLoanSize` for a slice that is longer than a static pool has room for.
/// - `ExceedsMaxLoans` if the active request, or its server, has its maximum of responses on loan.
/// - `OutOfMemory` if the server's live responses fill its pool, or a longer slice found no memory.
///
/// The store is unchanged then.
#[inline(always)]
pub fn loan_response_at<
    QB: Body,
    QH: Default + Drop,
    PB: WriteBody,
    PH: Default + Drop,
    K: BackpressureFn,
>(
    store: &mut Store<QB, QH, PB, PH, K>,
    number: u64,
    place: Place,
    len: usize,
) -> Result<HandleId, LoanError>
    requires core { IsCore (opened store.old) }
    requires at { IsAt store.old.table number place }
    requires kind { kind_at (state_of (opened store.old)) number ≡ Some kind.ActiveRequest }
    requires number { 0 < numbers_left (state_of (opened store.old)) }
    requires len { IsTrue (takes_len PB.family len) }
    ensures core { IsCore (opened store.new) }
    ensures loans { LoansResponse PH.is_default (state_of (opened store.old)) number len result
        (state_of (opened store.new)) }
    ensures unreduced { ServerHasPool store.old.limits (state_of (opened store.old)) number len
        → result ≢ Err LoanError.OutOfMemory }
{
    let active = store.table.at(number, place);
    let (server, loans) = match active.stage.active() {
        Some(found) => found,
        None => unreachable!(),
    };
    let index = store.servers.index_of(server);
    if let Some(refusal) = response_loan_limit(store, index, len, loans) {
        return Err(refusal);
    }
    let sender = store.servers.sender_of_port(index);
    let details = new_response_details(store, server, number, active.sender, active.slot);
    match store.servers.loan(sender, len, details, PH::default()) {
        Ok(own) => {
            store.servers.count_loan(sender);
            let stage = Stage::ActiveRequest(server, loans + 1);
            store
                .table
                .set_at(number, place, HandleEntry { stage, ..active });
            let entry = HandleEntry {
                stage: Stage::ResponseMutUninit,
                sender,
                slot: own.index,
            };
            let loaned = store.add(own, entry);
            Ok(HandleId::new(loaned, own))
        }
        Err(_) => Err(LoanError::OutOfMemory),
    }
}

/// Returns the first reason that refuses a loan of a response of `len` elements: it is too long for the server, or
/// the server, or an active request with `loans` responses on loan, has its maximum of them. Returns `None` if there
/// is no such reason.
#[inline(always)]
pub fn response_loan_limit<
    QB: Body,
    QH: Default + Drop,
    PB: Body,
    PH: Default + Drop,
    K: BackpressureFn,
>(store: &Store<QB, QH, PB, PH, K>, index: usize, len: usize, loans: usize) -> Option<LoanError>
    requires index { index < length store.now.servers.ports }
    requires sender { IsSomeAnd (slice_get store.now.servers.ports index)
        (λ s. s.port.sender < length store.now.servers.senders) }
    ensures { IsSomeAnd (slice_get (opened store.now).servers index)
        (λ s. result ≡ response_loan_limit (opened store.now) s len loans) }
{
    let server = store.servers.port(index);
    if is_too_long(&server.port, len) {
        return Some(LoanError::ExceedsMaxLoanSize);
    }
    let all = store.servers.loans(server.port.sender);
    if is_at_loan_limit(server, loans, all) {
        return Some(LoanError::ExceedsMaxLoans);
    }
    None
}

/// Returns the details of the next response to the request in a slot, from an active request of a server.
#[inline(always)]
pub fn new_response_details<
    QB: Body,
    QH: Default + Drop,
    PB: Body,
    PH: Default + Drop,
    K: BackpressureFn,
>(
    store: &Store<QB, QH, PB, PH, K>,
    server: u64,
    active_request: u64,
    sender: usize,
    slot: usize,
) -> ResponseDetails
    requires sender { sender < length (opened store.now).client_senders }
    requires slot { slot < length (sender_of sender (opened store.now).client_senders).messages.held }
    ensures { result ≡ response_loan_details_of server active_request sender
        (request_details (opened store.now) sender slot) slot store.now.next }
{
    let request = store.clients.details(sender, slot);
    ResponseDetails {
        number: store.next,
        server,
        active_request,
        request: request.number,
        request_id: request.request_id,
        client: request.client,
        client_sender: sender,
        channel: slot,
    }
}
