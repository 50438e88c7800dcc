//! Loans of requests.
ghost use Rattle.std.specs.Prelude.{◌≡◌, ◌≢◌, ◌<◌, Some, Err, IsTrue, IsSomeAnd, length, slice_get};
ghost use Rattle.rr_slots.specs.Families.{takes_len};
ghost use Rattle.rr_protocol.specs.Loans.{LoansRequest};
ghost use Rattle.rr_protocol.specs.Queries.{kind_at};
ghost use Rattle.rr_protocol.specs.State.{numbers_left};
ghost use Rattle.rr_laws.specs.Unreduced.{ClientHasPool};
ghost use Rattle.rr_store.specs.Opened.{opened};
ghost use Rattle.rr_store.specs.Reaching.{IsCore};
ghost use Rattle.rr_store.specs.Views.{state_of};
ghost use Rattle.rr_store.specs.Changes.{request_loan_limit};
ghost use Rattle.rr_store.specs.Loaning.{loan_details};
ghost use Rattle.rr_protocol.specs.declared.kind.Kind.TheVariants as kind;

use crate::limits::is_too_long;
use rr_protocol::{BackpressureFn, LoanError};
use rr_slots::{Body, WriteBody};
use rr_store::{HandleEntry, HandleId, RequestDetails, Stage, Store};

/// Loans a request of `len` elements, a length that the body's family takes, from a client whose value lives. It has
/// the next number, of which one remains, any free channel and a default user header.
///
/// # Errors
///
/// - `ExceedsMaxLoanSize` for a slice that is longer than a static pool has room for.
/// - `ExceedsMaxLoans` if the client has its maximum of requests on loan.
/// - `OutOfMemory` if the client's live requests fill its pool, or a longer slice found no memory.
///
/// The store is unchanged then.
#[inline(always)]
pub fn loan_request<
    QB: WriteBody,
    QH: Default + Drop,
    PB: Body,
    PH: Default + Drop,
    K: BackpressureFn,
>(store: &mut Store<QB, QH, PB, PH, K>, client: u64, len: usize) -> Result<HandleId, LoanError>
    requires core { IsCore (opened store.old) }
    requires kind { kind_at (state_of (opened store.old)) client ≡ Some kind.Client }
    requires number { 0 < numbers_left (state_of (opened store.old)) }
    requires len { IsTrue (takes_len QB.family len) }
    ensures core { IsCore (opened store.new) }
    ensures loans { LoansRequest QH.is_default (state_of (opened store.old)) client len result
        (state_of (opened store.new)) }
    ensures unreduced { ClientHasPool store.old.limits (state_of (opened store.old)) client len
        → result ≢ Err LoanError.OutOfMemory }
{
    let index = store.clients.index_of(client);
    if let Some(refusal) = request_loan_limit(store, index, len) {
        return Err(refusal);
    }
    let sender = store.clients.sender_of_port(index);
    let details = new_request_details(store, index);
    match store.clients.loan(sender, len, details, QH::default()) {
        Ok(place) => {
            store.clients.count_request_loan(index, sender);
            let entry = HandleEntry {
                stage: Stage::RequestMutUninit,
                sender,
                slot: place.index,
            };
            let number = store.add(place, entry);
            Ok(HandleId::new(number, place))
        }
        Err(_) => Err(LoanError::OutOfMemory),
    }
}

/// Returns the first reason that refuses a loan of a request of `len` elements: it is too long for the client, or the
/// client has its maximum of requests on loan. Returns `None` if there is no such reason.
#[inline(always)]
pub fn request_loan_limit<
    QB: Body,
    QH: Default + Drop,
    PB: Body,
    PH: Default + Drop,
    K: BackpressureFn,
>(store: &Store<QB, QH, PB, PH, K>, index: usize, len: usize) -> Option<LoanError>
    requires index { index < length store.now.clients.ports }
    requires sender { IsSomeAnd (slice_get store.now.clients.ports index)
        (λ c. c.port.sender < length store.now.clients.senders) }
    ensures { IsSomeAnd (slice_get (opened store.now).clients index)
        (λ c. result ≡ request_loan_limit (opened store.now) c len) }
{
    let port = &store.clients.port(index).port;
    if is_too_long(port, len) {
        return Some(LoanError::ExceedsMaxLoanSize);
    }
    if store.limits.max_loaned_requests <= store.clients.loans(port.sender) {
        return Some(LoanError::ExceedsMaxLoans);
    }
    None
}

/// Returns the details of the next request of the client at an index.
#[inline(always)]
pub fn new_request_details<
    QB: Body,
    QH: Default + Drop,
    PB: Body,
    PH: Default + Drop,
    K: BackpressureFn,
>(store: &Store<QB, QH, PB, PH, K>, index: usize) -> RequestDetails
    requires { index < length (opened store.now).clients }
    ensures { IsSomeAnd (slice_get (opened store.now).clients index) (λ c. result ≡ loan_details (opened store.now) c) }
{
    let client = store.clients.port(index);
    RequestDetails {
        number: store.next,
        client: client.port.id,
        request_id: client.loans_made,
    }
}
