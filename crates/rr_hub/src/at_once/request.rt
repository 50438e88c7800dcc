//! Requests of one element that a single call loans, writes and sends.
ghost use Rattle.std.specs.Prelude.{◌≡◌, ◌<◌, ◌∷◌, [], ℕ, IfErr, IfOk, IsTrue, Ok, Err, Some};
ghost use Rattle.rr_hub.specs.Copies.{IsOfCore, SendsRequestAtOnce, with_complete_request};
ghost use Rattle.rr_protocol.specs.declared.kind.Kind.TheVariants as kind;
ghost use Rattle.rr_protocol.specs.Queries.{kind_at};
ghost use Rattle.rr_protocol.specs.Sends.{SendsRequest};
ghost use Rattle.rr_protocol.specs.State.{numbers_left};
ghost use Rattle.rr_slots.specs.Families.{takes_len};
ghost use Rattle.rr_store.specs.Opened.{opened};
ghost use Rattle.rr_store.specs.Reaching.{IsCore};
ghost use Rattle.rr_store.specs.Views.{state_of};

use rr_loaning::{loan_request, new_request_details, request_loan_limit};
use rr_protocol::{BackpressureFn, LoanError, RequestSendError, SendError};
use rr_sending::{open_connections, request_send_limit, send_request_at};
use rr_slots::{Body, WriteBody};
use rr_store::{HandleEntry, HandleId, Stage, Store};
use rr_writing::write_request_at;

/// Loans a request of one element from a client whose value lives, writes the element and sends it.
///
/// # Errors
///
/// - `SendError(LoanError(..))` as `loan_request`; the store is unchanged then.
/// - `ExceedsMaxActiveRequests` and `SendError(UnableToDeliver)` as `send_request_at`.
#[inline(always)]
pub(crate) fn send_request_at_once<
    QB: WriteBody,
    QH: Default + Drop,
    PB: Body,
    PH: Default + Drop,
    K: BackpressureFn,
>(
    store: &mut Store<QB, QH, PB, PH, K>,
    client: u64,
    element: QB::Item,
) -> Result<HandleId, RequestSendError>
    requires core { IsCore (opened store.old) }
    requires kind { kind_at (state_of (opened store.old)) client ≡ Some kind.Client }
    requires number { 0 < numbers_left (state_of (opened store.old)) }
    requires len { IsTrue (takes_len QB.family 1) }
    requires one { (body : QB) → QB.asked_len body ≡ 1 }
    ensures core { IsCore (opened store.new) }
    ensures sends { SendsRequestAtOnce QH.is_default K.action (state_of (opened store.old)) client 1 (element ∷ [])
        result (state_of (opened store.new)) }
{
    let index = store.clients.index_of(client);
    if let Some(refusal) = request_loan_limit(store, index, 1) {
        return Err(RequestSendError::SendError(SendError::LoanError(refusal)));
    }
    let sender = store.clients.sender_of_port(index);
    let connections = open_connections(store, sender);
    if request_send_limit(store, sender, connections).is_some() {
        return send_request_in_steps(store, client, element);
    }
    let details = new_request_details(store, index);
    match store.clients.loan(sender, 1, details, QH::default()) {
        Ok(place) => {
            store.clients.write(sender, place.index, element);
            store.clients.count_request_loan(index, sender);
            let entry = HandleEntry {
                stage: Stage::PendingResponse(false, connections),
                sender,
                slot: place.index,
            };
            let number = store.add(place, entry);
            let overflow = store.limits.enable_safe_overflow_for_requests;
            let receivers = store.limits.max_servers;
            let servers = store.servers.connected();
            store
                .clients
                .queue(sender, place.index, receivers, servers, overflow);
            store.clients.count_as_sent(sender);
            Ok(HandleId::new(number, place))
        }
        Err(_) => Err(RequestSendError::SendError(SendError::LoanError(LoanError::OutOfMemory))),
    }
}

/// Loans a request of one element, writes the element and sends it, in three steps.
///
/// # Errors
///
/// - As `send_request_at_once`.
#[cold]
fn send_request_in_steps<
    QB: WriteBody,
    QH: Default + Drop,
    PB: Body,
    PH: Default + Drop,
    K: BackpressureFn,
>(
    store: &mut Store<QB, QH, PB, PH, K>,
    client: u64,
    element: QB::Item,
) -> Result<HandleId, RequestSendError>
    requires core { IsCore (opened store.old) }
    requires kind { kind_at (state_of (opened store.old)) client ≡ Some kind.Client }
    requires number { 0 < numbers_left (state_of (opened store.old)) }
    requires len { IsTrue (takes_len QB.family 1) }
    requires one { (body : QB) → QB.asked_len body ≡ 1 }
    ensures core { IsCore (opened store.new) }
    ensures sends { SendsRequestAtOnce QH.is_default K.action (state_of (opened store.old)) client 1 (element ∷ [])
        result (state_of (opened store.new)) }
{
    match loan_request(store, client, 1) {
        Ok(request) => send_loaned_request(store, request, element),
        Err(error) => Err(RequestSendError::SendError(SendError::LoanError(error))),
    }
}

/// Writes the only element of a request that was just loaned and sends it. It keeps its number.
///
/// # Errors
///
/// - As `send_request_at`.
fn send_loaned_request<
    QB: WriteBody,
    QH: Default + Drop,
    PB: Body,
    PH: Default + Drop,
    K: BackpressureFn,
>(
    store: &mut Store<QB, QH, PB, PH, K>,
    request: HandleId,
    element: QB::Item,
) -> Result<HandleId, RequestSendError>
    requires core { IsCore (opened store.old) }
    requires kind { kind_at (state_of (opened store.old)) request ≡ Some kind.RequestMutUninit }
    requires one { (body : QB) → QB.asked_len body ≡ 1 }
    ensures core { IsCore (opened store.new) }
    ensures ready { IsOfCore (with_complete_request (state_of (opened store.old)) request (element ∷ [])) }
    ensures same { IfOk result (λ pending. pending ≡ request) }
    ensures sent { IfOk result (λ pending. (connections : ℕ)
        × SendsRequest K.action (with_complete_request (state_of (opened store.old)) request (element ∷ [])) request
        (Ok connections) (state_of (opened store.new))) }
    ensures refused { IfErr result (λ error. SendsRequest K.action
        (with_complete_request (state_of (opened store.old)) request (element ∷ [])) request (Err error)
        (state_of (opened store.new))) }
{
    let number = request.number();
    let place = store.locate(&request);
    write_request_at(store, number, place, element);
    let place = store.locate(&request);
    match send_request_at(store, number, place) {
        Ok(_) => Ok(request),
        Err(error) => Err(error),
    }
}
