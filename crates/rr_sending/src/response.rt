//! Sends of responses.
ghost use Rattle.std.specs.Prelude.{◌≡◌, Some, ◌==◌, ◌&&◌, ◌+◌, ◌<◌, ℕ, IsSome, length, not, slice_get};
ghost use Rattle.rr_protocol.specs.Backpressure.{discards};
ghost use Rattle.rr_protocol.specs.Queries.{kind_at};
ghost use Rattle.rr_protocol.specs.Sends.{SendsResponse, is_response_refused};
ghost use Rattle.rr_protocol.specs.State.{IsResponseMutAnd};
ghost use Rattle.rr_store.specs.Opened.{opened};
ghost use Rattle.rr_store.specs.Reaching.{IsCore};
ghost use Rattle.rr_store.specs.Views.{state_of, sender_of};
ghost use Rattle.rr_table.specs.TableView.{IsAt};
ghost use Rattle.std.specs.List.{position};
ghost use Rattle.rr_store.specs.Delivering.{HasQueue, is_blocked_in};
ghost use Rattle.rr_store.specs.Order.{IsRising};
ghost use Rattle.rr_store.specs.Ports.{connected_of};
ghost use Rattle.rr_store.specs.declared.port.ServerPort.{ServerPort};
ghost use Rattle.rr_protocol.specs.declared.kind.Kind.TheVariants as kind;

use crate::full::{discards, is_response_blocked};
use rr_protocol::{BackpressureFn, SendError};
use rr_releasing::{leave_server_of_sender_if_unused, release_response_loan_at};
use rr_slots::Body;
use rr_store::{ResponseDetails, Store};
use rr_table::Place;

/// Sends the response in this place to its request, if that is still pending at a connected client, and releases the
/// handle. Otherwise the response is only released. The server leaves if nothing else of it lives.
///
/// # Errors
///
/// - `UnableToDeliver` if the queue to the client's channel is full, may not overflow, and is not skipped. The
///   response is released then too, and the queue is unchanged.
#[inline(always)]
pub fn send_response_at<
    QB: Body,
    QH: Default + Drop,
    PB: Body,
    PH: Default + Drop,
    K: BackpressureFn,
>(store: &mut Store<QB, QH, PB, PH, K>, number: u64, place: Place) -> Result<(), SendError>
    requires core { IsCore (opened store.old) }
    requires at { IsAt store.old.table number place }
    requires kind { kind_at (state_of (opened store.old)) number ≡ Some kind.ResponseMut }
    ensures core { IsCore (opened store.new) }
    ensures sends { SendsResponse K.action (state_of (opened store.old)) number result (state_of (opened store.new)) }
{
    let entry = store.table.at(number, place);
    let details = store.servers.details(entry.sender, entry.slot);
    let reach = store.clients.reached_receiver(&store.table, details);
    if is_response_refused(store, entry.sender, details, reach) {
        release_response_loan_at(store, number, place);
        return Err(SendError::UnableToDeliver);
    }
    let overflow = store.limits.enable_safe_overflow_for_responses;
    store
        .servers
        .hand_over(entry.sender, entry.slot, details.channel, reach, overflow);
    store.table.take_at(number, place);
    let receiver = store.servers.end_loan(entry.sender);
    store.end_loan_from(details, receiver);
    leave_server_of_sender_if_unused(store, entry.sender);
    Ok(())
}

/// Returns whether a send of the response in this place would be refused.
#[inline(always)]
pub fn is_response_refused_at<
    QB: Body,
    QH: Default + Drop,
    PB: Body,
    PH: Default + Drop,
    K: BackpressureFn,
>(store: &Store<QB, QH, PB, PH, K>, number: u64, place: Place) -> bool
    requires core { IsCore (opened store.now) }
    requires at { IsAt store.now.table number place }
    requires kind { kind_at (state_of (opened store.now)) number ≡ Some kind.ResponseMut }
    ensures { IsResponseMutAnd (state_of (opened store.now)) number
        (λ server message. result ≡ is_response_refused K.action (state_of (opened store.now)) server message) }
{
    let entry = store.table.at(number, place);
    let details = store.servers.details(entry.sender, entry.slot);
    let reach = store.clients.reached_receiver(&store.table, details);
    is_response_refused(store, entry.sender, details, reach)
}

/// Returns whether the queue that a response reaches is full, may not overflow, and is not skipped.
#[inline(always)]
pub fn is_response_refused<
    QB: Body,
    QH: Default + Drop,
    PB: Body,
    PH: Default + Drop,
    K: BackpressureFn,
>(
    store: &Store<QB, QH, PB, PH, K>,
    sender: usize,
    details: ResponseDetails,
    reach: Option<usize>,
) -> bool
    requires sender { sender < length store.now.servers.senders }
    requires rising { IsRising (λ s. s.port.id) store.now.servers.ports }
    requires present { IsSome (position (λ s. s.port.id == (sender_of sender store.now.servers.senders).owner)
        store.now.servers.ports) }
    requires queue { HasQueue (sender_of sender store.now.servers.senders).messages details.channel reach }
    ensures refused { (i : ℕ) (s : ServerPort K) → position
        (λ s. s.port.id == (sender_of sender store.now.servers.senders).owner) store.now.servers.ports ≡ Some i
        → slice_get store.now.servers.ports i ≡ Some s
        → result ≡ (is_blocked_in (sender_of sender store.now.servers.senders).messages
        store.now.limits.enable_safe_overflow_for_responses details.channel reach && not
        (discards K.action (connected_of s.port).port details.client)) }
{
    let messages = store.servers.messages(sender);
    let overflow = store.limits.enable_safe_overflow_for_responses;
    if !is_response_blocked(messages, reach, details.channel, overflow) {
        return false;
    }
    let server = store.servers.port(store.servers.index_of_sender(sender));
    !discards(&server.port, details.client)
}
