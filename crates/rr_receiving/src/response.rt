//! Receiving responses.
ghost use Rattle.std.specs.Prelude.{◌≡◌, ◌<◌, None, Some, IfOk, IfSome, length};
ghost use Rattle.rr_protocol.specs.declared.kind.Kind.TheVariants as kind;
ghost use Rattle.rr_protocol.specs.Queries.{kind_at};
ghost use Rattle.rr_protocol.specs.Receives.{ReceivesResponse};
ghost use Rattle.rr_store.specs.Draining.{HaveQueues};
ghost use Rattle.rr_store.specs.Opened.{opened};
ghost use Rattle.rr_store.specs.Reaching.{IsCore};
ghost use Rattle.rr_store.specs.Receiving.{HaveChannels, IsNextSender};
ghost use Rattle.rr_store.specs.Views.{state_of};
ghost use Rattle.rr_table.specs.TableView.{IsAt};

use rr_protocol::{BackpressureFn, ReceiveError};
use rr_sender::Turns;
use rr_slots::Body;
use rr_store::{HandleEntry, HandleId, ResponseDetails, Side, Stage, Store};
use rr_table::Place;

/// Receives the oldest response of some server that the pending response in this place has not received yet. It keeps
/// its number.
///
/// Receives are round robin: the server after the one served last comes first. Returns `None` if no response is
/// queued. Takes O(marked senders), and no memory. After iceoryx2's `PendingResponse::receive`.
///
/// # Errors
///
/// - `ExceedsMaxBorrows` if responses are queued, but the client is at its borrow limit for each of their servers on
///   this channel.
#[inline(always)]
pub fn receive_response_at<
    QB: Body,
    QH: Default + Drop,
    PB: Body,
    PH: Default + Drop,
    K: BackpressureFn,
>(
    store: &mut Store<QB, QH, PB, PH, K>,
    number: u64,
    place: Place,
) -> Result<Option<HandleId>, ReceiveError>
    requires core { IsCore (opened store.old) }
    requires at { IsAt store.old.table number place }
    requires kind { kind_at (state_of (opened store.old)) number ≡ Some kind.PendingResponse }
    ensures core { IsCore (opened store.new) }
    ensures receives { ReceivesResponse (state_of (opened store.old)) number result (state_of (opened store.new)) }
    ensures unnamed { IfOk result (λ handle. IfSome handle (λ k. kind_at (state_of (opened store.old)) k ≡ None)) }
{
    let request = store.table.at(number, place);
    let receiver = store.clients.receiver_of(request.sender);
    let most = store.limits.max_borrowed_responses_per_pending_response;
    let servers = &store.servers;
    let turns = &mut store.response_turns;
    match next_response_sender(servers, turns, receiver, request.slot, most) {
        Ok(Some(sender)) => {
            let slot = store.servers.take(sender, receiver, request.slot);
            let details = store.servers.details(sender, slot);
            let own = store.servers.own_place(sender, slot);
            let entry = HandleEntry {
                stage: Stage::Response,
                sender,
                slot,
            };
            store.insert(details.number, own, entry);
            Ok(Some(HandleId::new(details.number, own)))
        }
        Ok(None) => Ok(None),
        Err(error) => Err(error),
    }
}

/// Polls the servers' senders for a client's next response on a channel, round robin. Skips those from which the client
/// holds `most`.
#[inline(always)]
fn next_response_sender<B: Body, H: Drop, P: Drop>(
    servers: &Side<B, ResponseDetails, H, P>,
    turns: &mut Turns,
    receiver: usize,
    channel: usize,
    most: usize,
) -> Result<Option<usize>, ReceiveError>
    requires receiver { HaveQueues servers.now.senders receiver }
    requires channel { HaveChannels servers.now.senders receiver channel }
    ensures { IsNextSender servers.now.senders receiver channel most result }
{
    if 1 < servers.sender_count() {
        return response_sender_in_turn(servers, turns, receiver, channel, most);
    }
    servers.only_sender(receiver, channel, most)
}

/// Returns the server's sender from which a client takes its next response on a channel, if there are several, and
/// advances the cursor past it. Returns at once if no sender is marked.
#[cold]
fn response_sender_in_turn<B: Body, H: Drop, P: Drop>(
    servers: &Side<B, ResponseDetails, H, P>,
    turns: &mut Turns,
    receiver: usize,
    channel: usize,
    most: usize,
) -> Result<Option<usize>, ReceiveError>
    requires several { 1 < length servers.now.senders }
    requires receiver { HaveQueues servers.now.senders receiver }
    requires channel { HaveChannels servers.now.senders receiver channel }
    ensures { IsNextSender servers.now.senders receiver channel most result }
{
    let turn = turns.at(receiver, channel);
    let Some(first) = servers.next_around(receiver, channel, turn) else {
        return Ok(None);
    };
    let found = response_sender_around(servers, receiver, channel, most, first);
    if let Ok(Some(sender)) = found {
        turns.set(receiver, channel, sender.saturating_add(1));
    }
    found
}

/// Returns the server's sender from which a client takes next: this one, or else the next one in round-robin order.
fn response_sender_around<B: Body, H: Drop, P: Drop>(
    servers: &Side<B, ResponseDetails, H, P>,
    receiver: usize,
    channel: usize,
    most: usize,
    first: usize,
) -> Result<Option<usize>, ReceiveError>
    requires sender { first < length servers.now.senders }
    requires receiver { HaveQueues servers.now.senders receiver }
    requires channel { HaveChannels servers.now.senders receiver channel }
    ensures { IsNextSender servers.now.senders receiver channel most result }
{
    if let Some(sender) = servers.ready_at(first, receiver, channel, most) {
        return Ok(Some(sender));
    }
    match servers.next_sender(receiver, channel, most, first) {
        Ok(Some(sender)) => Ok(Some(sender)),
        _ => servers.next_sender(receiver, channel, most, 0),
    }
}
