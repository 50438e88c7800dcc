//! Full queues, and the decisions about them.
ghost use Rattle.std.specs.Prelude.{◌≡◌, false, Some, ◌<◌, not, [], length, slice_index_or};
ghost use Rattle.rr_protocol.specs.Backpressure.{discards};
ghost use Rattle.rr_store.specs.Ports.{connected_of};
ghost use Rattle.rr_store.specs.Sending.{is_blocked_at};
ghost use Rattle.rr_store.specs.Delivering.{HasQueue, is_blocked_in};

use rr_protocol::{BackpressureAction, BackpressureFn, BackpressureInfo, BackpressureStrategy};
use rr_sender::Sender;
use rr_slots::Body;
use rr_store::Port;

/// Returns whether the queue to a receiver's first channel is full and may not overflow.
#[inline(always)]
pub fn is_request_blocked<B: Body, N: Copy, H: Drop>(
    messages: &Sender<B, N, H>,
    receiver: usize,
    overflow: bool,
) -> bool
    requires { (receiver < length messages.now.queues)
        × (0 < length (slice_index_or messages.now.queues receiver [])) }
    ensures { result ≡ is_blocked_at overflow messages.now receiver }
{
    !overflow && messages.is_full(receiver, 0)
}

/// Returns whether the queue that a response reaches is full and may not overflow. Returns `false` if it reaches
/// none.
#[inline(always)]
pub fn is_response_blocked<B: Body, N: Copy, H: Drop>(
    messages: &Sender<B, N, H>,
    reach: Option<usize>,
    channel: usize,
    overflow: bool,
) -> bool
    requires { HasQueue messages.now channel reach }
    ensures { result ≡ is_blocked_in messages.now overflow channel reach }
{
    match reach {
        Some(receiver) => !overflow && messages.is_full(receiver, channel),
        None => false,
    }
}

/// Returns whether the port skips the full queue to a receiver: its handler decides, if it has one, and otherwise its
/// strategy.
pub fn discards<K: BackpressureFn>(port: &Port<K>, receiver: u64) -> bool
    ensures { result ≡ discards K.action (connected_of port.now).port receiver }
{
    let action = match &port.handler {
        Some(handler) => handler.act(&BackpressureInfo {
            sender: port.id,
            receiver,
        }),
        None => BackpressureAction::FollowBackpressureStrategy,
    };
    match action {
        BackpressureAction::DiscardData => true,
        BackpressureAction::FollowBackpressureStrategy => match port.strategy {
            BackpressureStrategy::DiscardData => true,
            BackpressureStrategy::RetryUntilDelivered => false,
        },
        BackpressureAction::Retry | BackpressureAction::DiscardDataAndFail => false,
    }
}
