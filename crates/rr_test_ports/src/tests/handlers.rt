//! Handlers of full queues, set through the factories of ports.
#![tactic(auto, using(rr_ports::proofs::Frames::callers), unfolding(rr_ports::specs::Facts::Keeps, rr_ports::specs::Facts::IsFree))]

ghost use Rattle.std.specs.Prelude.{◌<◌, ◌≤◌, ◌+◌, []};
ghost use Rattle.rr_protocol.specs.declared.kind.Kind.TheVariants as kind;
ghost use Rattle.rr_ports.specs.Facts.{Keeps, Names, numbers_left};

use super::fixtures::LIMITS;
use rr_ports::typed::{Client, Hub};
use rr_ports::{
    BackpressureAction, BackpressureFn, BackpressureInfo, BackpressureStrategy, RequestSendError,
    SendError, UniqueNodeId,
};
use std::alloc::Global;
use std::process::Abort;

/// Answers for one port, and leaves every other to the strategy.
#[derive(Clone, Copy)]
struct At {
    receiver: u64,
    action: BackpressureAction,
}

impl BackpressureFn for At {
    ghost use Rattle.std.specs.Prelude.{◌==◌, if◌then◌else◌};
    ghost use Rattle.rr_protocol.specs.declared.settings.BackpressureAction.TheVariants.{FollowBackpressureStrategy};

    ghost action = { λ handler _ receiver. if receiver == handler.receiver then handler.action else
        FollowBackpressureStrategy };

    fn act(&self, info: &BackpressureInfo) -> BackpressureAction {
        if info.receiver == self.receiver {
            self.action
        } else {
            BackpressureAction::FollowBackpressureStrategy
        }
    }
}

/// A service that answers numbers with numbers, and asks a handler at full queues.
type Service = Hub<u64, u64, u64, u64, At>;

/// Sends a number, and waits for nothing. Returns how many queues took it.
fn tell(hub: &mut Service, client: &Client<u64>, value: u64) -> Result<usize, RequestSendError>
    requires client { Names hub.old client.now kind.Client }
    requires number { 0 < numbers_left hub.old }
    ensures keeps { Keeps [] hub.old hub.new }
    ensures numbers { numbers_left hub.old ≤ numbers_left hub.new + 1 }
{
    let pending = client.send_copy(hub, value)?;
    let count = pending.number_of_server_connections(hub);
    pending.release(hub);
    Ok(count)
}

/// Sends three numbers to a server 1, whose queue has room for two. Returns how many queues took the third, or why it
/// was refused.
fn tell_three(
    rt: &impl Abort,
    alloc: Global,
    strategy: BackpressureStrategy,
    handler: At,
) -> Result<usize, RequestSendError> {
    let mut hub = Service::new(alloc, LIMITS, UniqueNodeId(7)).expect(rt, "a hub");
    let clients = hub
        .client_builder()
        .backpressure_strategy(strategy)
        .set_backpressure_handler(handler);
    let client = clients.create(&mut hub).expect(rt, "a client");
    let server = hub.server_builder().create(&mut hub).expect(rt, "a server");
    let _first = tell(&mut hub, &client, 1);
    let _second = tell(&mut hub, &client, 2);
    let third = tell(&mut hub, &client, 3);
    client.release(&mut hub);
    server.release(&mut hub);
    third
}

/// A handler decides before the strategy applies, and may defer to it: a third request finds the server's queue full.
#[test]
fn a_handler_is_asked_before_the_strategy(rt: HostRuntime) {
    let refused = Err(RequestSendError::SendError(SendError::UnableToDeliver));
    let waits = BackpressureStrategy::RetryUntilDelivered;
    let passes = BackpressureStrategy::DiscardData;
    let follows = BackpressureAction::FollowBackpressureStrategy;
    for (strategy, receiver, action, sent) in [
        (waits, 1, BackpressureAction::DiscardData, Ok(0)),
        (passes, 1, BackpressureAction::DiscardDataAndFail, refused),
        (passes, 1, BackpressureAction::Retry, refused),
        (waits, 1, follows, refused),
        (passes, 1, follows, Ok(0)),
        (waits, 2, BackpressureAction::DiscardData, refused),
    ] {
        let third = tell_three(&rt, rt.alloc(), strategy, At { receiver, action });
        assert_eq!(rt; third, sent);
    }
}
