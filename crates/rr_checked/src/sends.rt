//! Sends.
ghost use Rattle.rr_protocol.specs.declared.command.Command.{Command};
ghost use Rattle.rr_protocol.specs.Step.{Step};
ghost use Rattle.rr_checked.specs.Answers.{replied, sent};
ghost use Rattle.rr_checked.specs.Sends.{SendsEither};

use crate::refusal::Refusal;
use rr_hub::{Core, HandleId};
use rr_protocol::{BackpressureFn, Kind};
use rr_slots::Body;

/// A sent message.
#[derive(Clone, Copy, Debug, PartialEq, Eq)]
pub enum Sent {
    /// A request, now a pending response under its number, and the number of queues that took it.
    Request(usize),
    /// A response, whose handle was released.
    Response,
}

/// Sends a request or a response. After iceoryx2's `send` of `RequestMut` and `ResponseMut`.
///
/// # Errors
///
/// - `Unknown` and `WrongKind`.
/// - `Request` and `Send` as the call of the message, which is released then.
pub fn send<T: Copy + Default, B: Body<Item = T>, H: Copy + Default, K: BackpressureFn>(
    core: &mut Core<B, H, B, H, K>,
    id: &HandleId,
) -> Result<Sent, Refusal>
    ensures step { Step K.action T.is_default H.is_default B.family core.old (Command.Send id.now)
        (replied (sent id.now) result) core.new }
    ensures sends { SendsEither K.action core.old id.now result core.new }
{
    match core.kind(id) {
        Some(Kind::RequestMut) => match core.send_request(id) {
            Ok(connections) => Ok(Sent::Request(connections)),
            Err(error) => Err(Refusal::Request(error)),
        },
        Some(Kind::ResponseMut) => match core.send_response(id) {
            Ok(()) => Ok(Sent::Response),
            Err(error) => Err(Refusal::Send(error)),
        },
        Some(_) => Err(Refusal::WrongKind),
        None => Err(Refusal::Unknown),
    }
}
