//! Receives.
ghost use Rattle.std.specs.Prelude.{◌≡◌, Some};
ghost use Rattle.rr_protocol.specs.declared.kind.Kind.TheVariants as kind;
ghost use Rattle.rr_protocol.specs.Queries.{kind_at};
ghost use Rattle.rr_protocol.specs.declared.command.Command.{Command};
ghost use Rattle.rr_protocol.specs.Step.{Step};
ghost use Rattle.rr_checked.specs.Answers.{received, replied};

use crate::refusal::Refusal;
use rr_hub::{Core, HandleId};
use rr_protocol::{BackpressureFn, Kind};
use rr_slots::Body;

/// A received message.
#[derive(Drop)]
pub enum Received {
    /// An active request, and the number of its request.
    Request(HandleId, u64),
    /// A response.
    Response(HandleId),
}

/// Receives a request of a server, or a response of a pending response, if one is queued. After iceoryx2's `receive`
/// of both.
///
/// # Errors
///
/// - `Unknown` and `WrongKind`.
/// - `NumbersExhausted` if a server receives, and no number is left for the active request.
/// - `Receive` as the call of the port or of the handle.
pub fn receive<T: Copy + Default, B: Body<Item = T>, H: Copy + Default, K: BackpressureFn>(
    core: &mut Core<B, H, B, H, K>,
    id: &HandleId,
) -> Result<Option<Received>, Refusal>
    ensures { Step K.action T.is_default H.is_default B.family core.old (Command.Receive id.now)
        (replied received result) core.new }
{
    match core.kind(id) {
        Some(Kind::Server) => receive_request(core, id.number()),
        Some(Kind::PendingResponse) => match core.receive_response(id) {
            Ok(Some(response)) => Ok(Some(Received::Response(response))),
            Ok(None) => Ok(None),
            Err(error) => Err(Refusal::Receive(error)),
        },
        Some(_) => Err(Refusal::WrongKind),
        None => Err(Refusal::Unknown),
    }
}

/// Receives a request of a server.
fn receive_request<T: Copy + Default, B: Body<Item = T>, H: Copy + Default, K: BackpressureFn>(
    core: &mut Core<B, H, B, H, K>,
    server: u64,
) -> Result<Option<Received>, Refusal>
    requires { kind_at core.old server ≡ Some kind.Server }
    ensures { Step K.action T.is_default H.is_default B.family core.old (Command.Receive server)
        (replied received result) core.new }
{
    if core.numbers_left() == 0 {
        return Err(Refusal::NumbersExhausted);
    }
    match core.receive_request(server) {
        Ok(Some(id)) => {
            let request = core.request_number(&id);
            Ok(Some(Received::Request(id, request)))
        }
        Ok(None) => Ok(None),
        Err(error) => Err(Refusal::Receive(error)),
    }
}
