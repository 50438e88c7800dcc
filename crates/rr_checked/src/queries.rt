//! Queries of handles. None changes the core.
ghost use Rattle.std.specs.Prelude.{◌≡◌, IfOk, IsSomeAnd};
ghost use Rattle.rr_protocol.specs.State.{handle_at};
ghost use Rattle.rr_protocol.specs.declared.command.Command.{Command};
ghost use Rattle.rr_protocol.specs.declared.reply.Reply.{Reply};
ghost use Rattle.rr_protocol.specs.Refusals.{content_in};
ghost use Rattle.rr_protocol.specs.Step.{Step};
ghost use Rattle.rr_checked.specs.Answers.{replied, shown};

use crate::naming::{self, Named};
use crate::refusal::Refusal;
use rr_hub::{Core, HandleId};
use rr_protocol::{BackpressureFn, Kind, RequestHeader, ResponseHeader};
use rr_slots::Body;

/// The header of a request, or of a response.
#[derive(Clone, Copy, Debug, PartialEq, Eq)]
pub enum MessageHeader {
    /// A request's.
    Request(RequestHeader),
    /// A response's.
    Response(ResponseHeader),
}

/// Returns whether a pending response waits for a server, or an active request for its client. After iceoryx2's
/// `is_connected` of both.
///
/// # Errors
///
/// `Unknown` and `WrongKind`.
pub fn is_connected<T: Copy + Default, B: Body<Item = T>, H: Copy + Default, K: BackpressureFn>(
    core: &Core<B, H, B, H, K>,
    id: &HandleId,
) -> Result<bool, Refusal>
    ensures { Step K.action T.is_default H.is_default B.family core.now (Command.IsConnected id.now)
        (replied Reply.Flag result) core.now }
{
    match core.kind(id) {
        Some(Kind::PendingResponse) => Ok(core.is_pending_connected(id)),
        Some(Kind::ActiveRequest) => Ok(core.is_active_connected(id)),
        Some(_) => Err(Refusal::WrongKind),
        None => Err(Refusal::Unknown),
    }
}

/// Returns how many servers' queues took a request when it was sent. After iceoryx2's
/// `PendingResponse::number_of_server_connections`.
///
/// # Errors
///
/// `Unknown` and `WrongKind`.
pub fn servers<T: Copy + Default, B: Body<Item = T>, H: Copy + Default, K: BackpressureFn>(
    core: &Core<B, H, B, H, K>,
    id: &HandleId,
) -> Result<usize, Refusal>
    ensures { Step K.action T.is_default H.is_default B.family core.now (Command.Servers id.now)
        (replied Reply.Count result) core.now }
{
    match core.kind(id) {
        Some(Kind::PendingResponse) => Ok(core.number_of_server_connections(id)),
        Some(_) => Err(Refusal::WrongKind),
        None => Err(Refusal::Unknown),
    }
}

/// Returns whether the client of an active request set the disconnect hint. After iceoryx2's
/// `ActiveRequest::has_disconnect_hint`.
///
/// # Errors
///
/// `Unknown` and `WrongKind`.
pub fn has_hint<T: Copy + Default, B: Body<Item = T>, H: Copy + Default, K: BackpressureFn>(
    core: &Core<B, H, B, H, K>,
    id: &HandleId,
) -> Result<bool, Refusal>
    ensures { Step K.action T.is_default H.is_default B.family core.now (Command.HasHint id.now)
        (replied Reply.Flag result) core.now }
{
    match core.kind(id) {
        Some(Kind::ActiveRequest) => Ok(core.has_disconnect_hint(id)),
        Some(_) => Err(Refusal::WrongKind),
        None => Err(Refusal::Unknown),
    }
}

/// Returns the header of a message. After iceoryx2's `header` of each type of message.
///
/// # Errors
///
/// `Unknown` and `WrongKind`.
pub fn header<T: Copy + Default, B: Body<Item = T>, H: Copy + Default, K: BackpressureFn>(
    core: &Core<B, H, B, H, K>,
    id: &HandleId,
) -> Result<MessageHeader, Refusal>
    ensures { Step K.action T.is_default H.is_default B.family core.now (Command.Header id.now) (replied shown result)
        core.now }
{
    match naming::message(core, id) {
        Named::Request => Ok(MessageHeader::Request(core.request_header(id))),
        Named::Response => Ok(MessageHeader::Response(core.response_header(id))),
        Named::Other => Err(Refusal::WrongKind),
        Named::Nothing => Err(Refusal::Unknown),
    }
}

/// Lends the body of a message, as far as it was written. After iceoryx2's `payload` of each type of message.
///
/// # Errors
///
/// `Unknown` and `WrongKind`.
pub fn body<'a, T: Copy + Default, B: Body<Item = T>, H: Copy + Default, K: BackpressureFn>(
    core: &'a Core<B, H, B, H, K>,
    id: &HandleId,
) -> Result<&'a B, Refusal>
    ensures step { Step K.action T.is_default H.is_default B.family core.now (Command.Payload id.now)
        (replied (λ body. Reply.Payload (B.elements body.now)) result) core.now }
    ensures said { IfOk result (λ body. IsSomeAnd (handle_at core.now id.now)
        (λ handle. B.elements body.now ≡ (content_in handle).elements)) }
{
    match naming::message(core, id) {
        Named::Request => Ok(core.request_body(id)),
        Named::Response => Ok(core.response_body(id)),
        Named::Other => Err(Refusal::WrongKind),
        Named::Nothing => Err(Refusal::Unknown),
    }
}

/// Returns the user header of a message. After iceoryx2's `user_header` of each type of message, which returns a
/// reference.
///
/// # Errors
///
/// `Unknown` and `WrongKind`.
pub fn user_header<T: Copy + Default, B: Body<Item = T>, H: Copy + Default, K: BackpressureFn>(
    core: &Core<B, H, B, H, K>,
    id: &HandleId,
) -> Result<H, Refusal>
    ensures { Step K.action T.is_default H.is_default B.family core.now (Command.UserHeader id.now)
        (replied Reply.UserHeader result) core.now }
{
    match naming::message(core, id) {
        Named::Request => Ok(*core.request_user_header(id)),
        Named::Response => Ok(*core.response_user_header(id)),
        Named::Other => Err(Refusal::WrongKind),
        Named::Nothing => Err(Refusal::Unknown),
    }
}

/// Returns the port from which a received message came. After iceoryx2's `origin` of `ActiveRequest` and `Response`.
///
/// # Errors
///
/// `Unknown` and `WrongKind`.
pub fn origin<T: Copy + Default, B: Body<Item = T>, H: Copy + Default, K: BackpressureFn>(
    core: &Core<B, H, B, H, K>,
    id: &HandleId,
) -> Result<u64, Refusal>
    ensures { Step K.action T.is_default H.is_default B.family core.now (Command.Origin id.now)
        (replied Reply.Id result) core.now }
{
    match core.kind(id) {
        Some(Kind::ActiveRequest) => Ok(core.request_origin(id).0),
        Some(Kind::Response) => Ok(core.response_origin(id).0),
        Some(_) => Err(Refusal::WrongKind),
        None => Err(Refusal::Unknown),
    }
}
