//! Writing messages before they are sent.
ghost use Rattle.rr_protocol.specs.declared.command.Command.{Command};
ghost use Rattle.rr_protocol.specs.declared.reply.Reply.{Reply};
ghost use Rattle.rr_protocol.specs.Step.{Step};
ghost use Rattle.rr_checked.specs.Answers.{replied};

use crate::naming::{self, Named};
use crate::refusal::Refusal;
use rr_hub::{Core, HandleId};
use rr_protocol::{BackpressureFn, Kind};
use rr_slots::{Body, WriteBody};

/// Appends an element to a message that is being written. Returns whether it had room. Not in iceoryx2.
///
/// # Errors
///
/// `Unknown` and `WrongKind`.
pub fn push<T: Copy + Default, B: WriteBody<Item = T>, H: Copy + Default, K: BackpressureFn>(
    core: &mut Core<B, H, B, H, K>,
    id: &HandleId,
    item: T,
) -> Result<bool, Refusal>
    ensures { Step K.action T.is_default H.is_default B.family core.old (Command.Push id.now item)
        (replied Reply.Flag result) core.new }
{
    match core.kind(id) {
        Some(Kind::RequestMutUninit) => Ok(core.push_request(id, item)),
        Some(Kind::ResponseMutUninit) => Ok(core.push_response(id, item)),
        Some(_) => Err(Refusal::WrongKind),
        None => Err(Refusal::Unknown),
    }
}

/// Replaces an element of a message that was not sent. Returns whether there is one. After iceoryx2's `payload_mut`.
///
/// # Errors
///
/// `Unknown` and `WrongKind`.
pub fn set<T: Copy + Default, B: WriteBody<Item = T>, H: Copy + Default, K: BackpressureFn>(
    core: &mut Core<B, H, B, H, K>,
    id: &HandleId,
    index: usize,
    item: T,
) -> Result<bool, Refusal>
    ensures { Step K.action T.is_default H.is_default B.family core.old (Command.Set id.now index item)
        (replied Reply.Flag result) core.new }
{
    match naming::unsent(core, id) {
        Named::Request => Ok(core.write_request_element(id, index, item)),
        Named::Response => Ok(core.write_response_element(id, index, item)),
        Named::Other => Err(Refusal::WrongKind),
        Named::Nothing => Err(Refusal::Unknown),
    }
}

/// Replaces the user header of a message that was not sent. After iceoryx2's `user_header_mut`.
///
/// # Errors
///
/// `Unknown` and `WrongKind`.
pub fn set_user_header<T: Copy + Default, B: Body<Item = T>, H: Copy + Default, K: BackpressureFn>(
    core: &mut Core<B, H, B, H, K>,
    id: &HandleId,
    header: H,
) -> Result<(), Refusal>
    ensures { Step K.action T.is_default H.is_default B.family core.old (Command.SetUserHeader id.now header)
        (replied (λ done. Reply.Done) result) core.new }
{
    match naming::unsent(core, id) {
        Named::Request => core.write_request_user_header(id, header),
        Named::Response => core.write_response_user_header(id, header),
        Named::Other => return Err(Refusal::WrongKind),
        Named::Nothing => return Err(Refusal::Unknown),
    }
    Ok(())
}

/// Makes a message with a complete payload ready to send. After iceoryx2's `assume_init`, whose condition is its
/// caller's.
///
/// # Errors
///
/// `Unknown`, `WrongKind`, and `Incomplete` if fewer elements were written than were loaned.
pub fn assume_init<T: Copy + Default, B: WriteBody<Item = T>, H: Copy + Default, K: BackpressureFn>(
    core: &mut Core<B, H, B, H, K>,
    id: &HandleId,
) -> Result<(), Refusal>
    ensures { Step K.action T.is_default H.is_default B.family core.old (Command.AssumeInit id.now)
        (replied (λ done. Reply.Done) result) core.new }
{
    let is_complete = match core.kind(id) {
        Some(Kind::RequestMutUninit) => core.request_body(id).is_complete(),
        Some(Kind::ResponseMutUninit) => core.response_body(id).is_complete(),
        Some(_) => return Err(Refusal::WrongKind),
        None => return Err(Refusal::Unknown),
    };
    if !is_complete {
        return Err(Refusal::Incomplete);
    }
    core.assume_init(id);
    Ok(())
}

/// Sets the disconnect hint of a pending response. After iceoryx2's `PendingResponse::set_disconnect_hint`.
///
/// # Errors
///
/// `Unknown` and `WrongKind`.
pub fn set_hint<T: Copy + Default, B: Body<Item = T>, H: Copy + Default, K: BackpressureFn>(
    core: &mut Core<B, H, B, H, K>,
    id: &HandleId,
) -> Result<(), Refusal>
    ensures { Step K.action T.is_default H.is_default B.family core.old (Command.SetHint id.now)
        (replied (λ done. Reply.Done) result) core.new }
{
    match core.kind(id) {
        Some(Kind::PendingResponse) => {
            core.set_disconnect_hint(id);
            Ok(())
        }
        Some(_) => Err(Refusal::WrongKind),
        None => Err(Refusal::Unknown),
    }
}
