//! Sends.
ghost use Rattle.std.specs.Prelude.{◌≡◌, ◌≢◌, ◌<◌, None, Some};
ghost use Rattle.rr_protocol.specs.declared.kind.Kind.TheVariants as kind;
ghost use Rattle.rr_protocol.specs.Queries.{kind_at};
ghost use Rattle.rr_protocol.specs.State.{numbers_left};
ghost use Rattle.rr_protocol.specs.declared.command.Command.{Command};
ghost use Rattle.rr_protocol.specs.Step.{Step};
ghost use Rattle.rr_run.specs.Known.{ForgetsGone, Remembers, given};
ghost use Rattle.rr_run.specs.Written.{WritesRequest, WritesResponse};

use crate::places::Places;
use crate::runner::replies::refused;
use rr_checked::{Refusal, Sent};
use rr_hub::{Core, HandleId};
use rr_protocol::{BackpressureFn, Kind, LoanError, Reply, RequestSendError, SendError};
use rr_slots::WriteBody;

/// Sends a request or a response.
pub(crate) fn send<T: Copy + Default, B: WriteBody<Item = T>, H: Copy + Default, K: BackpressureFn>(
    core: &mut Core<B, H, B, H, K>,
    places: &mut Places,
    id: &HandleId,
) -> Reply<T, H>
    ensures step { Step K.action T.is_default H.is_default B.family core.old (Command.Send id.now) result core.new }
    ensures places { ForgetsGone places.old id.now core.new places.new }
{
    match rr_checked::send(core, id) {
        Ok(Sent::Request(connections)) => Reply::Pending(id.number(), connections),
        Ok(Sent::Response) => {
            places.forget(id.number());
            Reply::Sent(id.number())
        }
        Err(Refusal::Request(error)) => {
            places.forget(id.number());
            Reply::RequestError(error)
        }
        Err(Refusal::Send(error)) => {
            places.forget(id.number());
            Reply::SendError(error)
        }
        Err(refusal) => refused(refusal),
    }
}

/// Loans a message of one element, writes the element and sends the message: a request of a client, or a response of
/// an active request.
pub(crate) fn send_copy<
    T: Copy + Default,
    B: WriteBody<Item = T>,
    H: Copy + Default,
    K: BackpressureFn,
>(core: &mut Core<B, H, B, H, K>, places: &mut Places, id: &HandleId, item: T) -> Reply<T, H>
    ensures step { Step K.action T.is_default H.is_default B.family core.old (Command.SendCopy id.now item) result
        core.new }
    ensures memory { result ≢ Reply.NoMemory }
    ensures places { Remembers places.old (given {K = K} (Command.SendCopy id.now item) result) places.new }
{
    match core.kind(id) {
        Some(Kind::Client) => send_request_copy(core, places, id.number(), item),
        Some(Kind::ActiveRequest) => send_response_copy(core, id, item),
        Some(_) => Reply::WrongKind,
        None => Reply::Unknown,
    }
}

/// Sends a request of one element.
fn send_request_copy<
    T: Copy + Default,
    B: WriteBody<Item = T>,
    H: Copy + Default,
    K: BackpressureFn,
>(core: &mut Core<B, H, B, H, K>, places: &mut Places, client: u64, item: T) -> Reply<T, H>
    requires { kind_at core.old client ≡ Some kind.Client }
    ensures step { Step K.action T.is_default H.is_default B.family core.old (Command.SendCopy client item) result
        core.new }
    ensures memory { result ≢ Reply.NoMemory }
    ensures places { Remembers places.old (given {K = K} (Command.SendCopy client item) result) places.new }
{
    if core.numbers_left() == 0 {
        return Reply::NumbersExhausted;
    }
    let id = match written_request(core, client, item) {
        Ok(id) => id,
        Err(error) => {
            return Reply::RequestError(RequestSendError::SendError(SendError::LoanError(error)));
        }
    };
    match core.send_request(&id) {
        Ok(connections) => {
            places.remember(&id);
            Reply::Pending(id.number(), connections)
        }
        Err(error) => Reply::RequestError(error),
    }
}

/// Sends a response of one element.
fn send_response_copy<
    T: Copy + Default,
    B: WriteBody<Item = T>,
    H: Copy + Default,
    K: BackpressureFn,
>(core: &mut Core<B, H, B, H, K>, active: &HandleId, item: T) -> Reply<T, H>
    requires { kind_at core.old active.now ≡ Some kind.ActiveRequest }
    ensures step { Step K.action T.is_default H.is_default B.family core.old (Command.SendCopy active.now item) result
        core.new }
    ensures memory { result ≢ Reply.NoMemory }
    ensures given { given {K = K} (Command.SendCopy active.now item) result ≡ None }
{
    if core.numbers_left() == 0 {
        return Reply::NumbersExhausted;
    }
    let id = match written_response(core, active, item) {
        Ok(id) => id,
        Err(error) => return Reply::SendError(SendError::LoanError(error)),
    };
    match core.send_response(&id) {
        Ok(()) => Reply::Sent(id.number()),
        Err(error) => Reply::SendError(error),
    }
}

/// Loans a request of one element from a client, and writes it.
fn written_request<T: Copy + Default, B: WriteBody<Item = T>, H: Copy + Default, K: BackpressureFn>(
    core: &mut Core<B, H, B, H, K>,
    client: u64,
    item: T,
) -> Result<HandleId, LoanError>
    requires kind { kind_at core.old client ≡ Some kind.Client }
    requires number { 0 < numbers_left core.old }
    ensures { WritesRequest H.is_default core.old client item result core.new }
{
    let id = core.loan_request(client, 1)?;
    core.push_request(&id, item);
    core.assume_init(&id);
    Ok(id)
}

/// Loans a response of one element from an active request, and writes it.
fn written_response<
    T: Copy + Default,
    B: WriteBody<Item = T>,
    H: Copy + Default,
    K: BackpressureFn,
>(core: &mut Core<B, H, B, H, K>, active: &HandleId, item: T) -> Result<HandleId, LoanError>
    requires kind { kind_at core.old active.now ≡ Some kind.ActiveRequest }
    requires number { 0 < numbers_left core.old }
    ensures { WritesResponse H.is_default core.old active.now item result core.new }
{
    let id = core.loan_response(active, 1)?;
    core.push_response(&id, item);
    core.assume_init(&id);
    Ok(id)
}
