//! Loans.
ghost use Rattle.std.specs.Prelude.{◌≡◌, Some};
ghost use Rattle.rr_slots.specs.Families.{takes_len};
ghost use Rattle.rr_protocol.specs.declared.kind.Kind.TheVariants as kind;
ghost use Rattle.rr_protocol.specs.Queries.{kind_at};
ghost use Rattle.rr_protocol.specs.declared.command.Command.{Command};
ghost use Rattle.rr_protocol.specs.declared.reply.Reply.{Reply};
ghost use Rattle.rr_protocol.specs.Step.{Step};
ghost use Rattle.rr_checked.specs.Answers.{replied};

use crate::refusal::Refusal;
use rr_hub::{Core, HandleId};
use rr_protocol::{BackpressureFn, Kind};
use rr_slots::{Body, Family, WriteBody};

/// Loans a message of `len` elements: a request of a client, or a response of an active request. After iceoryx2's
/// `loan_uninit` and `loan_slice_uninit` of `Client` and `ActiveRequest`.
///
/// # Errors
///
/// - `Unknown` and `WrongKind`, the latter also if the family has no messages of this length.
/// - `NumbersExhausted` if no number is left for the loan.
/// - `Loan` as the call of the port.
pub fn loan<T: Copy + Default, B: WriteBody<Item = T>, H: Copy + Default, K: BackpressureFn>(
    core: &mut Core<B, H, B, H, K>,
    id: &HandleId,
    len: usize,
) -> Result<HandleId, Refusal>
    ensures { Step K.action T.is_default H.is_default B.family core.old (Command.Loan id.now len)
        (replied Reply.Loaned result) core.new }
{
    match core.kind(id) {
        Some(Kind::Client) => loan_request(core, id.number(), len),
        Some(Kind::ActiveRequest) => loan_response(core, id, len),
        Some(_) => Err(Refusal::WrongKind),
        None => Err(Refusal::Unknown),
    }
}

/// Loans a request of a client.
fn loan_request<T: Copy + Default, B: WriteBody<Item = T>, H: Copy + Default, K: BackpressureFn>(
    core: &mut Core<B, H, B, H, K>,
    client: u64,
    len: usize,
) -> Result<HandleId, Refusal>
    requires { kind_at core.old client ≡ Some kind.Client }
    ensures { Step K.action T.is_default H.is_default B.family core.old (Command.Loan client len)
        (replied Reply.Loaned result) core.new }
{
    if !takes_len(B::family(), len) {
        return Err(Refusal::WrongKind);
    }
    if core.numbers_left() == 0 {
        return Err(Refusal::NumbersExhausted);
    }
    match core.loan_request(client, len) {
        Ok(id) => Ok(id),
        Err(error) => Err(Refusal::Loan(error)),
    }
}

/// Loans a response of an active request.
fn loan_response<T: Copy + Default, B: WriteBody<Item = T>, H: Copy + Default, K: BackpressureFn>(
    core: &mut Core<B, H, B, H, K>,
    active: &HandleId,
    len: usize,
) -> Result<HandleId, Refusal>
    requires { kind_at core.old active.now ≡ Some kind.ActiveRequest }
    ensures { Step K.action T.is_default H.is_default B.family core.old (Command.Loan active.now len)
        (replied Reply.Loaned result) core.new }
{
    if !takes_len(B::family(), len) {
        return Err(Refusal::WrongKind);
    }
    if core.numbers_left() == 0 {
        return Err(Refusal::NumbersExhausted);
    }
    match core.loan_response(active, len) {
        Ok(id) => Ok(id),
        Err(error) => Err(Refusal::Loan(error)),
    }
}

/// Returns whether a message of a family can have this many elements. Not in iceoryx2.
pub fn takes_len(family: Family, len: usize) -> bool
    ensures { result ≡ takes_len family len }
{
    match family {
        Family::Typed => len == 1,
        Family::Sliced => true,
    }
}
