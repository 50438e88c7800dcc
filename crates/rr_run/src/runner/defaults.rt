//! Loans of messages of default elements.
ghost use Rattle.std.specs.Prelude.{◌≡◌, ◌≢◌, Some};
ghost use Rattle.rr_protocol.specs.declared.kind.Kind.TheVariants as kind;
ghost use Rattle.rr_protocol.specs.Queries.{kind_at};
ghost use Rattle.rr_protocol.specs.declared.command.Command.{Command};
ghost use Rattle.rr_protocol.specs.Step.{Step};
ghost use Rattle.rr_run.specs.Defaults.{IsBlank, FillsWithDefaults};
ghost use Rattle.rr_run.specs.Known.{Remembers, given};

use crate::places::Places;
use rr_checked::takes_len;
use rr_hub::{Core, HandleId};
use rr_protocol::{BackpressureFn, Kind, Reply};
use rr_slots::WriteBody;

/// Loans a message of `len` default elements that is ready to send: a request of a client, or a response of an active
/// request.
pub(crate) fn loan_default<
    T: Copy + Default,
    B: WriteBody<Item = T>,
    H: Copy + Default,
    K: BackpressureFn,
>(core: &mut Core<B, H, B, H, K>, places: &mut Places, id: &HandleId, len: usize) -> Reply<T, H>
    ensures step { Step K.action T.is_default H.is_default B.family core.old (Command.LoanDefault id.now len) result
        core.new }
    ensures memory { result ≢ Reply.NoMemory }
    ensures places { Remembers places.old (given {K = K} (Command.LoanDefault id.now len) result) places.new }
{
    match core.kind(id) {
        Some(Kind::Client) => loan_default_request(core, places, id.number(), len),
        Some(Kind::ActiveRequest) => loan_default_response(core, places, id, len),
        Some(_) => Reply::WrongKind,
        None => Reply::Unknown,
    }
}

/// Loans a request of default elements.
fn loan_default_request<
    T: Copy + Default,
    B: WriteBody<Item = T>,
    H: Copy + Default,
    K: BackpressureFn,
>(core: &mut Core<B, H, B, H, K>, places: &mut Places, client: u64, len: usize) -> Reply<T, H>
    requires { kind_at core.old client ≡ Some kind.Client }
    ensures step { Step K.action T.is_default H.is_default B.family core.old (Command.LoanDefault client len) result
        core.new }
    ensures memory { result ≢ Reply.NoMemory }
    ensures places { Remembers places.old (given {K = K} (Command.LoanDefault client len) result) places.new }
{
    if !takes_len(B::family(), len) {
        return Reply::WrongKind;
    }
    if core.numbers_left() == 0 {
        return Reply::NumbersExhausted;
    }
    match core.loan_request(client, len) {
        Ok(id) => {
            fill_request(core, &id, len);
            places.remember(&id);
            Reply::Loaned(id.number())
        }
        Err(error) => Reply::LoanError(error),
    }
}

/// Loans a response of default elements.
fn loan_default_response<
    T: Copy + Default,
    B: WriteBody<Item = T>,
    H: Copy + Default,
    K: BackpressureFn,
>(core: &mut Core<B, H, B, H, K>, places: &mut Places, active: &HandleId, len: usize) -> Reply<T, H>
    requires { kind_at core.old active.now ≡ Some kind.ActiveRequest }
    ensures step { Step K.action T.is_default H.is_default B.family core.old (Command.LoanDefault active.now len)
        result core.new }
    ensures memory { result ≢ Reply.NoMemory }
    ensures places { Remembers places.old (given {K = K} (Command.LoanDefault active.now len) result) places.new }
{
    if !takes_len(B::family(), len) {
        return Reply::WrongKind;
    }
    if core.numbers_left() == 0 {
        return Reply::NumbersExhausted;
    }
    match core.loan_response(active, len) {
        Ok(id) => {
            fill_response(core, &id, len);
            places.remember(&id);
            Reply::Loaned(id.number())
        }
        Err(error) => Reply::LoanError(error),
    }
}

/// Writes `len` default elements to a request that was loaned for them, and makes it ready to send.
fn fill_request<T: Copy + Default, B: WriteBody<Item = T>, H: Copy + Default, K: BackpressureFn>(
    core: &mut Core<B, H, B, H, K>,
    id: &HandleId,
    len: usize,
)
    requires kind { kind_at core.old id.now ≡ Some kind.RequestMutUninit }
    requires blank { IsBlank core.old id.now len }
    ensures { FillsWithDefaults T.is_default core.old id.now len core.new }
{
    for _ in 0..len {
        core.push_request(id, T::default());
    }
    core.assume_init(id);
}

/// Writes `len` default elements to a response that was loaned for them, and makes it ready to send.
fn fill_response<T: Copy + Default, B: WriteBody<Item = T>, H: Copy + Default, K: BackpressureFn>(
    core: &mut Core<B, H, B, H, K>,
    id: &HandleId,
    len: usize,
)
    requires kind { kind_at core.old id.now ≡ Some kind.ResponseMutUninit }
    requires blank { IsBlank core.old id.now len }
    ensures { FillsWithDefaults T.is_default core.old id.now len core.new }
{
    for _ in 0..len {
        core.push_response(id, T::default());
    }
    core.assume_init(id);
}
