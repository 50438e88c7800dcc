//! Messages that are loaned, written and sent by one call.
ghost use Rattle.std.specs.Prelude.{◌≡◌, ◌<◌, IfOk, Some};
ghost use Rattle.rr_protocol.specs.declared.kind.Kind.TheVariants as kind;
ghost use Rattle.rr_protocol.specs.Queries.{kind_at};
ghost use Rattle.rr_protocol.specs.State.{numbers_left};
ghost use Rattle.rr_bytes.specs.Copies.{CopiesRequest, CopiesResponse, SendsCopyOf};

use crate::id::Id;
use crate::slices::Slices;
use rr_checked::Refusal;
use rr_hub::{BackpressureFn, Core, HandleId, Kind, LoanError};
use rr_slots::PlainBody;

/// The message that one call loaned, wrote and sent. Not in iceoryx2.
#[derive(Clone, Copy, Debug, PartialEq, Eq)]
pub enum SentCopy {
    /// A request, now a pending response with this id, and the number of queues that took it.
    Request(Id, usize),
    /// A response, whose handle, with this id, was released.
    Response(Id),
}

impl<T: Copy + Default, H: Copy + Default, K: BackpressureFn> Slices<T, H, K> {
    /// Loans a message of this length, copies the elements into it and sends it: a request of a client, or a response
    /// of an active request. After iceoryx2's `send_copy` of both, which take one value.
    ///
    /// # Errors
    ///
    /// - `Unknown` and `WrongKind`.
    /// - `NumbersExhausted` and `Loan` as `loan`.
    /// - `Request` and `Send` as `send`; the message is released then.
    pub fn send_copy(&mut self, id: &Id, elements: &[T]) -> Result<SentCopy, Refusal>
        ensures { SendsCopyOf K.action H.is_default self.old id.now.number elements.now result self.new }
    {
        let handle = id.handle();
        match self.core.kind(&handle) {
            Some(Kind::Client) => send_request_copy(&mut self.core, handle.number(), elements),
            Some(Kind::ActiveRequest) => send_response_copy(&mut self.core, &handle, elements),
            Some(_) => Err(Refusal::WrongKind),
            None => Err(Refusal::Unknown),
        }
    }
}

/// Sends a request with these elements.
fn send_request_copy<T: Copy + Default, H: Copy + Default, K: BackpressureFn>(
    core: &mut Core<PlainBody<T>, H, PlainBody<T>, H, K>,
    client: u64,
    elements: &[T],
) -> Result<SentCopy, Refusal>
    requires { kind_at core.old client ≡ Some kind.Client }
    ensures { SendsCopyOf K.action H.is_default core.old client elements.now result core.new }
{
    if core.numbers_left() == 0 {
        return Err(Refusal::NumbersExhausted);
    }
    match copied_request(core, client, elements) {
        Ok(request) => match core.send_request(&request) {
            Ok(servers) => Ok(SentCopy::Request(Id::of(&request), servers)),
            Err(error) => Err(Refusal::Request(error)),
        },
        Err(error) => Err(Refusal::Loan(error)),
    }
}

/// Sends a response with these elements.
fn send_response_copy<T: Copy + Default, H: Copy + Default, K: BackpressureFn>(
    core: &mut Core<PlainBody<T>, H, PlainBody<T>, H, K>,
    active: &HandleId,
    elements: &[T],
) -> Result<SentCopy, Refusal>
    requires { kind_at core.old active.now ≡ Some kind.ActiveRequest }
    ensures { SendsCopyOf K.action H.is_default core.old active.now elements.now result core.new }
{
    if core.numbers_left() == 0 {
        return Err(Refusal::NumbersExhausted);
    }
    match copied_response(core, active, elements) {
        Ok(response) => match core.send_response(&response) {
            Ok(()) => Ok(SentCopy::Response(Id::of(&response))),
            Err(error) => Err(Refusal::Send(error)),
        },
        Err(error) => Err(Refusal::Loan(error)),
    }
}

/// Loans a request with these elements, ready to send.
fn copied_request<T: Copy + Default, H: Copy + Default, K: BackpressureFn>(
    core: &mut Core<PlainBody<T>, H, PlainBody<T>, H, K>,
    client: u64,
    elements: &[T],
) -> Result<HandleId, LoanError>
    requires kind { kind_at core.old client ≡ Some kind.Client }
    requires number { 0 < numbers_left core.old }
    ensures copies { CopiesRequest H.is_default core.old client elements.now result core.new }
    ensures kind { IfOk result (λ request. kind_at core.new request ≡ Some kind.RequestMut) }
{
    let request = core.loan_request(client, elements.len())?;
    core.copy_request(&request, elements);
    Ok(request)
}

/// Loans a response with these elements, ready to send.
fn copied_response<T: Copy + Default, H: Copy + Default, K: BackpressureFn>(
    core: &mut Core<PlainBody<T>, H, PlainBody<T>, H, K>,
    active: &HandleId,
    elements: &[T],
) -> Result<HandleId, LoanError>
    requires kind { kind_at core.old active.now ≡ Some kind.ActiveRequest }
    requires number { 0 < numbers_left core.old }
    ensures copies { CopiesResponse H.is_default core.old active.now elements.now result core.new }
    ensures kind { IfOk result (λ response. kind_at core.new response ≡ Some kind.ResponseMut) }
{
    let response = core.loan_response(active, elements.len())?;
    core.copy_response(&response, elements);
    Ok(response)
}
