//! Writing messages before they are sent.
ghost use Rattle.std.specs.Prelude.{◌≡◌, ◌⊎◌, IfOk, IsSomeAnd, Some};
ghost use Rattle.rr_slots.specs.declared.family.Family.TheVariants.{Sliced};
ghost use Rattle.rr_protocol.specs.declared.command.Command.{Command};
ghost use Rattle.rr_protocol.specs.declared.reply.Reply.{Reply};
ghost use Rattle.rr_protocol.specs.Step.{Step};
ghost use Rattle.rr_protocol.specs.declared.kind.Kind.TheVariants as kind;
ghost use Rattle.rr_protocol.specs.Queries.{kind_at};
ghost use Rattle.rr_protocol.specs.State.{handle_at};
ghost use Rattle.rr_checked.specs.Answers.{replied};
ghost use Rattle.rr_bytes.specs.Completing.{Completes, CompletesHandle};
ghost use Rattle.rr_bytes.specs.Writes.{Fills, FillsAll, WritesAll, write_code};

use crate::id::Id;
use crate::slices::Slices;
use rr_checked::Refusal;
use rr_hub::{BackpressureFn, Core, HandleId, Kind};
use rr_slots::{Body, PlainBody, WriteBody};
use thiserror::Error;

impl<T: Copy + Default, H: Copy + Default, K: BackpressureFn> Slices<T, H, K> {
    /// Appends an element to a message that is being written. Returns whether it had room. Not in iceoryx2.
    ///
    /// # Errors
    ///
    /// `Unknown` and `WrongKind`.
    pub fn push(&mut self, id: &Id, element: T) -> Result<bool, Refusal>
        ensures { Step K.action T.is_default H.is_default Sliced self.old (Command.Push id.now.number element)
            (replied Reply.Flag result) self.new }
    {
        rr_checked::push(&mut self.core, &id.handle(), element)
    }

    /// Replaces an element of a message that was not sent. Returns whether there is one. After iceoryx2's
    /// `payload_mut`.
    ///
    /// # Errors
    ///
    /// `Unknown` and `WrongKind`.
    pub fn set(&mut self, id: &Id, index: usize, element: T) -> Result<bool, Refusal>
        ensures { Step K.action T.is_default H.is_default Sliced self.old (Command.Set id.now.number index element)
            (replied Reply.Flag result) self.new }
    {
        rr_checked::set(&mut self.core, &id.handle(), index, element)
    }

    /// Replaces the user header of a message that was not sent. After iceoryx2's `user_header_mut`.
    ///
    /// # Errors
    ///
    /// `Unknown` and `WrongKind`.
    pub fn set_user_header(&mut self, id: &Id, header: H) -> Result<(), Refusal>
        ensures { Step K.action T.is_default H.is_default Sliced self.old (Command.SetUserHeader id.now.number header)
            (replied (λ done. Reply.Done) result) self.new }
    {
        rr_checked::set_user_header(&mut self.core, &id.handle(), header)
    }

    /// Makes a message with a complete payload ready to send. After iceoryx2's `assume_init`.
    ///
    /// # Errors
    ///
    /// `Unknown`, `WrongKind`, and `Incomplete` if fewer elements were written than were loaned.
    pub fn assume_init(&mut self, id: &Id) -> Result<(), Refusal>
        ensures { Step K.action T.is_default H.is_default Sliced self.old (Command.AssumeInit id.now.number)
            (replied (λ done. Reply.Done) result) self.new }
    {
        rr_checked::assume_init(&mut self.core, &id.handle())
    }

    /// Sets the disconnect hint of a pending response. After iceoryx2's `set_disconnect_hint`.
    ///
    /// # Errors
    ///
    /// `Unknown` and `WrongKind`.
    pub fn set_hint(&mut self, id: &Id) -> Result<(), Refusal>
        ensures { Step K.action T.is_default H.is_default Sliced self.old (Command.SetHint id.now.number)
            (replied (λ done. Reply.Done) result) self.new }
    {
        rr_checked::set_hint(&mut self.core, &id.handle())
    }
}

/// Why a write of all elements is refused. Nothing has changed then. Not in iceoryx2, which panics at another length.
#[derive(Clone, Copy, Debug, PartialEq, Eq, Hash, Error)]
pub enum WriteRefusal {
    /// The number names neither a port nor a handle.
    #[error("WriteRefusal::Unknown")]
    Unknown,
    /// The number names no message that is being written.
    #[error("WriteRefusal::WrongKind")]
    WrongKind,
    /// The message was loaned for another number of elements.
    #[error("WriteRefusal::WrongLength")]
    WrongLength,
}

impl WriteRefusal {
    /// Returns the refusal's code, which is not 0. A refusal that is also in `Refusal` has the same code.
    pub fn code(self) -> u32
        ensures { result ≡ write_code self }
    {
        match self {
            WriteRefusal::Unknown => 1,
            WriteRefusal::WrongKind => 2,
            WriteRefusal::WrongLength => 5,
        }
    }
}

impl<T: Copy + Default, H: Copy + Default, K: BackpressureFn> Slices<T, H, K> {
    /// Copies these elements into the payload, and makes the message ready to send. Old elements are dropped. After
    /// iceoryx2's `write_from_slice`.
    ///
    /// # Errors
    ///
    /// `Unknown`, `WrongKind`, and `WrongLength` if the loan is of another length.
    pub fn write(&mut self, id: &Id, elements: &[T]) -> Result<(), WriteRefusal>
        ensures { WritesAll self.old id.now.number elements.now result self.new }
    {
        let handle = id.handle();
        match self.core.kind(&handle) {
            Some(Kind::RequestMutUninit) => write_request(&mut self.core, &handle, elements),
            Some(Kind::ResponseMutUninit) => write_response(&mut self.core, &handle, elements),
            Some(_) => Err(WriteRefusal::WrongKind),
            None => Err(WriteRefusal::Unknown),
        }
    }
}

impl<T: Copy + Default, H: Copy + Default, K: BackpressureFn> Slices<T, H, K> {
    /// Fills the payload with copies of one element, and makes the message ready to send. Old elements are dropped.
    /// After iceoryx2's `write_from_fn` with a function that always returns this element; a loan that is filled with
    /// a default element is its `loan_slice`.
    ///
    /// # Errors
    ///
    /// `Unknown` and `WrongKind`.
    pub fn fill(&mut self, id: &Id, element: T) -> Result<(), Refusal>
        ensures { FillsAll self.old id.now.number element result self.new }
    {
        let handle = id.handle();
        match self.core.kind(&handle) {
            Some(Kind::RequestMutUninit) => fill_request(&mut self.core, &handle, element),
            Some(Kind::ResponseMutUninit) => fill_response(&mut self.core, &handle, element),
            Some(_) => return Err(Refusal::WrongKind),
            None => return Err(Refusal::Unknown),
        }
        Ok(())
    }
}

impl<T: Copy + Default, H: Copy + Default, K: BackpressureFn> Slices<T, H, K> {
    /// Makes a message that is being written ready to send. Its elements are those that its slot's memory holds, as
    /// many as were loaned; elements written before may be lost. A message that is ready to send stays as it is.
    /// After iceoryx2's `payload_mut`, through which a loaned message is written.
    ///
    /// # Errors
    ///
    /// `Unknown` and `WrongKind`.
    pub fn complete(&mut self, id: &Id) -> Result<(), Refusal>
        ensures completes { Completes self.old id.now.number result self.new }
        ensures kind { IfOk result (λ done. (kind_at self.new id.now.number ≡ Some kind.RequestMut)
            ⊎ (kind_at self.new id.now.number ≡ Some kind.ResponseMut)) }
    {
        let handle = id.handle();
        match self.core.kind(&handle) {
            Some(Kind::RequestMutUninit) => complete_request(&mut self.core, &handle),
            Some(Kind::ResponseMutUninit) => complete_response(&mut self.core, &handle),
            Some(Kind::RequestMut | Kind::ResponseMut) => {}
            Some(_) => return Err(Refusal::WrongKind),
            None => return Err(Refusal::Unknown),
        }
        Ok(())
    }
}

/// Makes a request on loan complete, and ready to send.
fn complete_request<T: Copy + Default, H: Copy + Default, K: BackpressureFn>(
    core: &mut Core<PlainBody<T>, H, PlainBody<T>, H, K>,
    id: &HandleId,
)
    requires { kind_at core.old id.now ≡ Some kind.RequestMutUninit }
    ensures completes { IsSomeAnd (handle_at core.old id.now)
        (λ handle. CompletesHandle core.old id.now handle core.new) }
    ensures kind { kind_at core.new id.now ≡ Some kind.RequestMut }
{
    core.complete_request(id);
}

/// Makes a response on loan complete, and ready to send.
fn complete_response<T: Copy + Default, H: Copy + Default, K: BackpressureFn>(
    core: &mut Core<PlainBody<T>, H, PlainBody<T>, H, K>,
    id: &HandleId,
)
    requires { kind_at core.old id.now ≡ Some kind.ResponseMutUninit }
    ensures completes { IsSomeAnd (handle_at core.old id.now)
        (λ handle. CompletesHandle core.old id.now handle core.new) }
    ensures kind { kind_at core.new id.now ≡ Some kind.ResponseMut }
{
    core.complete_response(id);
}

/// Fills a request that is being written.
fn fill_request<T: Copy + Default, H: Copy + Default, K: BackpressureFn>(
    core: &mut Core<PlainBody<T>, H, PlainBody<T>, H, K>,
    id: &HandleId,
    element: T,
)
    requires { kind_at core.old id.now ≡ Some kind.RequestMutUninit }
    ensures { Fills core.old id.now element core.new }
{
    core.fill_request(id, element);
}

/// Fills a response that is being written.
fn fill_response<T: Copy + Default, H: Copy + Default, K: BackpressureFn>(
    core: &mut Core<PlainBody<T>, H, PlainBody<T>, H, K>,
    id: &HandleId,
    element: T,
)
    requires { kind_at core.old id.now ≡ Some kind.ResponseMutUninit }
    ensures { Fills core.old id.now element core.new }
{
    core.fill_response(id, element);
}

/// Writes a request that is being written.
fn write_request<T: Copy + Default, H: Copy + Default, K: BackpressureFn>(
    core: &mut Core<PlainBody<T>, H, PlainBody<T>, H, K>,
    id: &HandleId,
    elements: &[T],
) -> Result<(), WriteRefusal>
    requires { kind_at core.old id.now ≡ Some kind.RequestMutUninit }
    ensures { WritesAll core.old id.now elements.now result core.new }
{
    if core.request_body(id).asked_len() != elements.len() {
        return Err(WriteRefusal::WrongLength);
    }
    core.copy_request(id, elements);
    Ok(())
}

/// Writes a response that is being written.
fn write_response<T: Copy + Default, H: Copy + Default, K: BackpressureFn>(
    core: &mut Core<PlainBody<T>, H, PlainBody<T>, H, K>,
    id: &HandleId,
    elements: &[T],
) -> Result<(), WriteRefusal>
    requires { kind_at core.old id.now ≡ Some kind.ResponseMutUninit }
    ensures { WritesAll core.old id.now elements.now result core.new }
{
    if core.response_body(id).asked_len() != elements.len() {
        return Err(WriteRefusal::WrongLength);
    }
    core.copy_response(id, elements);
    Ok(())
}
