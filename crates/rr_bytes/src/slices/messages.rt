//! Loans, sends and receives.
ghost use Rattle.rr_slots.specs.declared.family.Family.TheVariants.{Sliced};
ghost use Rattle.rr_protocol.specs.declared.command.Command.{Command};
ghost use Rattle.rr_protocol.specs.declared.reply.Reply.{Reply};
ghost use Rattle.rr_protocol.specs.Step.{Step};
ghost use Rattle.rr_checked.specs.Answers.{replied, sent};
ghost use Rattle.rr_bytes.specs.Receives.{IsNamed, Receives};

use crate::id::Id;
use crate::slices::Slices;
use rr_checked::{Received, Refusal, Sent};
use rr_hub::BackpressureFn;

impl<T: Copy + Default, H: Copy + Default, K: BackpressureFn> Slices<T, H, K> {
    /// Loans a message of `len` elements: a request of a client, or a response of an active request. After iceoryx2's
    /// `loan_slice_uninit` of both.
    ///
    /// # Errors
    ///
    /// - `Unknown` and `WrongKind`.
    /// - `NumbersExhausted` if no number is left for the loan.
    /// - `Loan` as the call of the port.
    pub fn loan(&mut self, id: &Id, len: usize) -> Result<Id, Refusal>
        ensures { Step K.action T.is_default H.is_default Sliced self.old (Command.Loan id.now.number len)
            (replied (λ id. Reply.Loaned id.number) result) self.new }
    {
        let loaned = rr_checked::loan(&mut self.core, &id.handle(), len)?;
        Ok(Id::of(&loaned))
    }

    /// Sends a request, which becomes a pending response under its number, or a response, whose handle is released.
    /// After iceoryx2's `send` of both.
    ///
    /// # Errors
    ///
    /// - `Unknown` and `WrongKind`.
    /// - `Request` and `Send` as the call of the message, which is released then.
    pub fn send(&mut self, id: &Id) -> Result<Sent, Refusal>
        ensures { Step K.action T.is_default H.is_default Sliced self.old (Command.Send id.now.number)
            (replied (sent id.now.number) result) self.new }
    {
        rr_checked::send(&mut self.core, &id.handle())
    }

    /// Receives a request of a server, or a response of a pending response, if one is queued. After iceoryx2's
    /// `receive` of both.
    ///
    /// # Errors
    ///
    /// - `Unknown` and `WrongKind`.
    /// - `NumbersExhausted` if a server receives, and no number is left for the active request.
    /// - `Receive` as the call of the port or of the handle.
    pub fn receive(&mut self, id: &Id) -> Result<Option<Id>, Refusal>
        ensures { Receives K.action T.is_default H.is_default self.old id.now.number result self.new }
    {
        named(rr_checked::receive(&mut self.core, &id.handle()))
    }
}

/// Returns the id of a received message.
fn named(received: Result<Option<Received>, Refusal>) -> Result<Option<Id>, Refusal>
    ensures { IsNamed received result }
{
    match received? {
        Some(Received::Request(active, _)) => Ok(Some(Id::of(&active))),
        Some(Received::Response(response)) => Ok(Some(Id::of(&response))),
        None => Ok(None),
    }
}
