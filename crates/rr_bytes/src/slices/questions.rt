//! Queries of ports and handles.
ghost use Rattle.rr_slots.specs.declared.family.Family.TheVariants.{Sliced};
ghost use Rattle.rr_protocol.specs.declared.command.Command.{Command};
ghost use Rattle.rr_protocol.specs.declared.reply.Reply.{Reply};
ghost use Rattle.rr_protocol.specs.Step.{Step};
ghost use Rattle.rr_checked.specs.Answers.{replied, shown};
ghost use Rattle.rr_bytes.specs.SendRefusals.{TellsSendRefusal};

use crate::id::Id;
use crate::slices::Slices;
use rr_checked::{MessageHeader, Refusal};
use rr_hub::{BackpressureFn, BackpressureStrategy, Kind, SendError};

impl<T: Copy + Default, H: Copy + Default, K: BackpressureFn> Slices<T, H, K> {
    /// Returns whether a server, or a pending response, would receive a message. After iceoryx2's `has_requests` and
    /// `has_response`.
    ///
    /// # Errors
    ///
    /// `Unknown` and `WrongKind`.
    pub fn has_entries(&self, id: &Id) -> Result<bool, Refusal>
        ensures { Step K.action T.is_default H.is_default Sliced self.now (Command.HasEntries id.now.number)
            (replied Reply.Flag result) self.now }
    {
        rr_checked::has_entries(&self.core, &id.handle())
    }

    /// Returns whether no full queue would refuse a send. Not in iceoryx2.
    ///
    /// # Errors
    ///
    /// `Unknown` and `WrongKind`.
    pub fn is_deliverable(&self, id: &Id) -> Result<bool, Refusal>
        ensures { Step K.action T.is_default H.is_default Sliced self.now (Command.IsDeliverable id.now.number)
            (replied Reply.Flag result) self.now }
    {
        rr_checked::is_deliverable(&self.core, &id.handle())
    }

    /// Returns the error with which `send` would refuse a message now, or `None` if it would not. Not in iceoryx2.
    ///
    /// # Errors
    ///
    /// `Unknown` and `WrongKind`.
    pub fn send_refusal(&self, id: &Id) -> Result<Option<Refusal>, Refusal>
        ensures { TellsSendRefusal K.action self.now id.now.number result }
    {
        let handle = id.handle();
        match self.core.kind(&handle) {
            Some(Kind::RequestMut) => match self.core.request_send_refusal(&handle) {
                Some(error) => Ok(Some(Refusal::Request(error))),
                None => Ok(None),
            },
            Some(Kind::ResponseMut) => {
                let is_refused = self.core.is_response_refused(&handle);
                Ok(is_refused.then_some(Refusal::Send(SendError::UnableToDeliver)))
            }
            Some(_) => Err(Refusal::WrongKind),
            None => Err(Refusal::Unknown),
        }
    }

    /// Returns whether a pending response waits for a server, or an active request for its client. After iceoryx2's
    /// `is_connected` of both.
    ///
    /// # Errors
    ///
    /// `Unknown` and `WrongKind`.
    pub fn is_connected(&self, id: &Id) -> Result<bool, Refusal>
        ensures { Step K.action T.is_default H.is_default Sliced self.now (Command.IsConnected id.now.number)
            (replied Reply.Flag result) self.now }
    {
        rr_checked::is_connected(&self.core, &id.handle())
    }

    /// Returns whether the client of an active request set the disconnect hint. After iceoryx2's
    /// `has_disconnect_hint`.
    ///
    /// # Errors
    ///
    /// `Unknown` and `WrongKind`.
    pub fn has_hint(&self, id: &Id) -> Result<bool, Refusal>
        ensures { Step K.action T.is_default H.is_default Sliced self.now (Command.HasHint id.now.number)
            (replied Reply.Flag result) self.now }
    {
        rr_checked::has_hint(&self.core, &id.handle())
    }

    /// Returns how many servers' queues took a request when it was sent. After iceoryx2's
    /// `number_of_server_connections`.
    ///
    /// # Errors
    ///
    /// `Unknown` and `WrongKind`.
    pub fn servers(&self, id: &Id) -> Result<usize, Refusal>
        ensures { Step K.action T.is_default H.is_default Sliced self.now (Command.Servers id.now.number)
            (replied Reply.Count result) self.now }
    {
        rr_checked::servers(&self.core, &id.handle())
    }

    /// Returns the header of a message. After iceoryx2's `header` of each type of message.
    ///
    /// # Errors
    ///
    /// `Unknown` and `WrongKind`.
    pub fn header(&self, id: &Id) -> Result<MessageHeader, Refusal>
        ensures { Step K.action T.is_default H.is_default Sliced self.now (Command.Header id.now.number)
            (replied shown result) self.now }
    {
        rr_checked::header(&self.core, &id.handle())
    }

    /// Returns the user header of a message. After iceoryx2's `user_header` of each type of message, which returns a
    /// reference.
    ///
    /// # Errors
    ///
    /// `Unknown` and `WrongKind`.
    pub fn user_header(&self, id: &Id) -> Result<H, Refusal>
        ensures { Step K.action T.is_default H.is_default Sliced self.now (Command.UserHeader id.now.number)
            (replied Reply.UserHeader result) self.now }
    {
        rr_checked::user_header(&self.core, &id.handle())
    }

    /// Returns the port from which a received message came. After iceoryx2's `origin` of `ActiveRequest` and
    /// `Response`.
    ///
    /// # Errors
    ///
    /// `Unknown` and `WrongKind`.
    pub fn origin(&self, id: &Id) -> Result<u64, Refusal>
        ensures { Step K.action T.is_default H.is_default Sliced self.now (Command.Origin id.now.number)
            (replied Reply.Id result) self.now }
    {
        rr_checked::origin(&self.core, &id.handle())
    }

    /// Returns a port's backpressure strategy. After iceoryx2's `backpressure_strategy`.
    ///
    /// # Errors
    ///
    /// `Unknown` and `WrongKind`.
    pub fn strategy(&self, id: &Id) -> Result<BackpressureStrategy, Refusal>
        ensures { Step K.action T.is_default H.is_default Sliced self.now (Command.Strategy id.now.number)
            (replied Reply.Strategy result) self.now }
    {
        rr_checked::strategy(&self.core, &id.handle())
    }

    /// Returns how many elements each of a port's slots has room for from the start. After iceoryx2's
    /// `initial_max_slice_len`.
    ///
    /// # Errors
    ///
    /// `Unknown` and `WrongKind`.
    pub fn max_slice_len(&self, id: &Id) -> Result<usize, Refusal>
        ensures { Step K.action T.is_default H.is_default Sliced self.now (Command.MaxSliceLen id.now.number)
            (replied Reply.Count result) self.now }
    {
        rr_checked::max_slice_len(&self.core, &id.handle())
    }

    /// Lends the elements of a message that were written so far. After iceoryx2's `payload` of each type of message.
    ///
    /// # Errors
    ///
    /// `Unknown` and `WrongKind`.
    pub fn payload(&self, id: &Id) -> Result<&[T], Refusal>
        ensures { Step K.action T.is_default H.is_default Sliced self.now (Command.Payload id.now.number)
            (replied (λ payload. Reply.Payload payload.now) result) self.now }
    {
        let body = rr_checked::body(&self.core, &id.handle())?;
        Ok(body.as_slice())
    }
}
