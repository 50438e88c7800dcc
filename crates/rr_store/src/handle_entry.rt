//! The entries of handles in the table.
ghost use Rattle.std.specs.Prelude.{◌≡◌};
ghost use Rattle.rr_store.specs.Answering.{active_in};
ghost use Rattle.rr_store.specs.Sound.{is_pending};

/// The stage of a handle: what its message can be used for.
#[derive(Clone, Copy, Debug)]
pub enum Stage {
    /// A request that is being written.
    RequestMutUninit,
    /// A request that can be sent.
    RequestMut,
    /// A request that was sent: whether its hint is set, and how many queues took it.
    PendingResponse(bool, usize),
    /// A request that this server received, and how many responses are on loan from it.
    ActiveRequest(u64, usize),
    /// A response that is being written.
    ResponseMutUninit,
    /// A response that can be sent.
    ResponseMut,
    /// A response that was received.
    Response,
}

impl Stage {
    /// Returns the server of an active request, and how many responses are on loan from it. `None` in other stages.
    #[inline(always)]
    pub fn active(self) -> Option<(u64, usize)>
        ensures { result ≡ active_in self }
    {
        match self {
            Stage::ActiveRequest(server, loans) => Some((server, loans)),
            _ => None,
        }
    }

    /// Returns whether the handle is a pending response.
    #[inline(always)]
    pub fn is_pending(self) -> bool
        ensures { result ≡ is_pending self }
    {
        match self {
            Stage::PendingResponse(_, _) => true,
            _ => false,
        }
    }
}

/// A handle's stage, and the sender and slot of its message.
#[derive(Clone, Copy, Debug)]
pub struct HandleEntry {
    /// The stage of the handle.
    pub stage: Stage,
    /// The sender of the port that sends the message.
    pub sender: usize,
    /// The message's slot in that sender.
    pub slot: usize,
}
