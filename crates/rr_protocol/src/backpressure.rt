//! User-defined handlers for full queues.
use crate::settings::BackpressureAction;

/// The numbers of the sender and the receiver between which a queue is full, as a handler receives them.
#[derive(Clone, Copy, Debug, PartialEq, Eq, Hash)]
pub struct BackpressureInfo {
    pub sender: u64,
    pub receiver: u64,
}

/// A backpressure handler, which decides what a send does at a full queue that may not overflow.
///
/// The action depends only on the handler and the two ports. After iceoryx2's backpressure handler, which is a boxed
/// closure there.
pub trait BackpressureFn: Drop {
    ghost use Rattle.std.specs.Prelude.{ℕ, ◌≡◌};
    ghost use Rattle.rr_protocol.specs.declared.settings.BackpressureAction.{BackpressureAction};

    /// The action for a sender and a receiver.
    ghost action: { Self → ℕ → ℕ → BackpressureAction };

    /// Returns the action of the send at the queue between these two ports.
    fn act(&self, info: &BackpressureInfo) -> BackpressureAction
        ensures { result ≡ action self.now info.now.sender info.now.receiver };
}
