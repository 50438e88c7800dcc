//! The handler of a hub without handlers.
use crate::backpressure::{BackpressureFn, BackpressureInfo};
use crate::settings::BackpressureAction;

/// A handler that leaves each full queue to the port's strategy, for hubs whose ports have no handler. Not in
/// iceoryx2, whose handlers are boxed.
#[derive(Clone, Copy, Debug, PartialEq, Eq, Hash)]
pub struct NoHandler;

impl BackpressureFn for NoHandler {
    ghost use Rattle.rr_protocol.specs.declared.settings.BackpressureAction.TheVariants.{FollowBackpressureStrategy};

    ghost action = { λ _ _ _. FollowBackpressureStrategy };

    fn act(&self, _info: &BackpressureInfo) -> BackpressureAction {
        BackpressureAction::FollowBackpressureStrategy
    }
}
