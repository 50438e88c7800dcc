//! Releasing ports and handles.
ghost use Rattle.rr_protocol.specs.declared.command.Command.{Command};
ghost use Rattle.rr_protocol.specs.Step.{Step};
ghost use Rattle.rr_run.specs.Known.{ForgetsGone};

use crate::places::Places;
use crate::runner::replies::refused;
use rr_hub::{Core, HandleId};
use rr_protocol::{BackpressureFn, Reply};
use rr_slots::WriteBody;

/// Releases a port or a handle.
pub(crate) fn release<
    T: Copy + Default,
    B: WriteBody<Item = T>,
    H: Copy + Default,
    K: BackpressureFn,
>(core: &mut Core<B, H, B, H, K>, places: &mut Places, id: &HandleId) -> Reply<T, H>
    ensures step { Step K.action T.is_default H.is_default B.family core.old (Command.Release id.now) result core.new }
    ensures places { ForgetsGone places.old id.now core.new places.new }
{
    match rr_checked::release(core, id) {
        Ok(()) => {
            places.forget(id.number());
            Reply::Done
        }
        Err(refusal) => refused(refusal),
    }
}
