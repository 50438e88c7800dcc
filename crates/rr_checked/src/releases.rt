//! Releasing ports and handles.
ghost use Rattle.std.specs.Prelude.{◌≡◌, IfOk, OnErr};
ghost use Rattle.rr_protocol.specs.Releases.{after_release};
ghost use Rattle.rr_protocol.specs.declared.command.Command.{Command};
ghost use Rattle.rr_protocol.specs.declared.reply.Reply.{Reply};
ghost use Rattle.rr_protocol.specs.Step.{Step};
ghost use Rattle.rr_checked.specs.Answers.{replied};

use crate::refusal::Refusal;
use rr_hub::{Core, HandleId};
use rr_protocol::{BackpressureFn, Kind};
use rr_slots::Body;

/// Releases a port or a handle. After iceoryx2's drop of each.
///
/// # Errors
///
/// `Unknown`.
pub fn release<T: Copy + Default, B: Body<Item = T>, H: Copy + Default, K: BackpressureFn>(
    core: &mut Core<B, H, B, H, K>,
    id: &HandleId,
) -> Result<(), Refusal>
    ensures step { Step K.action T.is_default H.is_default B.family core.old (Command.Release id.now)
        (replied (λ done. Reply.Done) result) core.new }
    ensures released { IfOk result (λ done. core.new ≡ after_release core.old id.now) }
    ensures unknown { OnErr result (core.new ≡ core.old) }
{
    match core.kind(id) {
        Some(Kind::Client) => core.release_client(id.number()),
        Some(Kind::Server) => core.release_server(id.number()),
        Some(_) => core.release(id),
        None => return Err(Refusal::Unknown),
    }
    Ok(())
}
