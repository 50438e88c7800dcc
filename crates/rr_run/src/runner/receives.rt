//! Receives.
ghost use Rattle.std.specs.Prelude.{◌≢◌};
ghost use Rattle.rr_protocol.specs.declared.command.Command.{Command};
ghost use Rattle.rr_protocol.specs.Step.{Step};
ghost use Rattle.rr_run.specs.Known.{Remembers, given};

use crate::places::Places;
use crate::runner::replies::refused;
use rr_checked::Received;
use rr_hub::{Core, HandleId};
use rr_protocol::{BackpressureFn, Reply};
use rr_slots::WriteBody;

/// Receives a request of a server, or a response of a pending response.
pub(crate) fn receive<
    T: Copy + Default,
    B: WriteBody<Item = T>,
    H: Copy + Default,
    K: BackpressureFn,
>(core: &mut Core<B, H, B, H, K>, places: &mut Places, id: &HandleId) -> Reply<T, H>
    ensures step { Step K.action T.is_default H.is_default B.family core.old (Command.Receive id.now) result core.new }
    ensures memory { result ≢ Reply.NoMemory }
    ensures places { Remembers places.old (given {K = K} (Command.Receive id.now) result) places.new }
{
    match rr_checked::receive(core, id) {
        Ok(Some(Received::Request(active, request))) => {
            places.remember(&active);
            Reply::Active(active.number(), request)
        }
        Ok(Some(Received::Response(response))) => {
            places.remember(&response);
            Reply::Response(response.number())
        }
        Ok(None) => Reply::Nothing,
        Err(refusal) => refused(refusal),
    }
}
