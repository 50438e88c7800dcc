//! Loans.
ghost use Rattle.std.specs.Prelude.{◌≢◌};
ghost use Rattle.rr_protocol.specs.declared.command.Command.{Command};
ghost use Rattle.rr_protocol.specs.Step.{Step};
ghost use Rattle.rr_run.specs.Known.{Remembers, given};

use crate::places::Places;
use crate::runner::replies::refused;
use rr_hub::{Core, HandleId};
use rr_protocol::{BackpressureFn, Reply};
use rr_slots::WriteBody;

/// Loans a message of `len` elements: a request of a client, or a response of an active request.
pub(crate) fn loan<T: Copy + Default, B: WriteBody<Item = T>, H: Copy + Default, K: BackpressureFn>(
    core: &mut Core<B, H, B, H, K>,
    places: &mut Places,
    id: &HandleId,
    len: usize,
) -> Reply<T, H>
    ensures step { Step K.action T.is_default H.is_default B.family core.old (Command.Loan id.now len) result core.new }
    ensures memory { result ≢ Reply.NoMemory }
    ensures places { Remembers places.old (given {K = K} (Command.Loan id.now len) result) places.new }
{
    match rr_checked::loan(core, id, len) {
        Ok(loaned) => {
            places.remember(&loaned);
            Reply::Loaned(loaned.number())
        }
        Err(refusal) => refused(refusal),
    }
}
