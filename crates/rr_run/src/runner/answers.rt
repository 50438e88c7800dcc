//! Questions of a runner, which change nothing.
ghost use Rattle.std.specs.Prelude.{◌≡◌, Some};
ghost use Rattle.rr_protocol.specs.declared.command.Command.{Command};
ghost use Rattle.rr_protocol.specs.Refusals.{number_in};
ghost use Rattle.rr_protocol.specs.Step.{Step};
ghost use Rattle.rr_run.specs.Memory.{MayLackOrNeverDoes};
ghost use Rattle.rr_run.specs.Questions.{IsQuestion};

use crate::runner::{payload, replies};
use rr_hub::{Core, HandleId};
use rr_protocol::{BackpressureFn, Command, Reply};
use rr_slots::WriteBody;
use std::alloc::Global;

/// Answers a question of a port or of a handle; with `NoMemory` if there was no memory for a copy of several
/// elements.
pub(crate) fn answer<
    T: Copy + Default,
    B: WriteBody<Item = T>,
    H: Copy + Default,
    K: BackpressureFn,
>(
    core: &Core<B, H, B, H, K>,
    alloc: Global,
    id: &HandleId,
    question: Command<T, H, K>,
) -> Reply<T, H>
    requires question { IsQuestion question }
    requires id { number_in question ≡ Some id.now }
    ensures step { Step K.action T.is_default H.is_default B.family core.now question result core.now }
    ensures memory { result ≡ Reply.NoMemory → MayLackOrNeverDoes B.family core.now question }
{
    match question {
        Command::IsDeliverable(_) => replies::flag(rr_checked::is_deliverable(core, id)),
        Command::HasEntries(_) => replies::flag(rr_checked::has_entries(core, id)),
        Command::IsConnected(_) => replies::flag(rr_checked::is_connected(core, id)),
        Command::HasHint(_) => replies::flag(rr_checked::has_hint(core, id)),
        Command::Servers(_) => replies::count(rr_checked::servers(core, id)),
        Command::Header(_) => replies::header(rr_checked::header(core, id)),
        Command::UserHeader(_) => replies::user_header(rr_checked::user_header(core, id)),
        Command::Payload(_) => payload::payload(core, alloc, id),
        Command::Origin(_) => replies::id(rr_checked::origin(core, id)),
        Command::Strategy(_) => replies::strategy(rr_checked::strategy(core, id)),
        Command::MaxSliceLen(_) => replies::count(rr_checked::max_slice_len(core, id)),
        Command::UpdateConnections(_) => { replies::done(rr_checked::update_connections(core, id)) }
        _ => unreachable!(),
    }
}
