//! Lists of commands.
ghost use Rattle.rr_laws.specs.Bound.{BoundsRequests, BoundsResponses};
ghost use Rattle.rr_laws.specs.Whole.{NeverRunsDry};
ghost use Rattle.rr_protocol.specs.Continuing.{GoesOn};
ghost use Rattle.rr_protocol.specs.Run.{RunsAppending};
ghost use Rattle.rr_run.specs.Headline.{HoldsOn};

use crate::Runner;
use crate::error::OutOfMemory;
use rr_protocol::{BackpressureFn, Command, Reply};
use rr_slots::WriteBody;

/// Carries out commands, one after another, and appends their replies. A refusal is a reply, and the next command
/// follows.
///
/// The replies and the final state are a run of the message machine. For every history that led from a new hub to the
/// old state, that history extended by these commands and replies keeps the answer rule: a response reaches only the
/// request that it answers, at most once, and in the order in which its server sent it. No port has more live
/// messages than the worst case. A loan is answered `OutOfMemory` only if the live messages of its port fill the
/// pool, or there was no memory for a longer slice; so a port with a pool of the worst-case size never answers it up
/// to the initial slice length. Not in iceoryx2, which has the calls alone.
///
/// # Errors
///
/// - `OutOfMemory` if there was no memory for the replies, which is reserved first. Nothing has changed then.
pub fn run<T: Copy + Default, B: WriteBody<Item = T>, H: Copy + Default, K: BackpressureFn + Copy>(
    runner: &mut Runner<T, B, H, K>,
    commands: &[Command<T, H, K>],
    replies: &mut Vec<Reply<T, H>>,
) -> Result<(), OutOfMemory>
    ensures runs { RunsAppending K.action T.is_default H.is_default B.family runner.old commands.now replies.old.items
        result runner.new replies.new.items }
    ensures answer_rule { GoesOn K.action T.is_default H.is_default B.family runner.old commands.now replies.old.items
        result runner.new replies.new.items }
    ensures bounds { HoldsOn K.action T.is_default H.is_default B.family
        (λ limits history s. BoundsRequests limits s × BoundsResponses limits s) runner.old commands.now
        replies.old.items result runner.new replies.new.items }
    ensures whole_pools { HoldsOn K.action T.is_default H.is_default B.family
        (λ limits history s. NeverRunsDry B.family limits history) runner.old commands.now replies.old.items result
        runner.new replies.new.items }
{
    replies.reserve(commands.len())?;
    for command in commands {
        replies.push_reserved(runner.apply(*command));
    }
    Ok(())
}
