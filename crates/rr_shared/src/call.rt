//! A command with its reply, for proofs alone.
ghost use Rattle.std.specs.Prelude.{◌≡◌};

use rr_protocol::{Command, Reply};
use std::marker::Model;
use std::mem::ManuallyDrop;
use std::snapshot::Snapshot;

/// A command and its reply, as proofs see them. It has no bytes.
///
/// Dropping a snapshot requires that the captured value has a size, which no bound of `T` and `H` gives. So none is
/// dropped.
#[derive(Drop)]
pub struct Call<T: Copy, H: Copy, K> {
    command: ManuallyDrop<Snapshot<Command<T, H, K>>>,
    reply: ManuallyDrop<Snapshot<Reply<T, H>>>,
}

impl<T: Copy, H: Copy, K> Model for Call<T, H, K> {
    ghost use Rattle.rr_protocol.specs.AnswerRule.{Event};

    ghost Value = { Event T H K };

    ghost view = { λ c. (c.command.value.value, c.reply.value.value) };
}

impl<T: Copy, H: Copy, K> Call<T, H, K> {
    /// Returns the call of a command that was given away since, with its reply.
    pub(crate) fn of(command: Snapshot<Command<T, H, K>>, reply: &Reply<T, H>) -> Self
        ensures { result ≡ (command.value, reply.now) }
    {
        Call {
            command: ManuallyDrop::new(command),
            reply: ManuallyDrop::new(Snapshot::of(reply)),
        }
    }
}
