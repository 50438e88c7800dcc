//! The value under the lock.
ghost use Rattle.std.specs.Prelude.{◌≡◌};
ghost use Rattle.rr_shared.specs.Histories.{history_of, IsLegal, MakesCall, MayCopy, without_callers};

use crate::call::Call;
use crate::naming::Naming;
use crate::seat::Seat;
use rr_log::{Log, Pen};
use rr_protocol::{BackpressureFn, Command, Reply};
use rr_run::Runner;
use rr_slots::WriteBody;
use std::marker::{Model, PhantomData};
use std::snapshot::Snapshot;

/// A runner, and the pen of the log that leads to its state. Contracts see the log.
#[derive(Drop)]
pub(crate) struct Desk<
    N: Naming,
    T: Copy + Default,
    B: WriteBody<Item = T>,
    H: Copy + Default,
    K: BackpressureFn,
> {
    pub(crate) runner: Runner<T, B, H, K>,
    pub(crate) pen: Pen<Call<T, H, K>>,
    pub(crate) of: PhantomData<N>,
}

impl<
    N: Naming,
    T: Copy + Default,
    B: WriteBody<Item = T>,
    H: Copy + Default,
    K: BackpressureFn,
> Model for Desk<N, T, B, H, K> {
    ghost use Rattle.std.specs.Prelude.{◌≡◌, ℕ, List, None};
    ghost use Rattle.rr_protocol.specs.AnswerRule.{Event};
    ghost use Rattle.rr_protocol.specs.Continuing.{LeadsTo};
    ghost use Rattle.rr_protocol.specs.Limits.{hub_refusal};
    ghost use Rattle.rr_shared.specs.Histories.{without_callers};

    ghost Value = { List (ℕ × Event T H K) };

    ghost view = { λ d. d.pen.entries };

    ghost invariant = { λ d. (d.pen.log_id ≡ N.log_id) × LeadsTo K.action T.is_default H.is_default B.family N.limits
        N.node_id (without_callers d.pen.entries) d.runner × (hub_refusal N.limits ≡ None) };
}

impl<
    N: Naming,
    T: Copy + Default,
    B: WriteBody<Item = T>,
    H: Copy + Default,
    K: BackpressureFn,
> Desk<N, T, B, H, K> {
    /// Does nothing. Its clause states the invariant: the log is legal.
    pub(crate) fn is_legal(&self)
        ensures { IsLegal K.action T.is_default H.is_default B.family N.limits N.node_id (without_callers self.now) }
    {
        let _ = &self.pen;
    }

    /// Carries out a command, and adds it with its reply to the log.
    pub(crate) fn apply(
        &mut self,
        log: &Log<Call<T, H, K>>,
        seat: &mut Seat<N, T, H, K>,
        command: Command<T, H, K>,
    ) -> Reply<T, H>
        requires { log.now ≡ N.log_id }
        ensures call { MakesCall command result seat.old seat.new }
        ensures legal { IsLegal K.action T.is_default H.is_default B.family N.limits N.node_id (history_of seat.new) }
        ensures memory { result ≡ Reply.NoMemory → MayCopy B.family command }
    {
        let asked = Snapshot::of(&command);
        let reply = self.runner.apply(command);
        log.append(&mut self.pen, &mut seat.seen, &Call::of(asked, &reply));
        reply
    }
}
