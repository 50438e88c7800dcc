//! A hub whose sharing has ended.
ghost use Rattle.std.specs.Prelude.{◌≡◌};
ghost use Rattle.rr_protocol.specs.AnswerRule.{KeepsAnswerRule};
ghost use Rattle.rr_laws.specs.Whole.{NeverRunsDry};
ghost use Rattle.rr_log.specs.Entries.{Follows};
ghost use Rattle.rr_shared.specs.Histories.{IsLegal, without_callers};
ghost use Rattle.rr_shared.specs.Laws.{calls_of};

use crate::call::Call;
use crate::desk::Desk;
use crate::naming::Naming;
use crate::seat::Seat;
use crate::shared_hub::SharedHub;
use rr_log::Log;
use rr_protocol::BackpressureFn;
use rr_slots::WriteBody;
use std::marker::Model;

/// A hub whose sharing has ended. Contracts see its whole history: all calls, each with its caller. Not in iceoryx2.
#[derive(Drop)]
pub struct Finished<
    N: Naming,
    T: Copy + Default,
    B: WriteBody<Item = T>,
    H: Copy + Default,
    K: BackpressureFn,
> {
    desk: Desk<N, T, B, H, K>,
    log: Log<Call<T, H, K>>,
}

impl<
    N: Naming,
    T: Copy + Default,
    B: WriteBody<Item = T>,
    H: Copy + Default,
    K: BackpressureFn,
> Model for Finished<N, T, B, H, K> {
    ghost use Rattle.std.specs.Prelude.{◌≡◌, ℕ, List};
    ghost use Rattle.rr_protocol.specs.AnswerRule.{Event, ReceivesOnce};
    ghost use Rattle.rr_shared.specs.Histories.{without_callers};

    ghost Value = { List (ℕ × Event T H K) };

    ghost view = { λ f. f.desk };

    ghost invariant = { λ f. (f.log ≡ N.log_id) × ReceivesOnce (without_callers f.desk) };
}

impl<
    N: Naming,
    T: Copy + Default,
    B: WriteBody<Item = T>,
    H: Copy + Default,
    K: BackpressureFn,
> SharedHub<N, T, B, H, K> {
    /// Ends the sharing. Seats may live on, but make no further calls. Waits for nobody. Not in iceoryx2.
    pub fn finish(self) -> Finished<N, T, B, H, K>
        ensures legal { IsLegal K.action T.is_default H.is_default B.family N.limits N.node_id
            (without_callers result) }
        ensures answer_rule { KeepsAnswerRule N.limits (without_callers result) }
        ensures whole_pools { NeverRunsDry B.family N.limits (without_callers result) }
    {
        let SharedHub {
            limits: _,
            node_id: _,
            inside,
            log,
        } = self;
        let desk = inside.into_inner();
        desk.is_legal();
        Finished { desk, log }
    }
}

impl<
    N: Naming,
    T: Copy + Default,
    B: WriteBody<Item = T>,
    H: Copy + Default,
    K: BackpressureFn,
> Finished<N, T, B, H, K> {
    /// Shows a seat the whole history: its own history, followed by calls of others. So the history has all calls of
    /// the seat, in their order, and no other call under its number. Not in iceoryx2.
    pub fn look(&mut self, seat: &mut Seat<N, T, H, K>)
        ensures same { self.new ≡ self.old }
        ensures whole { seat.new ≡ (seat.old.0, self.old) }
        ensures follows { Follows seat.old.0 seat.old.1 self.old }
        ensures own { calls_of seat.new ≡ calls_of seat.old }
    {
        self.log.catch_up(&mut self.desk.pen, &mut seat.seen);
    }
}
