//! The value under the lock.
ghost use Rattle.std.specs.Prelude.{◌≡◌, ℕ, List};
ghost use Rattle.rr_shared_ports.specs.Words.{IsHistory, EndsIn, IsNoted, state_after};

use crate::claims::HubKeeper;
use crate::{Naming, Ports, Seat};
use rr_log::{Log, Pen};
use std::marker::{Model, PhantomData};

/// A hub with the keeper of its claims, and the pen of the log of the states after each call. The log's steps lead to
/// the hub's state.
#[derive(Drop)]
pub(crate) struct Desk<N: Naming, H: Ports> {
    pub(crate) ports: H,
    pub(crate) keeper: HubKeeper<H>,
    pub(crate) pen: Pen<H>,
    pub(crate) of: PhantomData<N>,
}

impl<N: Naming, H: Ports> Model for Desk<N, H> {
    ghost use Rattle.std.specs.Prelude.{◌≡◌};
    ghost use Rattle.rr_shared_ports.specs.Leading.{IsHistory};
    ghost use Rattle.rr_shared_ports.specs.Turns.{state_after};

    ghost Value = { Unit {0} };

    ghost view = { λ d. tt };

    ghost invariant = { λ d. (d.keeper.id ≡ N.keeper_id) × (d.keeper.state ≡ d.ports) × (d.pen.log_id ≡ N.log_id)
        × (state_after (H.empty N.limits N.node_id) d.pen.entries ≡ d.ports)
        × IsHistory H.steps (H.empty N.limits N.node_id) d.pen.entries };
}

/// Appends the state after a seat's call, which is a step, to the log.
pub(crate) fn noted<N: Naming, H: Ports>(
    ports: &H,
    log: &Log<H>,
    pen: &mut Pen<H>,
    seat: &mut Seat<N, H>,
)
    requires log { log.now ≡ N.log_id }
    requires pen { pen.old.log_id ≡ N.log_id }
    requires history { IsHistory H.steps (H.empty N.limits N.node_id) pen.old.entries }
    requires steps { (handed : List ℕ) × H.steps handed (state_after (H.empty N.limits N.node_id) pen.old.entries)
        ports.now }
    ensures pen { pen.new.log_id ≡ N.log_id }
    ensures history { IsHistory H.steps (H.empty N.limits N.node_id) pen.new.entries }
    ensures ends { EndsIn ports.now pen.new.entries }
    ensures noted { IsNoted pen.old.entries ports.now seat.old seat.new }
{
    log.append(pen, &mut seat.seen, ports);
}
