//! A caller's place at a shared hub of ports.
use crate::{Naming, Ports};
use rr_log::Seen;
use std::marker::{Model, PhantomData};

/// A caller of a shared hub. Contracts see its identity and its history: the states of the hub after each call, each
/// with its caller, up to the seat's last call. It has no bytes. Not in iceoryx2.
#[derive(Drop)]
pub struct Seat<N: Naming, H: Ports> {
    pub(crate) seen: Seen<H>,
    pub(crate) of: PhantomData<N>,
}

impl<N: Naming, H: Ports> Model for Seat<N, H> {
    ghost use Rattle.std.specs.Prelude.{◌≡◌};
    ghost use base.Stored.{coded×, coded_ℕ, coded_list};
    ghost use Rattle.rr_shared_ports.specs.Leading.{IsHistory};
    ghost use Rattle.rr_shared_ports.specs.Turns.{Seated};

    ghost Value = { Seated H };

    ghost coded = { coded× coded_ℕ (coded_list (coded× coded_ℕ H.code)) };

    ghost view = { λ s. (s.seen.caller, s.seen.entries) };

    ghost invariant = { λ s. (s.seen.log_id ≡ N.log_id) × IsHistory H.steps (H.empty N.limits N.node_id)
        s.seen.entries };
}
