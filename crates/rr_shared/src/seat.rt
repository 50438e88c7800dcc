//! A caller's place at a hub.
use crate::call::Call;
use crate::naming::Naming;
use rr_log::Seen;
use std::marker::{Model, PhantomData};

/// A caller's right to submit commands to a hub. Contracts see its identity, and the history that it has seen: a
/// prefix of all calls of the hub, which has all of its own. It has no bytes. Not in iceoryx2.
#[derive(Drop)]
pub struct Seat<N: Naming, T: Copy, H: Copy, K> {
    pub(crate) seen: Seen<Call<T, H, K>>,
    pub(crate) of: PhantomData<N>,
}

impl<N: Naming, T: Copy, H: Copy, K> Model for Seat<N, T, H, K> {
    ghost use Rattle.std.specs.Prelude.{◌≡◌};
    ghost use Rattle.rr_protocol.specs.AnswerRule.{ReceivesOnce};
    ghost use Rattle.rr_shared.specs.Histories.{Seated, without_callers};

    ghost Value = { Seated T H K };

    ghost view = { λ s. (s.seen.caller, s.seen.entries) };

    ghost invariant = { λ s. (s.seen.log_id ≡ N.log_id) × ReceivesOnce (without_callers s.seen.entries) };
}
