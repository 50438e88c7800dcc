//! The core of a hub, and its state as contracts see it.
use rr_protocol::BackpressureFn;
use rr_slots::Body;
use rr_store::Store;
use std::alloc::Global;
use std::marker::Model;

/// All ports, handles and messages of a service. Contracts see the state of the message machine.
///
/// A message is in one slot only, of the sender of the port that sends it. A handle is an entry of the table, under
/// its number; it names its message by sender and slot, as entries of queues do by slot.
#[derive(Drop)]
pub struct Core<QB: Body, QH: Default + Drop, PB: Body, PH: Default + Drop, K: BackpressureFn> {
    pub(crate) alloc: Global,
    pub(crate) parts: Store<QB, QH, PB, PH, K>,
}

impl<QB: Body, QH: Default + Drop, PB: Body, PH: Default + Drop, K: BackpressureFn> Model
    for Core<QB, QH, PB, PH, K> {
    ghost use Rattle.rr_protocol.specs.State.{State};
    ghost use Rattle.rr_protocol.specs.Codes.{state_code};
    ghost use Rattle.rr_store.specs.Opened.{opened};
    ghost use Rattle.rr_store.specs.Views.{state_of};
    ghost use Rattle.rr_store.specs.Reaching.{IsCore};

    ghost Value = { State QB.Item QH PB.Item PH K };

    ghost coded = { state_code QB.Item.code QH.code PB.Item.code PH.code K.code };

    ghost view = { λ c. state_of (opened c.parts) };

    ghost invariant = { λ c. IsCore (opened c.parts) };
}
