//! One side of a store: its connected ports, their senders, and the ports that left.
ghost use Rattle.std.specs.Prelude.{◌≡◌};
ghost use Rattle.rr_store.specs.Sides.{start_side};

use crate::side::waiting::Waiting;
use crate::{LeftPort, OwnedSender};
use rr_slots::Body;
use std::alloc::Global;
use std::marker::Model;

mod counts;
mod leaving;
mod lending;
mod messages;
mod ports;
mod queues;
mod skimming;
mod slots;
mod waiting;

/// The clients of a service with all requests, or the servers with all responses. Contracts see it as parts, without
/// an invariant: each method reads or changes one thing. They don't see which senders are marked as waiting; that is
/// the side's own invariant (`KnowsWaiting`).
///
/// A message is in one slot only, of the sender of the port that sends it; entries of queues name it by that slot.
#[derive(Drop)]
pub struct Side<B: Body, N: Copy, H: Drop, P: Drop> {
    /// The senders of the ports. The sender of a port that left stays as long as others have its messages.
    pub senders: Vec<OwnedSender<B, N, H>>,
    /// The connected ports, in the order of their numbers.
    pub ports: Vec<P>,
    /// The ports that left, in the order in which they did.
    pub left: Vec<LeftPort>,
    /// From which senders something may wait for each receiver.
    pub(crate) waiting: Waiting,
    /// The header that a slot that doesn't exist would have. Only contracts use it: reading a slot has to be defined
    /// for each index.
    pub spare_header: H,
}

impl<B: Body, N: Copy, H: Drop, P: Drop> Model for Side<B, N, H, P> {
    ghost use Rattle.rr_store.specs.Sides.{SideParts};
    ghost use Rattle.rr_store.specs.SideInside.{side_of};
    ghost use Rattle.std.specs.Prelude.{map};
    ghost use Rattle.rr_store.specs.KnownWaiting.{KnowsWaiting};
    ghost use Rattle.rr_store.specs.Ports.{sender_part};

    ghost Value = { SideParts B.Item N H P };

    ghost view = { λ s. side_of s };

    ghost invariant = { λ s. KnowsWaiting s.waiting (map sender_part s.senders.items) };
}

impl<B: Body, N: Copy, H: Default + Drop, P: Drop> Side<B, N, H, P> {
    /// Makes a side without ports. It takes no memory.
    pub fn new(alloc: Global) -> Self
        ensures { result ≡ start_side result.spare_header }
    {
        Side {
            senders: Vec::new(alloc),
            ports: Vec::new(alloc),
            left: Vec::new(alloc),
            waiting: Waiting::new(alloc),
            spare_header: H::default(),
        }
    }
}
