//! The opening of a hub: its limits and its node id.
ghost use Rattle.std.specs.Prelude.{◌≡◌, ◌*◌, ◌^◌};
ghost use Rattle.rr_locked.specs.Receipts.{opening_number};

use rr_protocol::{Limits, UniqueNodeId};
use std::sync::ledger::{Ledger, Share};

/// The limits and the node id of a book, and a part of its ledger that counts them.
#[derive(Drop)]
pub struct Opening<L: Ledger> {
    pub(crate) limits: Limits,
    pub(crate) node_id: UniqueNodeId,
    pub(crate) share: Share<L>,
    ghost part: { share.parts ≡ 1 },
    ghost counted: { share.amount ≡ 2 ^ (84 * opening_number limits node_id.0) },
}
