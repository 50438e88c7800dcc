//! One caller's place at a hub.
ghost use Rattle.std.specs.Prelude.{◌≡◌, ℕ, ◌+◌, ◌*◌, ◌≤◌, [], length};
ghost use Rattle.rr_locked.specs.Sums.{worth};
ghost use Rattle.rr_locked.specs.Receipts.{joined, receipt_numbers};
ghost use Rattle.rr_locked.specs.Seats.{Rises};

use crate::receipt::Receipt;
use std::alloc::Global;
use std::marker::Model;
use std::sync::ledger::{Ledger, Share};

/// One caller's right to submit commands to a hub, with the receipts of its calls. Contracts see the receipts. Not in
/// iceoryx2.
///
/// # Examples
///
/// Returns the place of a seat's last call in the history (`rr_test_runs::tests::hubs::examples`):
///
/// ```
/// use rr_locked::{Receipt, Seat};
/// use std::sync::ledger::Ledger;
///
/// fn last_place<L: Ledger>(seat: &Seat<L>) -> Option<u64> {
///     match seat.receipts().last() {
///         Some(Receipt { place, .. }) => Some(*place),
///         None => None,
///     }
/// }
/// ```
#[derive(Drop)]
pub struct Seat<L: Ledger> {
    pub(crate) receipts: Vec<Receipt>,
    pub(crate) next: u64,
    pub(crate) share: Share<L>,
}

impl<L: Ledger> Model for Seat<L> {
    ghost use Rattle.std.specs.Prelude.{List};
    ghost use Rattle.rr_locked.specs.declared.receipt.Receipt.{Receipt};

    ghost Value = { List Receipt };

    ghost use Rattle.rr_locked.specs.Seats.{IsSeat};

    ghost view = { λ s. s.receipts.items };

    ghost invariant = { λ s. IsSeat s.receipts.items s.next s.share.parts s.share.amount };
}

impl<L: Ledger> Seat<L> {
    /// Makes a seat without receipts.
    pub(crate) fn new(alloc: Global, share: Share<L>) -> Seat<L>
        requires { (share.parts ≡ 1) × (share.amount ≡ 0) }
        ensures { result ≡ [] }
    {
        Seat {
            receipts: Vec::new(alloc),
            next: 0,
            share,
        }
    }

    /// Returns the receipts of this caller's calls, in the order of the calls. Their places rise.
    pub fn receipts(&self) -> &[Receipt]
        ensures receipts { result.now ≡ self.now }
        ensures rises { Rises result.now }
    {
        self.receipts.as_slice()
    }
}

/// Joins the shares of all seats with this one.
pub(crate) fn gather<L: Ledger>(share: Share<L>, seats: Vec<Seat<L>>) -> Share<L>
    ensures parts { result.parts ≡ share.parts + length seats.items }
    ensures amount { result.amount ≡ share.amount + worth 84 (receipt_numbers (joined seats.items)) }
    ensures few { length (joined seats.items) ≤ length seats.items * 18446744073709551615 }
{
    let mut all = share;
    for seat in seats {
        let Seat {
            receipts: _,
            next: _,
            share: part,
        } = seat;
        all.merge(part);
    }
    all
}
