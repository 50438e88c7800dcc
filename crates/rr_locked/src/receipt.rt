//! The receipt of a call.
use crate::hub_command::{HubCommand, HubReply};

/// A call: its place in the history, the command and the reply.
///
/// # Examples
///
/// Returns the place of a seat's last call in the history (`rr_test_runs::tests::hubs::examples`):
///
/// ```
/// use rr_locked::{Receipt, Seat};
/// use std::sync::ledger::Ledger;
///
/// fn last_place<L: Ledger>(seat: &Seat<L>) -> Option<u64> {
///     match seat.receipts().last() {
///         Some(Receipt { place, .. }) => Some(*place),
///         None => None,
///     }
/// }
/// ```
#[derive(Drop)]
pub struct Receipt {
    /// How many calls precede it in the history.
    pub place: u64,
    /// The command.
    pub command: HubCommand,
    /// The reply.
    pub reply: HubReply,
}
