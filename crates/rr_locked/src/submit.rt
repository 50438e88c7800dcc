//! Receivers of commands from many threads.
ghost use Rattle.std.specs.Prelude.{◌≡◌, ◌≢◌, ℕ, [], ◌∷◌, ◌++◌};
ghost use Rattle.rr_locked.specs.Receipts.{receipt};

use crate::hub_command::{HubCommand, HubReply};
use crate::locked_hub::LockedHub;
use crate::seat::Seat;
use rr_protocol::Reply;
use std::sync::Wait;
use std::sync::ledger::Ledger;

/// A receiver of commands from many threads. Workers are generic over it, so each can be tested by itself. Not in
/// iceoryx2.
///
/// # Examples
///
/// Creates a client, and returns its number (`rr_test_runs::tests::hubs::examples`):
///
/// ```
/// use rr_protocol::Reply;
/// use rr_locked::{CREATE_CLIENT, Seat, Submit};
/// use std::sync::Wait;
/// use std::sync::ledger::Ledger;
///
/// fn client<L: Ledger, S: Submit<L>, R: Wait>(rt: &R, hub: &S, seat: &mut Seat<L>) -> Option<u64> {
///     match hub.submit(rt, seat, CREATE_CLIENT) {
///         Reply::Created(number) => Some(number),
///         _ => None,
///     }
/// }
/// ```
pub trait Submit<L: Ledger> {
    /// Carries out a command, and returns its reply: `NoMemory` with the seat unchanged, or the reply of the one
    /// receipt by which the seat grew. May wait for other threads.
    fn submit<R: Wait>(&self, rt: &R, seat: &mut Seat<L>, command: HubCommand) -> HubReply
        ensures refused { result ≡ Reply.NoMemory → seat.new ≡ seat.old }
        ensures receipt { result ≢ Reply.NoMemory → (place : ℕ)
            × (seat.new ≡ seat.old ++ receipt place command result ∷ []) };
}

impl<L: Ledger> Submit<L> for LockedHub<L> {
    fn submit<R: Wait>(&self, rt: &R, seat: &mut Seat<L>, command: HubCommand) -> HubReply {
        self.inside.lock(rt).apply(seat, command)
    }
}
