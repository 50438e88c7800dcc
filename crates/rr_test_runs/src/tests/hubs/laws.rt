//! Promises and proofs of a shared hub's callers: one function for each law.
ghost use Rattle.std.specs.Prelude.{◌≡◌, ◌⊎◌, ◌∷◌, ◌++◌, [], false, IfSome, ℕ};
ghost use mathlib.Core.List.{IsPrefix};
ghost use Rattle.rr_laws.specs.Unreduced.{is_out_of_memory};
ghost use Rattle.rr_laws.specs.Whole.{HasWholePool};
ghost use Rattle.rr_slots.specs.declared.family.Family.{Family};
ghost use Rattle.rr_shared.specs.Histories.{history_of};
ghost use Rattle.rr_shared.specs.Laws.{calls_of, HasReceived, WasSentFor};

use super::rows::{HubCommand, HubReply};
use rr_protocol::{BackpressureFn, ClientSettings, NoHandler};
use rr_shared::{Command, Naming, Reply, Seat, SharedHub};
use rr_slots::WriteBody;
use std::sync::Wait;

/// A hub whose messages are numbers.
pub type Numbers<N> = SharedHub<N, u64, Option<u64>, u64, NoHandler>;

/// A seat at such a hub.
pub type NumbersSeat<N> = Seat<N, u64, u64, NoHandler>;

/// Submits two commands. Promises that the seat's own calls go on by just these, in this order.
pub fn asked_twice<
    N: Naming,
    T: Copy + Default,
    B: WriteBody<Item = T>,
    H: Copy + Default,
    K: BackpressureFn,
    R: Wait,
>(
    rt: &R,
    hub: &SharedHub<N, T, B, H, K>,
    seat: &mut Seat<N, T, H, K>,
    first: Command<T, H, K>,
    second: Command<T, H, K>,
) -> (Reply<T, H>, Reply<T, H>)
    ensures { calls_of seat.new ≡ (calls_of seat.old ++ (first, result.0) ∷ []) ++ (second, result.1) ∷ [] }
{
    let one = hub.submit(rt, seat, first);
    let two = hub.submit(rt, seat, second);
    (one, two)
}

/// Submits a command by each of two seats that meet afterwards. Promises that one history has the calls of both: the
/// history of one seat is a prefix of the other's.
pub fn met<N: Naming, R: Wait>(
    rt: &R,
    hub: &Numbers<N>,
    one: &mut NumbersSeat<N>,
    other: &mut NumbersSeat<N>,
    first: HubCommand,
    second: HubCommand,
) -> (HubReply, HubReply)
    ensures first { calls_of one.new ≡ calls_of one.old ++ (first, result.0) ∷ [] }
    ensures second { calls_of other.new ≡ calls_of other.old ++ (second, result.1) ∷ [] }
    ensures begins { IsPrefix one.new.1 other.new.1 ⊎ IsPrefix other.new.1 one.new.1 }
{
    let reply = hub.submit(rt, one, first);
    let other_reply = hub.submit(rt, other, second);
    hub.compare(one, other);
    (reply, other_reply)
}

/// Receives by two seats, which meet afterwards. Promises that they have received no response in common.
pub fn received_by_both<N: Naming, R: Wait>(
    rt: &R,
    hub: &Numbers<N>,
    one: &mut NumbersSeat<N>,
    other: &mut NumbersSeat<N>,
    pending: u64,
)
    ensures { (k : ℕ) → HasReceived k one.new → HasReceived k other.new → ⊥ }
{
    let _ = hub.submit(rt, one, Command::Receive(pending));
    let _ = hub.submit(rt, other, Command::Receive(pending));
    hub.compare(one, other);
}

/// Receives a response of a pending response. Promises that it was loaned from an active request of this request, and
/// sent.
pub fn received<N: Naming, R: Wait>(
    rt: &R,
    hub: &Numbers<N>,
    seat: &mut NumbersSeat<N>,
    pending: u64,
) -> Option<u64>
    ensures { IfSome result (λ response. WasSentFor pending response (history_of seat.new)) }
{
    match hub.submit(rt, seat, Command::Receive(pending)) {
        Reply::Response(response) => Some(response),
        _ => None,
    }
}

/// Loans a request of a client that was created with a whole pool. Promises that the loan found a slot, whatever
/// other callers do.
pub fn loaned<N: Naming, R: Wait>(
    rt: &R,
    hub: &Numbers<N>,
    seat: &mut NumbersSeat<N>,
    client: u64,
) -> Reply<u64, u64>
    requires { HasWholePool Family.Typed N.limits (history_of seat.old) client 1 }
    ensures { is_out_of_memory result ≡ false }
{
    hub.submit(rt, seat, Command::Loan(client, 1))
}

/// Creates a client with a whole pool. Promises that the history says so.
pub fn created<N: Naming, R: Wait>(
    rt: &R,
    hub: &Numbers<N>,
    seat: &mut NumbersSeat<N>,
) -> Option<u64>
    ensures { IfSome result (λ client. HasWholePool Family.Typed N.limits (history_of seat.new) client 1) }
{
    match hub.submit(rt, seat, Command::CreateClient(ClientSettings::default())) {
        Reply::Created(client) => Some(client),
        _ => None,
    }
}

/// Ends the sharing of a hub, and shows two seats the whole history. Promises that they have then seen the same, and
/// that each made just the calls that it knew of.
pub fn ended<
    N: Naming,
    T: Copy + Default,
    B: WriteBody<Item = T>,
    H: Copy + Default,
    K: BackpressureFn,
>(hub: SharedHub<N, T, B, H, K>, one: &mut Seat<N, T, H, K>, other: &mut Seat<N, T, H, K>)
    ensures same { one.new.1 ≡ other.new.1 }
    ensures one { calls_of one.new ≡ calls_of one.old }
    ensures other { calls_of other.new ≡ calls_of other.old }
{
    let mut finished = hub.finish();
    finished.look(one);
    finished.look(other);
}
