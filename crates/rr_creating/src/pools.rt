//! How many slots a port gets.
ghost use Rattle.std.specs.Prelude.{◌≡◌, ◌<◌, None, Some, false};
ghost use Rattle.rr_protocol.specs.Creation.{pool_size_of};
ghost use Rattle.rr_protocol.specs.Limits.{hub_refusal, worst_case_requests, is_too_large, worst_case_responses};

use rr_protocol::Limits;

/// Returns the most requests of a client that can live at one time. The limits must make a hub.
pub fn worst_case_requests(limits: &Limits) -> usize
    requires { hub_refusal limits.now ≡ None }
    ensures { result ≡ worst_case_requests limits.now }
{
    match limits.worst_case_requests() {
        Some(slots) => slots,
        None => unreachable!(),
    }
}

/// Returns the most responses of a server that can live at one time. The limits must make a hub, and the number must
/// fit into a `usize`.
pub fn worst_case_responses(limits: &Limits, loans: usize) -> usize
    requires hub { hub_refusal limits.now ≡ None }
    requires counts { is_too_large (worst_case_responses limits.now loans) ≡ false }
    ensures { result ≡ worst_case_responses limits.now loans }
{
    match limits.worst_case_responses(loans) {
        Some(slots) => slots,
        None => unreachable!(),
    }
}

/// The pool's size: the worst case, or the override's answer, but at least 1 and at most the worst case.
pub fn pool_size(worst_case: usize, pool: Option<usize>) -> usize
    ensures { result ≡ pool_size_of worst_case pool }
{
    match pool {
        Some(size) => size.min(worst_case).max(1),
        None => worst_case,
    }
}
