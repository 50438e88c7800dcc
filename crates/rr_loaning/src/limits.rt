//! The loan limits of a port.
ghost use Rattle.std.specs.Prelude.{◌≡◌, ◌||◌, false, nat_le};
ghost use Rattle.rr_protocol.specs.Loans.{is_too_long};
ghost use Rattle.rr_store.specs.Ports.{connected_of};

use rr_protocol::AllocationStrategy;
use rr_store::{Port, ServerPort};

/// Whether a slice is longer than the port has room for, and may not get more.
pub fn is_too_long<K: Drop>(port: &Port<K>, len: usize) -> bool
    ensures { result ≡ is_too_long (connected_of port.now).port len }
{
    match port.allocation_strategy {
        AllocationStrategy::Static => port.initial_max_slice_len < len,
        AllocationStrategy::BestFit | AllocationStrategy::PowerOfTwo => false,
    }
}

/// Returns whether an active request with `loans` responses on loan, or its server with `all` of them, is at its loan
/// limit.
pub fn is_at_loan_limit<K: Drop>(server: &ServerPort<K>, loans: usize, all: usize) -> bool
    ensures { result ≡ (nat_le server.now.max_loaned_responses_per_request loans || nat_le
        server.now.max_loaned_responses all) }
{
    server.max_loaned_responses_per_request <= loans || server.max_loaned_responses <= all
}
