//! Making a store.
ghost use Rattle.std.specs.Prelude.{IfOk, ◌≡◌, ◌<◌, ◌+◌, None};
ghost use Rattle.std.specs.Result.{result_map_both};
ghost use Rattle.rr_protocol.specs.Creation.{CreatesHub};
ghost use Rattle.rr_store.specs.Opened.{opened};
ghost use Rattle.rr_store.specs.Reaching.{IsCore};
ghost use Rattle.rr_store.specs.Views.{state_of};
ghost use Rattle.rr_store.specs.Start.{start_parts};

use rr_protocol::{BackpressureFn, HubCreateError, Limits, UniqueNodeId};
use rr_sender::Turns;
use rr_slots::Body;
use rr_store::{Side, Store};
use rr_table::Table;
use std::alloc::Global;

/// Makes a store without ports. Takes no memory.
///
/// # Errors
///
/// - `ZeroLimit` if a limit is below its least value.
/// - `LimitsTooLarge` if a worst-case size overflows a `usize`.
pub fn new_store<QB: Body, QH: Default + Drop, PB: Body, PH: Default + Drop, K: BackpressureFn>(
    alloc: Global,
    limits: Limits,
    node_id: UniqueNodeId,
) -> Result<Store<QB, QH, PB, PH, K>, HubCreateError>
    ensures core { IfOk result (λ store. IsCore (opened store)) }
    ensures view { CreatesHub limits node_id.0 (result_map_both (λ store. state_of (opened store)) (λ error. error)
        result) }
{
    match limits.refusal() {
        Some(refusal) => Err(refusal),
        None => Ok(start(alloc, limits, node_id)),
    }
}

/// Makes a store in which nothing was made. It takes no memory.
fn start<QB: Body, QH: Default + Drop, PB: Body, PH: Default + Drop, K: BackpressureFn>(
    alloc: Global,
    limits: Limits,
    node_id: UniqueNodeId,
) -> Store<QB, QH, PB, PH, K>
    ensures { opened result ≡ start_parts limits node_id.0 result.clients.spare_header result.servers.spare_header }
{
    Store {
        next: 0,
        clients: Side::new(alloc),
        table: Table::new(alloc),
        servers: Side::new(alloc),
        limits,
        node_id,
        request_turns: Turns::new(alloc),
        response_turns: Turns::new(alloc),
    }
}
