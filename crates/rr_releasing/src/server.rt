//! Releases of servers by their values.
ghost use Rattle.std.specs.Prelude.{◌≡◌, Some, IsSomeAnd, slice_get};
ghost use Rattle.rr_protocol.specs.declared.kind.Kind.TheVariants as kind;
ghost use Rattle.rr_protocol.specs.Queries.{kind_at};
ghost use Rattle.rr_protocol.specs.Releases.{after_release, without_port_value};
ghost use Rattle.rr_store.specs.Opened.{opened};
ghost use Rattle.rr_store.specs.Reaching.{IsCore};
ghost use Rattle.rr_store.specs.Sound.{IsSoundStore, empty_hand};
ghost use Rattle.rr_store.specs.Views.{state_of};

use crate::leaving::server::leave_server_if_unused;
use rr_protocol::BackpressureFn;
use rr_slots::Body;
use rr_store::Store;

/// Releases the value of a server, which leaves if it has no handle.
pub fn release_server<
    QB: Body,
    QH: Default + Drop,
    PB: Body,
    PH: Default + Drop,
    K: BackpressureFn,
>(store: &mut Store<QB, QH, PB, PH, K>, server: u64)
    requires core { IsCore (opened store.old) }
    requires kind { kind_at (state_of (opened store.old)) server ≡ Some kind.Server }
    ensures core { IsCore (opened store.new) }
    ensures view { state_of (opened store.new) ≡ after_release (state_of (opened store.old)) server }
{
    let index = end_server_value(store, server);
    leave_server_if_unused(store, index);
}

/// Records that the value of a server was released, and returns the server's index.
fn end_server_value<QB: Body, QH: Default + Drop, PB: Body, PH: Default + Drop, K: BackpressureFn>(
    store: &mut Store<QB, QH, PB, PH, K>,
    server: u64,
) -> usize
    requires core { IsCore (opened store.old) }
    requires kind { kind_at (state_of (opened store.old)) server ≡ Some kind.Server }
    ensures sound { IsSoundStore (opened store.new) empty_hand }
    ensures named { IsSomeAnd (slice_get (opened store.new).servers result) (λ s. s.port.id ≡ server) }
    ensures gone { state_of (opened store.new) ≡ without_port_value (state_of (opened store.old)) server }
{
    let index = store.servers.index_of(server);
    store.servers.end_value(index);
    index
}
