//! Releases of clients by their values.
ghost use Rattle.std.specs.Prelude.{◌≡◌, Some, IsSomeAnd, slice_get};
ghost use Rattle.rr_protocol.specs.declared.kind.Kind.TheVariants as kind;
ghost use Rattle.rr_protocol.specs.Queries.{kind_at};
ghost use Rattle.rr_protocol.specs.Releases.{after_release, without_port_value};
ghost use Rattle.rr_store.specs.Opened.{opened};
ghost use Rattle.rr_store.specs.Reaching.{IsCore};
ghost use Rattle.rr_store.specs.Sound.{IsSoundStore, empty_hand};
ghost use Rattle.rr_store.specs.Views.{state_of};

use crate::leaving::client::leave_client_if_unused;
use rr_protocol::BackpressureFn;
use rr_slots::Body;
use rr_store::Store;

/// Releases the value of a client, which leaves if it has no handle.
pub fn release_client<
    QB: Body,
    QH: Default + Drop,
    PB: Body,
    PH: Default + Drop,
    K: BackpressureFn,
>(store: &mut Store<QB, QH, PB, PH, K>, client: u64)
    requires core { IsCore (opened store.old) }
    requires kind { kind_at (state_of (opened store.old)) client ≡ Some kind.Client }
    ensures core { IsCore (opened store.new) }
    ensures view { state_of (opened store.new) ≡ after_release (state_of (opened store.old)) client }
{
    let index = end_client_value(store, client);
    leave_client_if_unused(store, index);
}

/// Records that the value of a client was released, and returns the client's index.
fn end_client_value<QB: Body, QH: Default + Drop, PB: Body, PH: Default + Drop, K: BackpressureFn>(
    store: &mut Store<QB, QH, PB, PH, K>,
    client: u64,
) -> usize
    requires core { IsCore (opened store.old) }
    requires kind { kind_at (state_of (opened store.old)) client ≡ Some kind.Client }
    ensures sound { IsSoundStore (opened store.new) empty_hand }
    ensures named { IsSomeAnd (slice_get (opened store.new).clients result) (λ c. c.port.id ≡ client) }
    ensures gone { state_of (opened store.new) ≡ without_port_value (state_of (opened store.old)) client }
{
    let index = store.clients.index_of(client);
    store.clients.end_value(index);
    index
}
