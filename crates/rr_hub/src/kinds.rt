//! The kinds of numbers.
ghost use Rattle.std.specs.Prelude.{◌≡◌, None, Some, if◌then◌else◌};
ghost use Rattle.rr_protocol.specs.declared.kind.Kind.TheVariants as kind;
ghost use Rattle.rr_protocol.specs.Queries.{kind_at};
ghost use Rattle.rr_protocol.specs.State.{is_client_value, is_server_value};
ghost use Rattle.rr_store.specs.Kinds.{stage_kind};
ghost use Rattle.rr_store.specs.Opened.{opened};
ghost use Rattle.rr_store.specs.Reaching.{IsCore};
ghost use Rattle.rr_store.specs.Views.{state_of};

use rr_protocol::{BackpressureFn, Kind};
use rr_slots::Body;
use rr_store::{Stage, Store};
use rr_table::Place;

/// Returns the kind of a number: a client or a server whose value lives, or a handle. Returns `None` if it names
/// nothing.
///
/// Tries the place first, then searches the ports in O(log ports), and last the table.
#[inline(always)]
pub fn kind_of<QB: Body, QH: Default + Drop, PB: Body, PH: Default + Drop, K: BackpressureFn>(
    store: &Store<QB, QH, PB, PH, K>,
    number: u64,
    place: Place,
) -> Option<Kind>
    requires { IsCore (opened store.now) }
    ensures { result ≡ kind_at (state_of (opened store.now)) number }
{
    if store.table.is_at(number, place) {
        return Some(stage_kind(store.table.at(number, place).stage));
    }
    kind_elsewhere(store, number)
}

/// Returns the kind of a number that is not in its place: a port, or a handle in any place.
///
/// It is a separate function so that callers whose handle is in the place of its id need no registers for these
/// searches.
#[inline(never)]
fn kind_elsewhere<QB: Body, QH: Default + Drop, PB: Body, PH: Default + Drop, K: BackpressureFn>(
    store: &Store<QB, QH, PB, PH, K>,
    number: u64,
) -> Option<Kind>
    requires { IsCore (opened store.now) }
    ensures { result ≡ kind_at (state_of (opened store.now)) number }
{
    if let Some(kind) = port_kind_of(store, number) {
        return Some(kind);
    }
    match store.table.find(number) {
        Some(place) => Some(stage_kind(store.table.at(number, place).stage)),
        None => None,
    }
}

/// Returns which port a number names: a client or a server whose value lives. Returns `None` if it names none.
///
/// Takes O(log ports), and reads no handle.
#[inline(always)]
pub fn port_kind_of<QB: Body, QH: Default + Drop, PB: Body, PH: Default + Drop, K: BackpressureFn>(
    store: &Store<QB, QH, PB, PH, K>,
    number: u64,
) -> Option<Kind>
    requires { IsCore (opened store.now) }
    ensures { result ≡ (if is_client_value (state_of (opened store.now)) number then Some kind.Client else if
        is_server_value (state_of (opened store.now)) number then Some kind.Server else None) }
{
    if store.clients.is_value(number) {
        return Some(Kind::Client);
    }
    if store.servers.is_value(number) {
        return Some(Kind::Server);
    }
    None
}

/// Returns the kind of a handle.
#[inline(always)]
fn stage_kind(stage: Stage) -> Kind
    ensures { result ≡ stage_kind stage }
{
    match stage {
        Stage::RequestMutUninit => Kind::RequestMutUninit,
        Stage::RequestMut => Kind::RequestMut,
        Stage::PendingResponse(_, _) => Kind::PendingResponse,
        Stage::ActiveRequest(_, _) => Kind::ActiveRequest,
        Stage::ResponseMutUninit => Kind::ResponseMutUninit,
        Stage::ResponseMut => Kind::ResponseMut,
        Stage::Response => Kind::Response,
    }
}
