//! Disconnect hints of pending responses.
ghost use Rattle.std.specs.Prelude.{◌≡◌, Some};
ghost use Rattle.rr_protocol.specs.Messages.{with_hint};
ghost use Rattle.rr_protocol.specs.Queries.{kind_at};
ghost use Rattle.rr_protocol.specs.State.{with_changed};
ghost use Rattle.rr_store.specs.Hints.{hinted};
ghost use Rattle.rr_store.specs.Opened.{opened};
ghost use Rattle.rr_store.specs.Reaching.{IsCore};
ghost use Rattle.rr_store.specs.Views.{state_of};
ghost use Rattle.rr_table.specs.TableView.{IsAt};

use rr_protocol::{BackpressureFn, Kind};
use rr_slots::Body;
use rr_store::{HandleEntry, Stage, Store};
use rr_table::Place;

/// Sets the hint of the pending response in this place.
#[inline(always)]
pub fn set_disconnect_hint_at<
    QB: Body,
    QH: Default + Drop,
    PB: Body,
    PH: Default + Drop,
    K: BackpressureFn,
>(store: &mut Store<QB, QH, PB, PH, K>, number: u64, place: Place)
    requires core { IsCore (opened store.old) }
    requires at { IsAt store.old.table number place }
    requires kind { kind_at (state_of (opened store.old)) number ≡ Some Kind.PendingResponse }
    ensures core { IsCore (opened store.new) }
    ensures view { state_of (opened store.new) ≡ with_changed (state_of (opened store.old)) number with_hint }
{
    let entry = store.table.at(number, place);
    let hinted = HandleEntry {
        stage: hinted(entry.stage),
        sender: entry.sender,
        slot: entry.slot,
    };
    store.table.set_at(number, place, hinted);
}

/// Returns the stage once the hint of a pending response is set. Other stages stay.
#[inline(always)]
fn hinted(stage: Stage) -> Stage
    ensures { result ≡ hinted stage }
{
    match stage {
        Stage::PendingResponse(_, connections) => Stage::PendingResponse(true, connections),
        stage => stage,
    }
}
