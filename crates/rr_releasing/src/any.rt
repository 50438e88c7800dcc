//! Releases of handles of any kind.
ghost use Rattle.std.specs.Prelude.{◌≡◌};
ghost use Rattle.rr_protocol.specs.Releases.{after_release};
ghost use Rattle.rr_store.specs.Opened.{opened};
ghost use Rattle.rr_store.specs.Reaching.{IsCore};
ghost use Rattle.rr_store.specs.Views.{state_of};
ghost use Rattle.rr_table.specs.TableView.{IsAt};

use crate::active::release_active_at;
use crate::pending::release_pending_at;
use crate::received::release_received_at;
use crate::request::release_request_at;
use crate::response_loan::release_response_loan_at;
use rr_protocol::BackpressureFn;
use rr_slots::Body;
use rr_store::{Stage, Store};
use rr_table::Place;

/// Releases the handle in this place.
#[inline(always)]
pub fn release_at<QB: Body, QH: Default + Drop, PB: Body, PH: Default + Drop, K: BackpressureFn>(
    store: &mut Store<QB, QH, PB, PH, K>,
    number: u64,
    place: Place,
)
    requires core { IsCore (opened store.old) }
    requires at { IsAt store.old.table number place }
    ensures core { IsCore (opened store.new) }
    ensures view { state_of (opened store.new) ≡ after_release (state_of (opened store.old)) number }
{
    match store.table.at(number, place).stage {
        Stage::RequestMutUninit | Stage::RequestMut => release_request_at(store, number, place),
        Stage::PendingResponse(_, _) => release_pending_at(store, number, place),
        Stage::ActiveRequest(_, _) => release_active_at(store, number, place),
        Stage::ResponseMutUninit | Stage::ResponseMut => {
            release_response_loan_at(store, number, place);
        }
        Stage::Response => release_received_at(store, number, place),
    }
}
