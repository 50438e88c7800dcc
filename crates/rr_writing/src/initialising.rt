//! Messages that were written whole.
ghost use Rattle.std.specs.Prelude.{◌≡◌, ◌⊎◌, true, Some, IsSomeAnd};
ghost use Rattle.rr_protocol.specs.Queries.{kind_at};
ghost use Rattle.rr_protocol.specs.State.{handle_at, with_changed};
ghost use Rattle.rr_protocol.specs.Writing.{after_init};
ghost use Rattle.rr_store.specs.Opened.{opened};
ghost use Rattle.rr_store.specs.Reaching.{IsCore};
ghost use Rattle.rr_store.specs.Views.{state_of};
ghost use Rattle.rr_store.specs.Writing.{initialised, is_ready};
ghost use Rattle.rr_table.specs.TableView.{IsAt};

use rr_protocol::{BackpressureFn, Kind};
use rr_slots::Body;
use rr_store::{HandleEntry, Stage, Store};
use rr_table::Place;

/// Makes the message on loan in this place, whose body is complete, ready to send.
#[inline(always)]
pub fn assume_init_at<
    QB: Body,
    QH: Default + Drop,
    PB: Body,
    PH: Default + Drop,
    K: BackpressureFn,
>(store: &mut Store<QB, QH, PB, PH, K>, number: u64, place: Place)
    requires core { IsCore (opened store.old) }
    requires at { IsAt store.old.table number place }
    requires uninit { (kind_at (state_of (opened store.old)) number ≡ Some Kind.RequestMutUninit)
        ⊎ (kind_at (state_of (opened store.old)) number ≡ Some Kind.ResponseMutUninit) }
    requires complete { IsSomeAnd (handle_at (state_of (opened store.old)) number) (λ handle. is_ready handle ≡ true) }
    ensures core { IsCore (opened store.new) }
    ensures view { state_of (opened store.new) ≡ with_changed (state_of (opened store.old)) number after_init }
{
    let entry = store.table.at(number, place);
    let ready = HandleEntry {
        stage: initialised(entry.stage),
        sender: entry.sender,
        slot: entry.slot,
    };
    store.table.set_at(number, place, ready);
}

/// Returns the stage of a message that is being written, once it can be sent.
#[inline(always)]
fn initialised(stage: Stage) -> Stage
    requires { (stage ≡ Stage.RequestMutUninit) ⊎ (stage ≡ Stage.ResponseMutUninit) }
    ensures { result ≡ initialised stage }
{
    match stage {
        Stage::RequestMutUninit => Stage::RequestMut,
        _ => Stage::ResponseMut,
    }
}
