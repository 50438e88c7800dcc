//! Messages that are written whole.
ghost use Rattle.std.specs.Prelude.{◌≡◌, List, [], ◌∷◌, length, Some, IsSomeAnd, option_and_then};
ghost use Rattle.rr_protocol.specs.Messages.{request_in, response_in};
ghost use Rattle.rr_protocol.specs.Queries.{kind_at};
ghost use Rattle.rr_protocol.specs.State.{handle_at, with_changed};
ghost use Rattle.rr_protocol.specs.Writing.{after_init, filled, with_elements, with_request_content, with_response_content};
ghost use Rattle.rr_store.specs.Opened.{opened};
ghost use Rattle.rr_store.specs.Reaching.{IsCore};
ghost use Rattle.rr_store.specs.Views.{state_of};
ghost use Rattle.rr_table.specs.TableView.{IsAt};

use rr_protocol::{BackpressureFn, Kind};
use rr_slots::{Body, FillBody, KeepBody, WriteBody};
use rr_store::{HandleEntry, Stage, Store};
use rr_table::Place;

/// Writes the only element of the request on loan in this place, whose body was loaned for one, and makes it ready to
/// send. An old element is dropped.
#[inline(always)]
pub fn write_request_at<
    QB: WriteBody,
    QH: Default + Drop,
    PB: Body,
    PH: Default + Drop,
    K: BackpressureFn,
>(store: &mut Store<QB, QH, PB, PH, K>, number: u64, place: Place, element: QB::Item)
    requires core { IsCore (opened store.old) }
    requires at { IsAt store.old.table number place }
    requires kind { kind_at (state_of (opened store.old)) number ≡ Some Kind.RequestMutUninit }
    requires one { (body : QB) → QB.asked_len body ≡ 1 }
    ensures core { IsCore (opened store.new) }
    ensures view { state_of (opened store.new) ≡ with_changed
        (with_changed (state_of (opened store.old)) number (with_request_content (with_elements (element ∷ []))))
        number after_init }
{
    let entry = store.table.at(number, place);
    // Only its clause is used: the body was loaned for one element.
    let asked = store.clients.body(entry.sender, entry.slot);
    let _ = asked;
    let ready = HandleEntry {
        stage: Stage::RequestMut,
        ..entry
    };
    store.table.set_at(number, place, ready);
    store.clients.write(entry.sender, entry.slot, element);
}

/// Writes the only element of the response on loan in this place, whose body was loaned for one, and makes it ready
/// to send. An old element is dropped.
#[inline(always)]
pub fn write_response_at<
    QB: Body,
    QH: Default + Drop,
    PB: WriteBody,
    PH: Default + Drop,
    K: BackpressureFn,
>(store: &mut Store<QB, QH, PB, PH, K>, number: u64, place: Place, element: PB::Item)
    requires core { IsCore (opened store.old) }
    requires at { IsAt store.old.table number place }
    requires kind { kind_at (state_of (opened store.old)) number ≡ Some Kind.ResponseMutUninit }
    requires one { (body : PB) → PB.asked_len body ≡ 1 }
    ensures core { IsCore (opened store.new) }
    ensures view { state_of (opened store.new) ≡ with_changed
        (with_changed (state_of (opened store.old)) number (with_response_content (with_elements (element ∷ []))))
        number after_init }
{
    let entry = store.table.at(number, place);
    // Only its clause is used: the body was loaned for one element.
    let asked = store.servers.body(entry.sender, entry.slot);
    let _ = asked;
    let ready = HandleEntry {
        stage: Stage::ResponseMut,
        ..entry
    };
    store.table.set_at(number, place, ready);
    store.servers.write(entry.sender, entry.slot, element);
}

/// Fills the payload of the request on loan in this place with one element, and makes it ready to send. Old elements
/// are dropped.
#[inline(always)]
pub fn fill_request_at<
    QB: FillBody,
    QH: Default + Drop,
    PB: Body,
    PH: Default + Drop,
    K: BackpressureFn,
>(store: &mut Store<QB, QH, PB, PH, K>, number: u64, place: Place, element: QB::Item)
    requires core { IsCore (opened store.old) }
    requires at { IsAt store.old.table number place }
    requires kind { kind_at (state_of (opened store.old)) number ≡ Some Kind.RequestMutUninit }
    ensures core { IsCore (opened store.new) }
    ensures view { state_of (opened store.new) ≡ with_changed
        (with_changed (state_of (opened store.old)) number (with_request_content (filled element))) number after_init }
{
    let entry = store.table.at(number, place);
    let ready = HandleEntry {
        stage: Stage::RequestMut,
        ..entry
    };
    store.table.set_at(number, place, ready);
    store.clients.fill(entry.sender, entry.slot, element);
}

/// Fills the payload of the response on loan in this place with one element, and makes it ready to send. Old elements
/// are dropped.
#[inline(always)]
pub fn fill_response_at<
    QB: Body,
    QH: Default + Drop,
    PB: FillBody,
    PH: Default + Drop,
    K: BackpressureFn,
>(store: &mut Store<QB, QH, PB, PH, K>, number: u64, place: Place, element: PB::Item)
    requires core { IsCore (opened store.old) }
    requires at { IsAt store.old.table number place }
    requires kind { kind_at (state_of (opened store.old)) number ≡ Some Kind.ResponseMutUninit }
    ensures core { IsCore (opened store.new) }
    ensures view { state_of (opened store.new) ≡ with_changed
        (with_changed (state_of (opened store.old)) number (with_response_content (filled element))) number after_init }
{
    let entry = store.table.at(number, place);
    let ready = HandleEntry {
        stage: Stage::ResponseMut,
        ..entry
    };
    store.table.set_at(number, place, ready);
    store.servers.fill(entry.sender, entry.slot, element);
}

/// Copies these elements, which must be as many as were loaned, into the request on loan in this place, and makes it
/// ready to send. Old elements are dropped.
#[inline(always)]
pub fn copy_request_at<
    QB: FillBody,
    QH: Default + Drop,
    PB: Body,
    PH: Default + Drop,
    K: BackpressureFn,
>(store: &mut Store<QB, QH, PB, PH, K>, number: u64, place: Place, elements: &[QB::Item])
    requires core { IsCore (opened store.old) }
    requires at { IsAt store.old.table number place }
    requires kind { kind_at (state_of (opened store.old)) number ≡ Some Kind.RequestMutUninit }
    requires len { IsSomeAnd (option_and_then request_in (handle_at (state_of (opened store.old)) number))
        (λ m. m.content.asked_len ≡ length elements.now) }
    ensures core { IsCore (opened store.new) }
    ensures view { state_of (opened store.new) ≡ with_changed
        (with_changed (state_of (opened store.old)) number (with_request_content (with_elements elements.now))) number
        after_init }
{
    let entry = store.table.at(number, place);
    let ready = HandleEntry {
        stage: Stage::RequestMut,
        ..entry
    };
    store.table.set_at(number, place, ready);
    store.clients.copy(entry.sender, entry.slot, elements);
}

/// Copies these elements, which must be as many as were loaned, into the response on loan in this place, and makes it
/// ready to send. Old elements are dropped.
#[inline(always)]
pub fn copy_response_at<
    QB: Body,
    QH: Default + Drop,
    PB: FillBody,
    PH: Default + Drop,
    K: BackpressureFn,
>(store: &mut Store<QB, QH, PB, PH, K>, number: u64, place: Place, elements: &[PB::Item])
    requires core { IsCore (opened store.old) }
    requires at { IsAt store.old.table number place }
    requires kind { kind_at (state_of (opened store.old)) number ≡ Some Kind.ResponseMutUninit }
    requires len { IsSomeAnd (option_and_then response_in (handle_at (state_of (opened store.old)) number))
        (λ m. m.content.asked_len ≡ length elements.now) }
    ensures core { IsCore (opened store.new) }
    ensures view { state_of (opened store.new) ≡ with_changed
        (with_changed (state_of (opened store.old)) number (with_response_content (with_elements elements.now)))
        number after_init }
{
    let entry = store.table.at(number, place);
    let ready = HandleEntry {
        stage: Stage::ResponseMut,
        ..entry
    };
    store.table.set_at(number, place, ready);
    store.servers.copy(entry.sender, entry.slot, elements);
}

/// Makes the request on loan in this place complete with unspecified elements, those that its slot's memory holds,
/// and ready to send.
#[inline(always)]
pub fn complete_request_at<
    QB: KeepBody,
    QH: Default + Drop,
    PB: Body,
    PH: Default + Drop,
    K: BackpressureFn,
>(store: &mut Store<QB, QH, PB, PH, K>, number: u64, place: Place)
    requires core { IsCore (opened store.old) }
    requires at { IsAt store.old.table number place }
    requires kind { kind_at (state_of (opened store.old)) number ≡ Some Kind.RequestMutUninit }
    ensures core { IsCore (opened store.new) }
    ensures view { (elements : List QB.Item) × IsSomeAnd
        (option_and_then request_in (handle_at (state_of (opened store.old)) number))
        (λ m. m.content.asked_len ≡ length elements)
        × (state_of (opened store.new) ≡ with_changed
        (with_changed (state_of (opened store.old)) number (with_request_content (with_elements elements))) number
        after_init) }
{
    let entry = store.table.at(number, place);
    let ready = HandleEntry {
        stage: Stage::RequestMut,
        ..entry
    };
    store.table.set_at(number, place, ready);
    store.clients.complete(entry.sender, entry.slot);
}

/// Makes the response on loan in this place complete with unspecified elements, those that its slot's memory holds,
/// and ready to send.
#[inline(always)]
pub fn complete_response_at<
    QB: Body,
    QH: Default + Drop,
    PB: KeepBody,
    PH: Default + Drop,
    K: BackpressureFn,
>(store: &mut Store<QB, QH, PB, PH, K>, number: u64, place: Place)
    requires core { IsCore (opened store.old) }
    requires at { IsAt store.old.table number place }
    requires kind { kind_at (state_of (opened store.old)) number ≡ Some Kind.ResponseMutUninit }
    ensures core { IsCore (opened store.new) }
    ensures view { (elements : List PB.Item) × IsSomeAnd
        (option_and_then response_in (handle_at (state_of (opened store.old)) number))
        (λ m. m.content.asked_len ≡ length elements)
        × (state_of (opened store.new) ≡ with_changed
        (with_changed (state_of (opened store.old)) number (with_response_content (with_elements elements))) number
        after_init) }
{
    let entry = store.table.at(number, place);
    let ready = HandleEntry {
        stage: Stage::ResponseMut,
        ..entry
    };
    store.table.set_at(number, place, ready);
    store.servers.complete(entry.sender, entry.slot);
}
