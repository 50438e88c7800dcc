//! Handles by number and place.
ghost use Rattle.std.specs.Prelude.{◌≡◌, ◌+◌, ◌<◌, ◌^◌, true, Option, Some, IfSome, IsSome, None};
ghost use Rattle.rr_protocol.specs.State.{handle_at};
ghost use Rattle.rr_table.specs.TableView.{IsAt, table_entry};
ghost use Rattle.rr_table.specs.declared.place.Place.{Place};
ghost use Rattle.rr_store.specs.Asked.{CanInsert};
ghost use Rattle.rr_store.specs.Changes.{with_handle, with_new_handle};
ghost use Rattle.rr_store.specs.Ending.{IsAskedPlace, IsLoanEnded, found_under, IsCountedLess};
ghost use Rattle.rr_store.specs.Opened.{opened};
ghost use Rattle.rr_store.specs.Views.{state_of};
ghost use Rattle.rr_store.specs.Answering.{active_in};
ghost use Rattle.std.specs.FinMap as fin_map;
ghost use Rattle.rr_table.specs.declared.place.Place as place;

use crate::store::Store;
use crate::this_hub::of_this_hub;
use crate::{HandleEntry, HandleId, ResponseDetails, Stage};
use rr_protocol::BackpressureFn;
use rr_slots::Body;
use rr_table::{Place, Table};

impl<QB: Body, QH: Default + Drop, PB: Body, PH: Default + Drop, K: BackpressureFn> Store<
    QB,
    QH,
    PB,
    PH,
    K,
> {
    /// Returns whether `place` is the place of a handle that the table has.
    #[inline(always)]
    pub fn is_place_of(&self, number: u64, place: Place) -> bool
        requires { IsSome (handle_at (state_of (opened self.now)) number) }
        ensures there { result ≡ true → IsAt self.now.table number place }
        ensures elsewhere { IsAt self.now.table number place → result ≡ true }
    {
        self.table.is_place_of(number, place)
    }

    /// Returns the place of a handle. Tries the place in its id first, and searches the table if the handle is
    /// elsewhere.
    #[inline(always)]
    pub fn locate(&self, id: &HandleId) -> Place
        requires { IsSome (handle_at (state_of (opened self.now)) id.now) }
        ensures { IsAt self.now.table id.now result }
    {
        let place = id.place();
        if self.is_place_of(id.number(), place) {
            place
        } else {
            self.place_of(id.number())
        }
    }

    /// Returns the place of a handle. Searches the table.
    #[cold]
    fn place_of(&self, number: u64) -> Place
        requires { IsSome (handle_at (state_of (opened self.now)) number) }
        ensures { IsAt self.now.table number result }
    {
        of_this_hub(self.table.find(number))
    }

    /// Returns the entry of a handle. Tries the place in its id first, and searches the table if the handle is
    /// elsewhere.
    #[inline(always)]
    pub fn look_up(&self, id: &HandleId) -> HandleEntry
        requires { IsSome (handle_at (state_of (opened self.now)) id.now) }
        ensures { (at : Place) × (fin_map.get self.now.table.entries id.now ≡ Some (table_entry at result)) }
    {
        let place = id.place();
        if self.is_place_of(id.number(), place) {
            self.table.at(id.number(), place)
        } else {
            self.table.at(id.number(), self.place_of(id.number()))
        }
    }

    /// Puts a handle into a vacant place, under a number that nothing has.
    #[inline(always)]
    pub fn insert(&mut self, number: u64, place: Place, entry: HandleEntry)
        requires vacant { CanInsert self.old.table number place }
        requires number { number + 1 < 2 ^ 64 }
        ensures { opened self.new ≡ with_handle (opened self.old) number place entry }
    {
        self.table.insert(place, number, entry);
    }

    /// Puts a handle into a vacant place, under the next number, which it returns.
    #[inline(always)]
    pub fn add(&mut self, place: Place, entry: HandleEntry) -> u64
        requires vacant { CanInsert self.old.table self.old.next place }
        requires number { self.old.next + 1 < 2 ^ 64 }
        ensures number { result ≡ self.old.next }
        ensures added { opened self.new ≡ with_new_handle (opened self.old) place entry }
    {
        let number = self.next;
        self.table.insert(place, number, entry);
        self.next = number + 1;
        number
    }

    /// Decrements the loans of a response's active request, if that is not released yet. `receiver` is the index of
    /// the response's server among the receivers of clients.
    #[inline(always)]
    pub fn end_loan_from(&mut self, details: ResponseDetails, receiver: usize)
        ensures rest { opened self.new ≡ record (opened self.old) { table = self.new.table } }
        ensures ended { (at : Option place.Place) × IfSome at (IsAskedPlace self.old.clients.senders details receiver)
            × IsLoanEnded details.active_request (found_under self.old.table details.active_request at) self.old.table
            self.new.table }
    {
        let at = self.clients.asked_place(details, receiver);
        end_loan_from(&mut self.table, details.active_request, at);
    }
}

/// Decrements the loans of the active request with this number, if there is one. Reads one place only, if a place is
/// given.
#[tactic(auto, using(crate::proofs::base::lookups::Placed::kept_there))]
#[inline(always)]
fn end_loan_from(table: &mut Table<HandleEntry>, number: u64, at: Option<Place>)
    ensures { IsLoanEnded number (found_under table.old number at) table.old table.new }
{
    match at {
        Some(place) => {
            if let Some(entry) = table.get_at(number, place) {
                end_loan_of(table, number, place, entry);
            }
        }
        None => {
            if let Some(place) = table.find(number) {
                let entry = table.at(number, place);
                end_loan_of(table, number, place, entry);
            }
        }
    }
}

/// Decrements the loans of a handle, if it is an active request.
#[inline(always)]
fn end_loan_of(table: &mut Table<HandleEntry>, number: u64, place: Place, entry: HandleEntry)
    requires { fin_map.get table.old.entries number ≡ Some (table_entry place entry) }
    ensures { IsCountedLess number entry (active_in entry.stage) table.old table.new }
{
    if let Some((server, loans)) = entry.stage.active() {
        let stage = Stage::ActiveRequest(server, loans.saturating_sub(1));
        let sender = entry.sender;
        let slot = entry.slot;
        table.set_at(
            number,
            place,
            HandleEntry {
                stage,
                sender,
                slot,
            },
        );
    }
}
