//! The table and its calls.

ghost use Rattle.std.specs.Prelude.{◌≡◌, ◌≢◌, ◌<◌, ◌+◌, ◌^◌, length, replicate, IfOk, OnOk, OnErr, IfSome, Some, None, true, option_map};
ghost use Rattle.std.specs.FinMap as map;
ghost use Rattle.rr_table.specs.Places.{entry, vacant_number};
ghost use Rattle.rr_table.specs.TableView.{value_at, value_in, empty_table, table_entry, inserted, removed, IsAt, IsInside, IsVacant, with_row, IsRenewed};

use crate::place::Place;
use crate::seek::{entry_at, is_number_at, seek};
use std::alloc::{AllocError, Global};
use std::marker::Model;

/// The number of the entry in a vacant place. No value has it.
pub(crate) const VACANT: u64 = u64::MAX;

/// A value under its number, or a vacant place, where the number is `VACANT` and the value says nothing.
#[derive(Clone, Copy)]
pub(crate) struct Entry<E: Copy> {
    pub(crate) number: u64,
    pub(crate) value: E,
}

/// One row of places.
#[derive(Drop)]
pub(crate) struct Row<E: Copy> {
    pub(crate) places: Vec<Entry<E>>,
    // With it a row has 32 bytes, so its address is computed from its index by a shift instead of a multiplication.
    pub(crate) padding: u64,
}

/// Values by number, each in a fixed place of a row. No number is in two places.
#[derive(Drop)]
pub struct Table<E: Copy> {
    rows: Vec<Row<E>>,
}

impl<E: Copy> Model for Table<E> {
    ghost use Rattle.rr_table.specs.TableView.{TableView, table_code};

    ghost Value = { TableView E };

    ghost coded = { table_code E.code };

    ghost use Rattle.rr_table.specs.Places.{rows_of, table_of, IsDistinct};

    ghost view = { λ t. table_of (rows_of t.rows) };

    ghost invariant = { λ t. IsDistinct (rows_of t.rows) };
}

impl<E: Copy> Table<E> {
    /// A table with no rows. It takes no memory.
    pub fn new(alloc: Global) -> Self
        ensures { result ≡ empty_table }
    {
        Table {
            rows: Vec::new(alloc),
        }
    }

    /// Appends a row of `len` vacant places and returns its index. Changes nothing else. `AllocError` if there is no
    /// memory for the row; the table is unchanged then. `filler` is the value of a vacant place.
    pub fn add_row(&mut self, alloc: Global, len: usize, filler: E) -> Result<usize, AllocError>
        ensures row { IfOk result (λ row. row ≡ length self.old.rows) }
        ensures ok { OnOk result (self.new ≡ with_row self.old len) }
        ensures err { OnErr result (self.new ≡ self.old) }
    {
        let row = self.rows.len();
        let last = vacant(alloc, len, filler)?;
        self.rows.push(last)?;
        Ok(row)
    }

    /// Makes a row anew, with `len` vacant places. Removes the numbers of that row, and changes nothing else.
    /// `AllocError` if there is no memory for the places; the table is unchanged then. `filler` is the value of a
    /// vacant place.
    pub fn renew_row(
        &mut self,
        alloc: Global,
        row: usize,
        len: usize,
        filler: E,
    ) -> Result<(), AllocError>
        requires { row < length self.old.rows }
        ensures ok { OnOk result (IsRenewed row len self.old self.new) }
        ensures err { OnErr result (self.new ≡ self.old) }
    {
        let renewed = vacant(alloc, len, filler)?;
        self.rows[row] = renewed;
        Ok(())
    }

    /// The value under a number, or None where there is none. The place `first` is tried first: it changes how
    /// long the call takes, and never the answer.
    pub fn get(&self, number: u64, first: Place) -> Option<E>
        ensures { result ≡ value_at self.now number }
    {
        match seek(&self.rows, number, first) {
            Some(place) => match entry_at(&self.rows, number, place) {
                Some(entry) => Some(entry.value),
                None => None,
            },
            None => None,
        }
    }

    /// Returns the value under a number, if the number is in exactly this place, and otherwise `None`. Reads no other
    /// place.
    #[inline(always)]
    pub fn get_at(&self, number: u64, place: Place) -> Option<E>
        ensures { result ≡ value_in self.now number place }
    {
        match entry_at(&self.rows, number, place) {
            Some(entry) => Some(entry.value),
            None => None,
        }
    }

    /// Returns whether a number is in a place. Reads no other place.
    #[inline(always)]
    pub fn is_at(&self, number: u64, place: Place) -> bool
        ensures there { result ≡ true → IsAt self.now number place }
        ensures elsewhere { IsAt self.now number place → result ≡ true }
    {
        entry_at(&self.rows, number, place).is_some()
    }

    /// Returns whether a number that the table has is in this place. Reads no other place.
    #[inline(always)]
    pub fn is_place_of(&self, number: u64, place: Place) -> bool
        requires { map.get self.now.entries number ≢ None }
        ensures there { result ≡ true → IsAt self.now number place }
        ensures elsewhere { IsAt self.now number place → result ≡ true }
    {
        is_number_at(&self.rows, number, place)
    }

    /// Returns the value under a number, which is in this place.
    #[inline(always)]
    pub fn at(&self, number: u64, place: Place) -> E
        requires { IsAt self.now number place }
        ensures { map.get self.now.entries number ≡ Some (table_entry place result) }
    {
        // The contract alone speaks of the number: it says which entry the place has.
        let _ = number;
        self.rows[place.row].places[place.index].value
    }

    /// Replaces the value under a number, which is in this place.
    #[inline(always)]
    pub fn set_at(&mut self, number: u64, place: Place, value: E)
        requires { IsAt self.old number place }
        ensures { self.new ≡ inserted self.old number place value }
    {
        // The contract alone speaks of the number: it says which entry the place has.
        let _ = number;
        self.rows[place.row].places[place.index].value = value;
    }

    /// Removes a number and its value from its place, which is vacant then.
    #[inline(always)]
    pub fn take_at(&mut self, number: u64, place: Place) -> E
        requires { IsAt self.old number place }
        ensures taken { map.get self.old.entries number ≡ Some (table_entry place result) }
        ensures gone { self.new ≡ removed self.old number }
        ensures vacated { IsVacant self.new place }
    {
        let value = self.at(number, place);
        self.rows[place.row].places[place.index].number = VACANT;
        value
    }

    /// Returns the place of a number, or `None` if the table doesn't have it. Searches the rows.
    #[cold]
    pub fn find(&self, number: u64) -> Option<Place>
        ensures { result ≡ option_map (λ s. s.place) (map.get self.now.entries number) }
    {
        seek(&self.rows, number, Place { row: 0, index: 0 })
    }

    /// Puts a value into a vacant place, under a new number.
    #[inline(always)]
    pub fn insert(&mut self, place: Place, number: u64, value: E)
        requires place { IsInside self.old place }
        requires vacant { IsVacant self.old place }
        requires fresh { map.get self.old.entries number ≡ None }
        requires number { number + 1 < 2 ^ 64 }
        ensures { self.new ≡ inserted self.old number place value }
    {
        let entry = Entry { number, value };
        self.rows[place.row].places[place.index] = entry;
    }

    /// Replaces the value under a number, which keeps its place. The place `first` is tried first.
    pub fn set(&mut self, number: u64, first: Place, value: E)
        requires { map.get self.old.entries number ≢ None }
        ensures { IfSome (map.get self.old.entries number) (λ s. self.new ≡ inserted self.old number s.place value) }
    {
        if let Some(place) = seek(&self.rows, number, first) {
            self.rows[place.row].places[place.index] = Entry { number, value };
        }
    }

    /// Takes away a number and its value, so that its place is vacant. The place `first` is tried first.
    pub fn remove(&mut self, number: u64, first: Place)
        requires { map.get self.old.entries number ≢ None }
        ensures gone { self.new ≡ removed self.old number }
        ensures vacated { IfSome (map.get self.old.entries number) (λ s. IsVacant self.new s.place) }
    {
        if let Some(place) = seek(&self.rows, number, first) {
            self.rows[place.row].places[place.index].number = VACANT;
        }
    }
}

/// A row of vacant places. `AllocError` where there is no memory for it.
fn vacant<E: Copy>(alloc: Global, len: usize, filler: E) -> Result<Row<E>, AllocError>
    ensures { IfOk result (λ row. row.places.items ≡ replicate len (entry vacant_number filler)) }
{
    let mut places = Vec::with_capacity(alloc, len)?;
    for i in 0..len {
        // The invariant alone counts.
        let _ = i;
        places.push(Entry {
            number: VACANT,
            value: filler,
        })?;
    }
    Ok(Row { places, padding: 0 })
}
