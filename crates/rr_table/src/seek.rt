//! How the place of a number is found.

ghost use Rattle.std.specs.Prelude.{◌≡◌, ◌≢◌, is_some};
ghost use Rattle.rr_table.specs.Places.{of_number, places_of, rows_of, standing, vacant_number, IsIndexOf, IsPlaceOf};

use crate::place::Place;
use crate::table::{Entry, Row, VACANT};

/// Returns the entry of a number if it is in this place, or `None` if the place has another number, is vacant, or is
/// outside the rows.
///
/// Compares the number before it tests it for `VACANT`, so that a caller that asks twice tests it once.
#[inline(always)]
pub(crate) fn entry_at<E: Copy>(rows: &Vec<Row<E>>, number: u64, place: Place) -> Option<Entry<E>>
    ensures { result ≡ of_number number (standing (rows_of rows.now) place) }
{
    if place.row < rows.len() {
        if place.index < rows[place.row].places.len() {
            let entry = rows[place.row].places[place.index];
            if entry.number == number {
                if number != VACANT {
                    return Some(entry);
                }
            }
        }
    }
    None
}

/// Returns whether a number, which is not the vacant one, is in a place.
#[inline(always)]
pub(crate) fn is_number_at<E: Copy>(rows: &Vec<Row<E>>, number: u64, place: Place) -> bool
    requires { number ≢ vacant_number }
    ensures { result ≡ is_some (of_number number (standing (rows_of rows.now) place)) }
{
    if place.row < rows.len() {
        if place.index < rows[place.row].places.len() {
            return rows[place.row].places[place.index].number == number;
        }
    }
    false
}

/// Returns the place of a number: `first` if the number is in it, and otherwise the result of a search of the rows.
/// Returns `None` if no row has the number.
#[cold]
pub(crate) fn seek<E: Copy>(rows: &Vec<Row<E>>, number: u64, first: Place) -> Option<Place>
    ensures { IsPlaceOf (rows_of rows.now) number result }
{
    if entry_at(rows, number, first).is_some() {
        return Some(first);
    }
    for row in 0..rows.len() {
        if let Some(index) = seek_in_row(&rows[row], number) {
            return Some(Place { row, index });
        }
    }
    None
}

/// Returns the index of a number in one row, or `None` if the row doesn't have it.
fn seek_in_row<E: Copy>(row: &Row<E>, number: u64) -> Option<usize>
    ensures { IsIndexOf (places_of row.now) number result }
{
    if number == VACANT {
        return None;
    }
    for index in 0..row.places.len() {
        if row.places[index].number == number {
            return Some(index);
        }
    }
    None
}
