//! The last known places of handles.
ghost use Rattle.std.specs.Prelude.{◌≡◌, ◌%◌, ◌<◌, ℕ, true, IfSome, None, Some};
ghost use Rattle.rr_run.specs.Known.{Forgets, Remembers, SetsAside, place_of};

use rr_hub::HandleId;
use rr_table::Place;
use std::alloc::Global;
use std::collections::HashMap;

/// The place to try for a handle without a known place.
pub(crate) const SOMEWHERE: Place = Place { row: 0, index: 0 };

/// The number of spots for recent handles.
const SPOTS: usize = 16;

/// The last known place of a handle.
#[derive(Clone, Copy)]
pub(crate) struct Spot {
    number: u64,
    place: Place,
}

/// The last known places of handles, by number.
///
/// A place may be outdated, since a core checks it. A number without a place names no handle, unless a place was lost
/// for want of memory; from then on calls search the rows of the core's table.
///
/// Each number has a spot, which it shares with others and which holds the most recent handle. Most handles are
/// released before a later one takes their spot. Not in iceoryx2.
#[derive(Drop)]
pub(crate) struct Places {
    spots: [Option<Spot>; SPOTS],
    /// The places of handles that later ones displaced from their spots.
    others: HashMap<u64, Place>,
    /// Whether no place was lost.
    is_complete: bool,
}

/// Returns the index of a number's spot.
fn spot_of(number: u64) -> usize
    ensures value { result ≡ number % 16 }
    ensures within { result < 16 }
{
    (number % SPOTS as u64) as usize
}

impl Places {
    /// Makes an empty set of places.
    pub(crate) fn new(alloc: Global) -> Self
        ensures { (n : ℕ) → place_of result n ≡ None }
    {
        Places {
            spots: [None; SPOTS],
            others: HashMap::new(alloc),
            is_complete: true,
        }
    }

    /// Returns the id of the handle with this number, with its last known place. Returns `None` if it has no place
    /// and no place was lost.
    pub(crate) fn find(&self, number: u64) -> Option<HandleId>
        ensures id { IfSome result (λ id. id ≡ number) }
        ensures none { result ≡ None → (self.now.is_complete ≡ true) × (place_of self.now number ≡ None) }
    {
        if let Some(spot) = self.spots[spot_of(number)] {
            if spot.number == number {
                return Some(HandleId::new(number, spot.place));
            }
        }
        match self.others.get(&number) {
            Some(place) => Some(HandleId::new(number, *place)),
            None if self.is_complete => None,
            None => Some(HandleId::new(number, SOMEWHERE)),
        }
    }

    /// Records the place of a handle. A place that its spot held for another handle moves to the map, if there is
    /// memory for it.
    pub(crate) fn remember(&mut self, id: &HandleId)
        ensures { Remembers self.old (Some id.now) self.new }
    {
        let number = id.number();
        let index = spot_of(number);
        if let Some(spot) = self.spots[index] {
            if spot.number != number {
                self.set_aside(spot);
            }
        }
        self.spots[index] = Some(Spot {
            number,
            place: id.place(),
        });
    }

    /// Adds a place to the map, if there is memory for it.
    fn set_aside(&mut self, spot: Spot)
        ensures spots { self.new.spots ≡ self.old.spots }
        ensures others { SetsAside self.old spot.number self.new }
    {
        match self.others.insert(spot.number, spot.place) {
            Ok(_) => {}
            Err(_) => self.is_complete = false,
        }
    }

    /// Removes the place of a handle.
    pub(crate) fn forget(&mut self, number: u64)
        ensures { Forgets self.old number self.new }
    {
        let index = spot_of(number);
        if let Some(spot) = self.spots[index] {
            if spot.number == number {
                self.spots[index] = None;
            }
        }
        let _ = self.others.remove(&number);
    }
}
