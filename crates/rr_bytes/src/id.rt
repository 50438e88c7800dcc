//! The id by which a caller names a port or a handle.
ghost use Rattle.std.specs.Prelude.{◌≡◌};

use rr_hub::HandleId;
use rr_table::Place;

/// The number of a port or a handle, and the place to try first for a handle. Not in iceoryx2.
///
/// Any values may be passed: a wrong number names nothing or something else, and a wrong place costs a search of the
/// handles.
#[repr(C)]
#[derive(Clone, Copy, Debug, PartialEq, Eq)]
pub struct Id {
    /// Its number.
    pub number: u64,
    /// The row of a handle's place; 0 of a port.
    pub row: usize,
    /// The index in that row; 0 of a port.
    pub index: usize,
}

impl Id {
    /// Returns the id of a handle.
    #[inline(always)]
    pub(crate) fn of(handle: &HandleId) -> Id
        ensures { result.number ≡ handle.now }
    {
        let place = handle.place();
        Id {
            number: handle.number(),
            row: place.row,
            index: place.index,
        }
    }

    /// Returns the id of a port.
    #[inline(always)]
    pub(crate) fn of_port(number: u64) -> Id
        ensures { result.number ≡ number }
    {
        Id {
            number,
            row: 0,
            index: 0,
        }
    }

    /// Returns the handle that this may name.
    #[inline(always)]
    pub(crate) fn handle(&self) -> HandleId
        ensures { result ≡ self.now.number }
    {
        HandleId::new(
            self.number,
            Place {
                row: self.row,
                index: self.index,
            },
        )
    }
}
