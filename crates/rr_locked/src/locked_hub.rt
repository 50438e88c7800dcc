//! A book that threads share.
ghost use Rattle.std.specs.Prelude.{◌≡◌, [], length, IfSome};
ghost use Rattle.rr_locked.specs.Receipts.{joined};
ghost use Rattle.rr_locked.specs.Books.{IsWhole, CreatesLocked};

use crate::book::Book;
use crate::opening::Opening;
use crate::seat::{Seat, gather};
use rr_protocol::{HubCreateError, Limits, UniqueNodeId};
use std::alloc::Global;
use std::marker::Model;
use std::sync::ledger::{Blank, Ledger};
use std::sync::{Mutex, Wait};

/// A book under a lock, and beside it the book's opening. Contracts see its limits and its node id.
///
/// Threads share it by reference; each takes a seat, and submits commands by it. A seat is used with the hub that
/// made it. Not in iceoryx2.
///
/// # Examples
///
/// Makes a hub, creates a client, and ends the sharing (`rr_test_runs::tests::hubs::examples`):
///
/// ```
/// ghost use Rattle.std.specs.Prelude.{◌≡◌};
///
/// use rr_locked::{CREATE_CLIENT, LockedHub};
/// use rr_protocol::{Limits, UniqueNodeId};
/// use std::alloc::Global;
/// use std::sync::Wait;
/// use std::sync::ledger::{Blank, Ledger};
/// use std::test::Fail;
///
/// fn told<L: Ledger, R: Wait>(rt: &R, alloc: Global, blank: Blank) -> Result<usize, Fail>
///     requires name { blank.name ≡ L.name }
///     requires parts { blank.parts ≡ L.parts }
///     requires many { blank.parts ≡ 1048578 }
/// {
///     let hub = LockedHub::<L>::new(alloc, Limits::SMALLEST, UniqueNodeId(0), blank)?;
///     let mut seat = hub.seat(rt).ok_or("no seat")?;
///     let _ = hub.submit(rt, &mut seat, CREATE_CLIENT);
///     let book = hub.finish(Vec::from_array(alloc, [seat])?);
///     Ok(book.history().len())
/// }
/// ```
#[derive(Drop)]
pub struct LockedHub<L: Ledger> {
    pub(crate) inside: Mutex<Book<L>>,
    opening: Opening<L>,
}

impl<L: Ledger> Model for LockedHub<L> {
    ghost use Rattle.rr_locked.specs.Books.{Start, start};

    ghost Value = { Start };

    ghost view = { λ h. start h.opening.limits h.opening.node_id.0 };
}

impl<L: Ledger> LockedHub<L> {
    /// Makes a hub without ports, with an empty history. The blank must have `PARTS` parts, and is consumed even on
    /// an error. Takes no memory, so it never returns `OutOfMemory`. Not in iceoryx2.
    ///
    /// # Errors
    ///
    /// - `ZeroLimit` if a limit is below its least value.
    /// - `LimitsTooLarge` if a worst-case size overflows a `usize`.
    pub fn new(
        alloc: Global,
        limits: Limits,
        node_id: UniqueNodeId,
        blank: Blank,
    ) -> Result<LockedHub<L>, HubCreateError>
        requires name { blank.name ≡ L.name }
        requires parts { blank.parts ≡ L.parts }
        requires many { blank.parts ≡ 1048578 }
        ensures { CreatesLocked limits node_id.0 result }
    {
        let (book, opening) = Book::open(alloc, limits, node_id, blank)?;
        Ok(LockedHub {
            inside: Mutex::new(book),
            opening,
        })
    }

    /// Returns the limits that the hub was made with. Takes no lock.
    pub fn limits(&self) -> Limits
        ensures { result ≡ self.now.limits }
    {
        self.opening.limits
    }

    /// Returns the node id that the hub was made with. Takes no lock.
    pub fn node_id(&self) -> UniqueNodeId
        ensures { result.0 ≡ self.now.node_id }
    {
        self.opening.node_id
    }

    /// Makes a seat of this hub, without receipts. Returns `None` if `MOST_SEATS` seats were made. Takes the lock.
    pub fn seat(&self, rt: &impl Wait) -> Option<Seat<L>>
        ensures { IfSome result (λ s. s ≡ []) }
    {
        self.inside.lock(rt).seat()
    }

    /// Ends the sharing, and returns the book. If no seat is missing, the receipts of the seats are the entries of
    /// its history: each is in it at its place, no two have the same place, and their number is the history's length.
    /// Waits for nobody.
    pub fn finish(self, seats: Vec<Seat<L>>) -> Book<L>
        ensures { length seats.items ≡ result.made → IsWhole self (joined seats.items) result }
    {
        let LockedHub { inside, opening } = self;
        let Opening {
            limits: _,
            node_id: _,
            share,
        } = opening;
        let mut book = inside.into_inner();
        let all = gather(share, seats);
        book.settle(all);
        book
    }
}
