//! The claim on each number.
ghost use Rattle.std.specs.Prelude.{◌≡◌, ℕ, [], List, Option, Some, None};
ghost use Rattle.rr_claims.specs.Rosters.{puts_coded, put_at, roster_owns};

use crate::claim::Claim;
use crate::rules::Named;
use std::marker::{Model, PhantomData};

/// The claim on each number, the one that was put last. It has no bytes.
pub(crate) struct Roster<W> {
    marker: PhantomData<W>,
    pub(crate) ghost id: { ℕ },
    pub(crate) ghost puts: { List (ℕ × Option W) } by { puts_coded W.code },
}

impl<W> Model for Roster<W> {
    ghost also_owns = { λ r. roster_owns W.row.coded.code r.id r.puts };
}

impl<W> Roster<W> {
    ghost use Rattle.rr_claims.specs.Cards.{IsClaimOf, IsPut};

    /// Makes a roster in which nothing is claimed.
    pub(crate) fn new() -> Roster<W>
        ensures { result.puts ≡ [] }
    {
        Roster {
            marker: PhantomData,
        }
    }

    /// Proves that the roster has the claim.
    pub(crate) fn read(&mut self, claim: &Claim<W>)
        requires { claim.now.id ≡ self.old.id }
        ensures { (self.new ≡ self.old) × (put_at self.old.puts claim.now.number ≡ Some claim.now.what) }
    {
        let _ = claim;
    }

    /// Adds a claim on a number on which there is none.
    pub(crate) fn add<A: Named<W>>(&mut self, named: &A) -> Claim<W>
        requires { put_at self.old.puts (A.number named.now) ≡ None }
        ensures { IsPut (A.number named.now) (Some A.what) self.old self.new
            × IsClaimOf self.old.id (A.number named.now) A.what result }
    {
        let _ = named;
        Claim {
            marker: PhantomData,
        }
    }
}

unsafe impl<W> Send for Roster<W> {}

unsafe impl<W> Sync for Roster<W> {}

impl<W> Drop for Roster<W> {
    fn drop(self) {
        let Self { marker: _ } = self;
    }
}
