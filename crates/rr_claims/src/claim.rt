//! A claim on a number.
ghost use Rattle.std.specs.Prelude.{◌≡◌, ℕ, None};
ghost use denote.Sharing.{one};
ghost use Rattle.rr_claims.specs.Rosters.{claim_owns, claim_part};

use crate::roster::Roster;
use std::marker::{Model, PhantomData};

/// A claim on a number, with its content, of the state of one keeper. Contracts see the keeper's identity, the number
/// and the content. It has no bytes, and is kept beside the value that has the number.
///
/// A claim that is dropped is never given back: no other claim is granted on its number. Not in iceoryx2.
pub struct Claim<W> {
    pub(crate) marker: PhantomData<W>,
    pub ghost id: { ℕ },
    pub ghost number: { ℕ },
    pub ghost what: { W },
}

impl<W> Model for Claim<W> {
    ghost also_owns = { λ c. claim_owns W.row.coded.code c.id c.number c.what };

    ghost also_shares = { λ c _. one (claim_part W.row.coded.code c.id c.number c.what) };
}

impl<W> Claim<W> {
    ghost use Rattle.rr_claims.specs.Cards.{IsPut};

    /// Proves that two claims of one keeper are on two numbers. Changes nothing. Not in iceoryx2.
    pub fn differ(&mut self, other: &mut Claim<W>)
        requires { self.old.id ≡ other.old.id }
        ensures { (self.new ≡ self.old) × (other.new ≡ other.old) × (self.old.number ≡ other.old.number → ⊥) }
    {
        let _ = other;
    }

    /// Gives a claim back to its roster.
    pub(crate) fn leave(self, roster: &mut Roster<W>)
        requires { self.id ≡ roster.old.id }
        ensures { IsPut self.number None roster.old roster.new }
    {
        let Self { marker: _ } = self;
    }
}

impl<W> Drop for Claim<W> {
    fn drop(self) {
        let Self { marker: _ } = self;
    }
}

unsafe impl<W> Send for Claim<W> {}

unsafe impl<W> Sync for Claim<W> {}
