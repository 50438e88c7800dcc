//! The keeper of a state, and of the claims on it.
ghost use Rattle.std.specs.Prelude.{◌≡◌, ℕ};
ghost use Rattle.rr_claims.specs.Cards.{IsClaimOf};

use crate::claim::Claim;
use crate::roster::Roster;
use crate::rules::{Named, Says};
use crate::shown::{Shown, Under};
use std::marker::{Model, PhantomData};

/// The claims on a state, kept beside it under a lock. Contracts see the keeper's identity and the state. It has no
/// bytes.
///
/// Every claim holds of the state at any time. So a change of the state must show that all claims still hold, except
/// for the claim on a number that the change gives back. Not in iceoryx2.
pub struct Keeper<S, W, P: Says<S, W>> {
    roster: Roster<W>,
    shown: Shown<S>,
    says: Under<P>,
}

impl<S, W, P: Says<S, W>> Model for Keeper<S, W, P> {
    ghost use Rattle.rr_claims.specs.Cards.{Card, card, card_coded, Holds};

    ghost Value = { Card S };

    ghost coded = { card_coded S.code };

    ghost view = { λ k. card k.roster.id k.shown.value };

    ghost invariant = { λ k. Holds P.says k.shown.value k.roster.puts };
}

impl<S, W, P: Says<S, W>> Keeper<S, W, P> {
    /// Makes the keeper of a state without claims. Not in iceoryx2.
    pub fn open(state: &S) -> Self
        ensures { result.state ≡ state.now }
    {
        Keeper {
            roster: Roster::new(),
            shown: Shown::of(state),
            says: Under {
                marker: PhantomData,
            },
        }
    }

    /// Proves that the content of a claim holds of the state. Changes nothing. Not in iceoryx2.
    pub fn look(&mut self, claim: &Claim<W>)
        requires { claim.now.id ≡ self.old.id }
        ensures same { self.new ≡ self.old }
        ensures holds { P.says self.old.state claim.now.number claim.now.what }
    {
        self.roster.read(claim);
    }

    /// Changes the state, and keeps everything true that could be claimed. Not in iceoryx2.
    pub fn change(&mut self, state: &S)
        requires stays { (n : ℕ) (w : W) → P.says self.old.state n w → P.says state.now n w }
        ensures id { self.new.id ≡ self.old.id }
        ensures state { self.new.state ≡ state.now }
    {
        self.shown = Shown::of(state);
    }

    /// Changes the state, and grants a claim on a number of which nothing could be claimed before. Not in iceoryx2.
    pub fn grant<A: Named<W>>(&mut self, state: &S, named: &A) -> Claim<W>
        requires stays { (n : ℕ) (w : W) → P.says self.old.state n w → P.says state.now n w }
        requires free { (w : W) → P.says self.old.state (A.number named.now) w → ⊥ }
        requires holds { P.says state.now (A.number named.now) A.what }
        ensures id { self.new.id ≡ self.old.id }
        ensures state { self.new.state ≡ state.now }
        ensures claim { IsClaimOf self.old.id (A.number named.now) A.what result }
    {
        self.shown = Shown::of(state);
        self.roster.add(named)
    }

    /// Takes a claim back, and changes the state, keeping everything true except for the claim's number. Not in
    /// iceoryx2.
    pub fn retire(&mut self, state: &S, claim: Claim<W>)
        requires claim { claim.id ≡ self.old.id }
        requires stays { (n : ℕ) (w : W) → (n ≡ claim.number → ⊥) → P.says self.old.state n w → P.says state.now n w }
        ensures id { self.new.id ≡ self.old.id }
        ensures state { self.new.state ≡ state.now }
    {
        self.shown = Shown::of(state);
        claim.leave(&mut self.roster);
    }

    /// Takes a claim back, changes the state, and grants another claim, on the same number or on one of which nothing
    /// could be claimed before. Not in iceoryx2.
    pub fn exchange<A: Named<W>>(&mut self, state: &S, claim: Claim<W>, named: &A) -> Claim<W>
        requires claim { claim.id ≡ self.old.id }
        requires stays { (n : ℕ) (w : W) → (n ≡ claim.number → ⊥) → P.says self.old.state n w → P.says state.now n w }
        requires free { (A.number named.now ≡ claim.number → ⊥) → (w : W)
            → P.says self.old.state (A.number named.now) w → ⊥ }
        requires holds { P.says state.now (A.number named.now) A.what }
        ensures id { self.new.id ≡ self.old.id }
        ensures state { self.new.state ≡ state.now }
        ensures claim { IsClaimOf self.old.id (A.number named.now) A.what result }
    {
        self.shown = Shown::of(state);
        let roster = &mut self.roster;
        claim.leave(roster);
        roster.add(named)
    }
}

impl<S, W, P: Says<S, W>> Drop for Keeper<S, W, P> {
    fn drop(self) {
        let Self {
            roster: _,
            shown: _,
            says: _,
        } = self;
    }
}
