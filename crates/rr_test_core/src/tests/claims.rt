//! Claims on places of a row, of which the first ones are taken.
ghost use Rattle.std.specs.Prelude.{◌≡◌, ℕ, ◌<◌, ◌-◌};

use rr_claims::{Claim, Keeper, Named, Says};

/// The kinds of claims on a number.
pub enum Kind {
    /// It is that of a place that is taken.
    Taken,
}

/// A place of a row is claimed if it is below the row's length.
pub struct InRow;

impl Says<u64, Kind> for InRow {
    ghost use Rattle.std.specs.Prelude.{◌<◌};

    ghost says = { λ length number kind. number < length };
}

/// A place of a row.
pub struct Place {
    number: u64,
}

impl Named<Kind> for Place {
    ghost use Rattle.rr_test_core.specs.declared.tests.claims.Kind.TheVariants.{Taken};

    ghost number = { λ place. place.number };

    ghost what = { Taken };
}

/// Returns how many places of a row follow a claimed one. Only the claim says that the place is in the row.
fn places_after(
    keeper: &mut Keeper<u64, Kind, InRow>,
    length: u64,
    claim: &Claim<Kind>,
    number: u64,
) -> u64
    requires claim { (claim.now.id ≡ keeper.old.id) × (claim.now.number ≡ number) }
    requires state { keeper.old.state ≡ length }
    ensures same { keeper.new ≡ keeper.old }
    ensures places { result ≡ length - number - 1 }
{
    keeper.look(claim);
    length - number - 1
}

/// Claims two places, one of them in exchange for another, and gives it back. Returns how many followed the first
/// before and afterwards.
fn two_places() -> (u64, u64)
    ensures { result ≡ (2, 4) }
{
    let mut keeper = Keeper::open(&0);
    let mut first = keeper.grant(&1, &Place { number: 0 });
    let second = keeper.grant(&2, &Place { number: 1 });
    let mut third = keeper.exchange(&3, second, &Place { number: 2 });
    first.differ(&mut third);
    let before = places_after(&mut keeper, 3, &first, 0);
    keeper.retire(&2, third);
    keeper.change(&5);
    (before, places_after(&mut keeper, 5, &first, 0))
}

#[test]
fn a_claim_stays_while_another_is_given_back(rt: HostRuntime) {
    assert_eq!(rt; two_places(), (2, 4));
}
