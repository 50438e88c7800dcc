//! Changes of claims by calls of the ports.
ghost use Rattle.std.specs.Prelude.{◌≡◌, ◌∷◌, []};
ghost use Rattle.rr_shared_ports.specs.Words.{IsMade, IsReceived, IsSpent, IsTried, MakesFree, ReceivesFree, SpendsFree, TriesFree, TurnsFree};

use crate::{Claimed, Naming, Ports};
use rr_claims::{Claim, Keeper, Named, Says};
use rr_ports::{Handle, Refused};
use rr_protocol::Kind;
use std::marker::{Model, PhantomData};

/// The rule of a claim: its number names a port or a handle of its kind in the hub.
pub(crate) struct NamesKind;

impl<H: Ports> Says<H, Kind> for NamesKind {
    ghost says = { λ hub number kind. H.names hub number kind };
}

/// The keeper of the claims on a hub.
pub(crate) type HubKeeper<H> = Keeper<H, Kind, NamesKind>;

/// A handle, as the source of a claim's number and kind.
#[derive(Drop)]
struct Numbered<'a, A: Handle> {
    handle: &'a A,
}

impl<'a, A: Handle> Named<Kind> for Numbered<'a, A> {
    ghost number = { λ it. A.number it.handle.now };

    ghost what = { A.kind };
}

/// Claims the handle that a call made; all other claims stay.
pub(crate) fn granted<N: Naming, A: Handle, H: Ports>(
    hub: &H,
    keeper: &mut HubKeeper<H>,
    handle: A,
) -> Claimed<N, A>
    requires id { keeper.old.id ≡ N.keeper_id }
    requires keeps { H.steps [] keeper.old.state hub.now }
    requires free { H.is_free keeper.old.state (A.number handle) }
    requires kind { H.names hub.now (A.number handle) A.kind }
    ensures id { keeper.new.id ≡ keeper.old.id }
    ensures state { keeper.new.state ≡ hub.now }
    ensures number { result ≡ A.number handle }
{
    let claim = keeper.grant(hub, &Numbered { handle: &handle });
    Claimed {
        handle,
        claim,
        of: PhantomData,
    }
}

/// Keeps all claims after a call that made and ended no handle.
pub(crate) fn kept<H: Ports>(hub: &H, keeper: &mut HubKeeper<H>)
    requires keeps { H.steps [] keeper.old.state hub.now }
    ensures id { keeper.new.id ≡ keeper.old.id }
    ensures state { keeper.new.state ≡ hub.now }
{
    keeper.change(hub);
}

/// Keeps all claims after a call that changed the handle of `claim`.
pub(crate) fn renewed<H: Ports>(hub: &H, keeper: &mut HubKeeper<H>, claim: &Claim<Kind>)
    requires named { H.names keeper.old.state claim.now.number claim.now.what }
    requires keeps { H.steps (claim.now.number ∷ []) keeper.old.state hub.now }
    requires names { H.names hub.now claim.now.number claim.now.what }
    ensures id { keeper.new.id ≡ keeper.old.id }
    ensures state { keeper.new.state ≡ hub.now }
{
    keeper.change(hub);
}

/// Retires a claim after a call that ended its handle.
pub(crate) fn retired<H: Ports>(hub: &H, keeper: &mut HubKeeper<H>, claim: Claim<Kind>)
    requires id { claim.id ≡ keeper.old.id }
    requires keeps { H.steps (claim.number ∷ []) keeper.old.state hub.now }
    ensures id { keeper.new.id ≡ keeper.old.id }
    ensures state { keeper.new.state ≡ hub.now }
{
    keeper.retire(hub, claim);
}

/// Replaces a claim after a call that turned its handle into another.
pub(crate) fn exchanged<N: Naming, A: Handle, H: Ports>(
    hub: &H,
    keeper: &mut HubKeeper<H>,
    claim: Claim<Kind>,
    handle: A,
) -> Claimed<N, A>
    requires id { keeper.old.id ≡ N.keeper_id }
    requires claim { claim.id ≡ keeper.old.id }
    requires keeps { H.steps (claim.number ∷ []) keeper.old.state hub.now }
    requires same { A.number handle ≡ claim.number }
    requires kind { H.names hub.now (A.number handle) A.kind }
    ensures id { keeper.new.id ≡ keeper.old.id }
    ensures state { keeper.new.state ≡ hub.now }
    ensures number { result ≡ A.number handle }
{
    let claim = keeper.exchange(hub, claim, &Numbered { handle: &handle });
    Claimed {
        handle,
        claim,
        of: PhantomData,
    }
}

/// Claims the handle that a call made, if it succeeded.
pub(crate) fn granted_if<N: Naming, A: Handle, H: Ports, E>(
    hub: &H,
    keeper: &mut HubKeeper<H>,
    made: Result<A, E>,
) -> Result<Claimed<N, A>, E>
    requires id { keeper.old.id ≡ N.keeper_id }
    requires makes { MakesFree A.number A.kind H.steps H.is_free H.names keeper.old.state made hub.now }
    ensures id { keeper.new.id ≡ keeper.old.id }
    ensures state { keeper.new.state ≡ hub.now }
    ensures made { IsMade A.number made result }
{
    match made {
        Ok(made) => Ok(granted(hub, keeper, made)),
        Err(error) => {
            kept(hub, keeper);
            Err(error)
        }
    }
}

/// Claims the handle that a call received, if there is one.
pub(crate) fn granted_some<N: Naming, A: Handle, H: Ports, E>(
    hub: &H,
    keeper: &mut HubKeeper<H>,
    received: Result<Option<A>, E>,
) -> Result<Option<Claimed<N, A>>, E>
    requires id { keeper.old.id ≡ N.keeper_id }
    requires receives { ReceivesFree A.number A.kind H.steps H.is_free H.names keeper.old.state received hub.now }
    ensures id { keeper.new.id ≡ keeper.old.id }
    ensures state { keeper.new.state ≡ hub.now }
    ensures received { IsReceived A.number received result }
{
    match received {
        Ok(Some(made)) => Ok(Some(granted(hub, keeper, made))),
        Ok(None) => {
            kept(hub, keeper);
            Ok(None)
        }
        Err(error) => {
            kept(hub, keeper);
            Err(error)
        }
    }
}

/// Replaces a claim after a call that turned its handle into another, or retires it if the call ended the handle.
pub(crate) fn exchanged_if<N: Naming, A: Handle, H: Ports, E>(
    hub: &H,
    keeper: &mut HubKeeper<H>,
    claim: Claim<Kind>,
    made: Result<A, E>,
) -> Result<Claimed<N, A>, E>
    requires id { keeper.old.id ≡ N.keeper_id }
    requires claim { claim.id ≡ keeper.old.id }
    requires turns { TurnsFree A.number A.kind H.steps H.names claim.number keeper.old.state made hub.now }
    ensures id { keeper.new.id ≡ keeper.old.id }
    ensures state { keeper.new.state ≡ hub.now }
    ensures made { IsMade A.number made result }
{
    match made {
        Ok(made) => Ok(exchanged(hub, keeper, claim, made)),
        Err(error) => {
            retired(hub, keeper, claim);
            Err(error)
        }
    }
}

/// Replaces a claim after a call that turned its handle into another, or renews it if the call returned the handle.
pub(crate) fn exchanged_both<N: Naming, A: Handle, B: Handle, H: Ports, E>(
    hub: &H,
    keeper: &mut HubKeeper<H>,
    claim: Claim<Kind>,
    made: Result<B, Refused<A, E>>,
) -> Result<Claimed<N, B>, Refused<Claimed<N, A>, E>>
    requires id { keeper.old.id ≡ N.keeper_id }
    requires claim { claim.id ≡ keeper.old.id }
    requires tries { TriesFree A.number B.number A.kind B.kind H.steps H.names claim.number keeper.old.state made
        hub.now }
    ensures id { keeper.new.id ≡ keeper.old.id }
    ensures state { keeper.new.state ≡ hub.now }
    ensures tried { IsTried A.number B.number made result }
{
    match made {
        Ok(made) => Ok(exchanged(hub, keeper, claim, made)),
        Err(Refused { message, error }) => {
            let message = exchanged(hub, keeper, claim, message);
            Err(Refused { message, error })
        }
    }
}

/// Retires a claim after a call that ended its handle, or renews it if the call returned the handle.
pub(crate) fn retired_if<N: Naming, A: Handle, H: Ports, U, E>(
    hub: &H,
    keeper: &mut HubKeeper<H>,
    claim: Claim<Kind>,
    spent: Result<U, Refused<A, E>>,
) -> Result<U, Refused<Claimed<N, A>, E>>
    requires id { keeper.old.id ≡ N.keeper_id }
    requires claim { claim.id ≡ keeper.old.id }
    requires spends { SpendsFree A.number A.kind H.steps H.names claim.number keeper.old.state spent hub.now }
    ensures id { keeper.new.id ≡ keeper.old.id }
    ensures state { keeper.new.state ≡ hub.now }
    ensures spent { IsSpent A.number spent result }
{
    match spent {
        Ok(answer) => {
            retired(hub, keeper, claim);
            Ok(answer)
        }
        Err(Refused { message, error }) => {
            let message = exchanged(hub, keeper, claim, message);
            Err(Refused { message, error })
        }
    }
}
