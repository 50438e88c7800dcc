//! The calls of seats. Each takes the lock once, and wakes the waiters whose waits it may have ended.
ghost use Rattle.std.specs.Prelude.{◌≡◌, ◌<◌, ◌∷◌, [], Option, Result};
ghost use Rattle.std.specs.Fn.{FnOnceReturnsAt, FnOnceReturnsAtMut, FnOnceTakesAt, FnOnceTakesAtMut};
ghost use Rattle.rr_shared_ports.specs.Words.{CanTake, IsMade, IsReceived, IsSpent, IsTried, MakesFree, ReceivesFree, SpendsFree, Takes, Tells, TriesFree, TurnsFree, MakesCall};

use crate::claims::{
    exchanged, exchanged_both, exchanged_if, granted_if, granted_some, kept, renewed, retired,
    retired_if,
};
use crate::desk::noted;
use crate::error::told;
use crate::waking::Change;
use crate::{CallError, Claimed, Naming, Ports, Seat, SharedPorts};
use rr_ports::{Handle, Refused};
use std::fmt::Display;
use std::sync::Wait;

impl<N: Naming, H: Ports> SharedPorts<N, H> {
    /// Creates a port, and claims it.
    #[inline(always)]
    pub(crate) fn created<B: Handle, E, F: FnOnce(&mut H) -> Result<B, E>>(
        &self,
        rt: &impl Wait,
        seat: &mut Seat<N, H>,
        f: F,
    ) -> Result<Claimed<N, B>, E>
        requires callable { (state : H) → FnOnceTakesAtMut F.FnOnce f state }
        requires makes { (state : H) → (made : Result B E) (after : H)
            → FnOnceReturnsAtMut F.FnOnce f state made after
            → MakesFree B.number B.kind H.steps H.is_free H.names state made after }
        ensures { MakesCall (H.empty N.limits N.node_id)
            (λ before after. (made : Result B E) × FnOnceReturnsAtMut F.FnOnce f before made after
            × IsMade B.number made result) seat.old seat.new }
    {
        let mut inside = self.inside.lock(rt);
        let desk = &mut *inside;
        let answer = f(&mut desk.ports);
        let answer = granted_if(&desk.ports, &mut desk.keeper, answer);
        noted(&desk.ports, &self.log, &mut desk.pen, seat);
        answer
    }

    /// Runs a call that only reads the hub.
    #[inline(always)]
    pub(crate) fn looked<A: Handle, U, F: FnOnce(&H) -> U>(
        &self,
        rt: &impl Wait,
        seat: &mut Seat<N, H>,
        claimed: &Claimed<N, A>,
        f: F,
    ) -> U
        requires callable { (state : H) → H.names state claimed.now A.kind → FnOnceTakesAt F.FnOnce f state }
        ensures { MakesCall (H.empty N.limits N.node_id)
            (λ before after. (after ≡ before) × (FnOnceReturnsAt F.FnOnce f before result)) seat.old seat.new }
    {
        let mut inside = self.inside.lock(rt);
        let desk = &mut *inside;
        desk.keeper.look(&claimed.claim);
        let answer = f(&desk.ports);
        noted(&desk.ports, &self.log, &mut desk.pen, seat);
        answer
    }

    /// Runs a call that changes the hub and ends no handle.
    #[inline(always)]
    pub(crate) fn changed<A: Handle, U, F: FnOnce(&mut H) -> U>(
        &self,
        rt: &impl Wait,
        seat: &mut Seat<N, H>,
        claimed: &Claimed<N, A>,
        changes: &[Change],
        f: F,
    ) -> U
        requires callable { (state : H) → H.names state claimed.now A.kind → FnOnceTakesAtMut F.FnOnce f state }
        requires keeps { (state : H) → (returned : U) (after : H) → FnOnceReturnsAtMut F.FnOnce f state returned after
            → H.steps [] state after }
        ensures { MakesCall (H.empty N.limits N.node_id)
            (λ before after. FnOnceReturnsAtMut F.FnOnce f before result after) seat.old seat.new }
    {
        let mut inside = self.inside.lock(rt);
        let desk = &mut *inside;
        desk.keeper.look(&claimed.claim);
        let answer = f(&mut desk.ports);
        kept(&desk.ports, &mut desk.keeper);
        noted(&desk.ports, &self.log, &mut desk.pen, seat);
        drop(inside);
        self.waking.wake(changes);
        answer
    }

    /// Runs a call that takes a number but leaves no new handle, if a number is left.
    #[inline(always)]
    pub(crate) fn numbered<A: Handle, U, E: Display, F: FnOnce(&mut H) -> Result<U, E>>(
        &self,
        rt: &impl Wait,
        seat: &mut Seat<N, H>,
        claimed: &Claimed<N, A>,
        changes: &[Change],
        f: F,
    ) -> Result<U, CallError<E>>
        requires callable { (state : H) → H.names state claimed.now A.kind → 0 < H.numbers state
            → FnOnceTakesAtMut F.FnOnce f state }
        requires keeps { (state : H) → (returned : Result U E) (after : H)
            → FnOnceReturnsAtMut F.FnOnce f state returned after → H.steps [] state after }
        ensures { MakesCall (H.empty N.limits N.node_id)
            (Tells H.numbers (λ answer before after. FnOnceReturnsAtMut F.FnOnce f before answer after) result)
            seat.old seat.new }
    {
        let mut inside = self.inside.lock(rt);
        let desk = &mut *inside;
        if desk.ports.numbers_left() == 0 {
            noted(&desk.ports, &self.log, &mut desk.pen, seat);
            return Err(CallError::NumbersExhausted);
        }
        desk.keeper.look(&claimed.claim);
        let answer = f(&mut desk.ports);
        kept(&desk.ports, &mut desk.keeper);
        noted(&desk.ports, &self.log, &mut desk.pen, seat);
        drop(inside);
        self.waking.wake(changes);
        told(answer)
    }

    /// Makes a handle, if a number is left, and claims it.
    #[inline(always)]
    pub(crate) fn made<A: Handle, B: Handle, E: Display, F: FnOnce(&mut H) -> Result<B, E>>(
        &self,
        rt: &impl Wait,
        seat: &mut Seat<N, H>,
        claimed: &Claimed<N, A>,
        changes: &[Change],
        f: F,
    ) -> Result<Claimed<N, B>, CallError<E>>
        requires callable { (state : H) → H.names state claimed.now A.kind → 0 < H.numbers state
            → FnOnceTakesAtMut F.FnOnce f state }
        requires makes { (state : H) → (made : Result B E) (after : H)
            → FnOnceReturnsAtMut F.FnOnce f state made after
            → MakesFree B.number B.kind H.steps H.is_free H.names state made after }
        ensures { MakesCall (H.empty N.limits N.node_id)
            (Tells H.numbers (λ answer before after. (made : Result B E)
            × FnOnceReturnsAtMut F.FnOnce f before made after × IsMade B.number made answer) result) seat.old seat.new }
    {
        let mut inside = self.inside.lock(rt);
        let desk = &mut *inside;
        if desk.ports.numbers_left() == 0 {
            noted(&desk.ports, &self.log, &mut desk.pen, seat);
            return Err(CallError::NumbersExhausted);
        }
        desk.keeper.look(&claimed.claim);
        let answer = f(&mut desk.ports);
        let answer = granted_if(&desk.ports, &mut desk.keeper, answer);
        noted(&desk.ports, &self.log, &mut desk.pen, seat);
        drop(inside);
        self.waking.wake(changes);
        told(answer)
    }

    /// Receives a handle, if a message is queued, and claims it.
    #[inline(always)]
    pub(crate) fn received<A: Handle, B: Handle, E, F: FnOnce(&mut H) -> Result<Option<B>, E>>(
        &self,
        rt: &impl Wait,
        seat: &mut Seat<N, H>,
        claimed: &Claimed<N, A>,
        changes: &[Change],
        f: F,
    ) -> Result<Option<Claimed<N, B>>, E>
        requires callable { (state : H) → H.names state claimed.now A.kind → FnOnceTakesAtMut F.FnOnce f state }
        requires receives { (state : H) → (received : Result (Option B) E) (after : H)
            → FnOnceReturnsAtMut F.FnOnce f state received after
            → ReceivesFree B.number B.kind H.steps H.is_free H.names state received after }
        ensures { MakesCall (H.empty N.limits N.node_id)
            (λ before after. (received : Result (Option B) E) × FnOnceReturnsAtMut F.FnOnce f before received after
            × IsReceived B.number received result) seat.old seat.new }
    {
        let mut inside = self.inside.lock(rt);
        let desk = &mut *inside;
        desk.keeper.look(&claimed.claim);
        let answer = f(&mut desk.ports);
        let answer = granted_some(&desk.ports, &mut desk.keeper, answer);
        noted(&desk.ports, &self.log, &mut desk.pen, seat);
        drop(inside);
        self.waking.wake(changes);
        answer
    }

    /// Runs a call that turns the handle into another kind, or consumes it on an error, and replaces its claim.
    #[inline(always)]
    pub(crate) fn turned<A: Handle, B: Handle, E, F: FnOnce(A, &mut H) -> Result<B, E>>(
        &self,
        rt: &impl Wait,
        seat: &mut Seat<N, H>,
        claimed: Claimed<N, A>,
        changes: &[Change],
        f: F,
    ) -> Result<Claimed<N, B>, E>
        requires callable { (state : H) → H.names state claimed A.kind → CanTake F.FnOnce A.number f claimed state }
        requires exchanges { (state : H) → (made : Result B E) (after : H)
            → Takes F.FnOnce A.number f claimed state made after
            → TurnsFree B.number B.kind H.steps H.names claimed state made after }
        ensures { MakesCall (H.empty N.limits N.node_id)
            (λ before after. (made : Result B E) × Takes F.FnOnce A.number f claimed before made after
            × IsMade B.number made result) seat.old seat.new }
    {
        let mut inside = self.inside.lock(rt);
        let desk = &mut *inside;
        let Claimed {
            handle,
            claim,
            of: _,
        } = claimed;
        desk.keeper.look(&claim);
        let answer = f(handle, &mut desk.ports);
        let answer = exchanged_if(&desk.ports, &mut desk.keeper, claim, answer);
        noted(&desk.ports, &self.log, &mut desk.pen, seat);
        drop(inside);
        self.waking.wake(changes);
        answer
    }

    /// Runs a call that consumes the handle, and retires its claim.
    #[inline(always)]
    pub(crate) fn ended<A: Handle, U, F: FnOnce(A, &mut H) -> U>(
        &self,
        rt: &impl Wait,
        seat: &mut Seat<N, H>,
        claimed: Claimed<N, A>,
        changes: &[Change],
        f: F,
    ) -> U
        requires callable { (state : H) → H.names state claimed A.kind → CanTake F.FnOnce A.number f claimed state }
        requires keeps { (state : H) → (returned : U) (after : H)
            → Takes F.FnOnce A.number f claimed state returned after → H.steps (claimed ∷ []) state after }
        ensures { MakesCall (H.empty N.limits N.node_id)
            (λ before after. Takes F.FnOnce A.number f claimed before result after) seat.old seat.new }
    {
        let mut inside = self.inside.lock(rt);
        let desk = &mut *inside;
        let Claimed {
            handle,
            claim,
            of: _,
        } = claimed;
        desk.keeper.look(&claim);
        let answer = f(handle, &mut desk.ports);
        retired(&desk.ports, &mut desk.keeper, claim);
        noted(&desk.ports, &self.log, &mut desk.pen, seat);
        drop(inside);
        self.waking.wake(changes);
        answer
    }

    /// Runs a call that turns the handle into another kind, and replaces its claim.
    #[inline(always)]
    pub(crate) fn became<A: Handle, B: Handle, F: FnOnce(A, &mut H) -> B>(
        &self,
        rt: &impl Wait,
        seat: &mut Seat<N, H>,
        claimed: Claimed<N, A>,
        f: F,
    ) -> Claimed<N, B>
        requires callable { (state : H) → H.names state claimed A.kind → CanTake F.FnOnce A.number f claimed state }
        requires exchanges { (state : H) → (made : B) (after : H) → Takes F.FnOnce A.number f claimed state made after
            → H.steps (claimed ∷ []) state after × (B.number made ≡ claimed) × H.names after (B.number made) B.kind }
        ensures { MakesCall (H.empty N.limits N.node_id)
            (λ before after. (made : B) × Takes F.FnOnce A.number f claimed before made after
            × (result ≡ B.number made)) seat.old seat.new }
    {
        let mut inside = self.inside.lock(rt);
        let desk = &mut *inside;
        let Claimed {
            handle,
            claim,
            of: _,
        } = claimed;
        desk.keeper.look(&claim);
        let answer = f(handle, &mut desk.ports);
        let answer = exchanged(&desk.ports, &mut desk.keeper, claim, answer);
        noted(&desk.ports, &self.log, &mut desk.pen, seat);
        answer
    }

    /// Receives a handle, if a number is left and a message is queued, and claims it.
    #[inline(always)]
    pub(crate) fn heard<
        A: Handle,
        B: Handle,
        E: Display,
        F: FnOnce(&mut H) -> Result<Option<B>, E>,
    >(
        &self,
        rt: &impl Wait,
        seat: &mut Seat<N, H>,
        claimed: &Claimed<N, A>,
        changes: &[Change],
        f: F,
    ) -> Result<Option<Claimed<N, B>>, CallError<E>>
        requires callable { (state : H) → H.names state claimed.now A.kind → 0 < H.numbers state
            → FnOnceTakesAtMut F.FnOnce f state }
        requires receives { (state : H) → (received : Result (Option B) E) (after : H)
            → FnOnceReturnsAtMut F.FnOnce f state received after
            → ReceivesFree B.number B.kind H.steps H.is_free H.names state received after }
        ensures { MakesCall (H.empty N.limits N.node_id)
            (Tells H.numbers (λ answer before after. (received : Result (Option B) E)
            × FnOnceReturnsAtMut F.FnOnce f before received after × IsReceived B.number received answer) result)
            seat.old seat.new }
    {
        let mut inside = self.inside.lock(rt);
        let desk = &mut *inside;
        if desk.ports.numbers_left() == 0 {
            noted(&desk.ports, &self.log, &mut desk.pen, seat);
            return Err(CallError::NumbersExhausted);
        }
        desk.keeper.look(&claimed.claim);
        let answer = f(&mut desk.ports);
        let answer = granted_some(&desk.ports, &mut desk.keeper, answer);
        noted(&desk.ports, &self.log, &mut desk.pen, seat);
        drop(inside);
        self.waking.wake(changes);
        told(answer)
    }

    /// Runs a call that changes a handle's message but not the handle's kind.
    #[inline(always)]
    pub(crate) fn rewritten<A: Handle, U, F: FnOnce(&mut H) -> U>(
        &self,
        rt: &impl Wait,
        seat: &mut Seat<N, H>,
        claimed: &Claimed<N, A>,
        f: F,
    ) -> U
        requires callable { (state : H) → H.names state claimed.now A.kind → FnOnceTakesAtMut F.FnOnce f state }
        requires rewrites { (state : H) → (returned : U) (after : H)
            → FnOnceReturnsAtMut F.FnOnce f state returned after
            → H.steps (claimed.now ∷ []) state after × H.names after claimed.now A.kind }
        ensures { MakesCall (H.empty N.limits N.node_id)
            (λ before after. FnOnceReturnsAtMut F.FnOnce f before result after) seat.old seat.new }
    {
        let mut inside = self.inside.lock(rt);
        let desk = &mut *inside;
        desk.keeper.look(&claimed.claim);
        let answer = f(&mut desk.ports);
        renewed(&desk.ports, &mut desk.keeper, &claimed.claim);
        noted(&desk.ports, &self.log, &mut desk.pen, seat);
        answer
    }

    /// Runs a call that turns the handle into another kind, or returns it with its error, and replaces its claim.
    #[inline(always)]
    pub(crate) fn tried<A: Handle, B: Handle, E, F: FnOnce(A, &mut H) -> Result<B, Refused<A, E>>>(
        &self,
        rt: &impl Wait,
        seat: &mut Seat<N, H>,
        claimed: Claimed<N, A>,
        changes: &[Change],
        f: F,
    ) -> Result<Claimed<N, B>, Refused<Claimed<N, A>, E>>
        requires callable { (state : H) → H.names state claimed A.kind → CanTake F.FnOnce A.number f claimed state }
        requires tries { (state : H) → (made : Result B (Refused A E)) (after : H)
            → Takes F.FnOnce A.number f claimed state made after
            → TriesFree A.number B.number A.kind B.kind H.steps H.names claimed state made after }
        ensures { MakesCall (H.empty N.limits N.node_id)
            (λ before after. (made : Result B (Refused A E)) × Takes F.FnOnce A.number f claimed before made after
            × IsTried A.number B.number made result) seat.old seat.new }
    {
        let mut inside = self.inside.lock(rt);
        let desk = &mut *inside;
        let Claimed {
            handle,
            claim,
            of: _,
        } = claimed;
        desk.keeper.look(&claim);
        let answer = f(handle, &mut desk.ports);
        let answer = exchanged_both(&desk.ports, &mut desk.keeper, claim, answer);
        noted(&desk.ports, &self.log, &mut desk.pen, seat);
        drop(inside);
        if answer.is_ok() {
            self.waking.wake(changes);
        }
        answer
    }

    /// Runs a call that consumes the handle, or returns it with its error; the claim goes with the handle.
    #[inline(always)]
    pub(crate) fn spent<A: Handle, U, E, F: FnOnce(A, &mut H) -> Result<U, Refused<A, E>>>(
        &self,
        rt: &impl Wait,
        seat: &mut Seat<N, H>,
        claimed: Claimed<N, A>,
        changes: &[Change],
        f: F,
    ) -> Result<U, Refused<Claimed<N, A>, E>>
        requires callable { (state : H) → H.names state claimed A.kind → CanTake F.FnOnce A.number f claimed state }
        requires spends { (state : H) → (spent : Result U (Refused A E)) (after : H)
            → Takes F.FnOnce A.number f claimed state spent after
            → SpendsFree A.number A.kind H.steps H.names claimed state spent after }
        ensures { MakesCall (H.empty N.limits N.node_id)
            (λ before after. (spent : Result U (Refused A E)) × Takes F.FnOnce A.number f claimed before spent after
            × IsSpent A.number spent result) seat.old seat.new }
    {
        let mut inside = self.inside.lock(rt);
        let desk = &mut *inside;
        let Claimed {
            handle,
            claim,
            of: _,
        } = claimed;
        desk.keeper.look(&claim);
        let answer = f(handle, &mut desk.ports);
        let answer = retired_if(&desk.ports, &mut desk.keeper, claim, answer);
        noted(&desk.ports, &self.log, &mut desk.pen, seat);
        drop(inside);
        if answer.is_ok() {
            self.waking.wake(changes);
        }
        answer
    }
}
