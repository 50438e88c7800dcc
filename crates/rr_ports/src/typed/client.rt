//! Loans and sends of a client, in the typed family.
#![tactic(auto, using(crate::proofs::Asking::asks), unfolding(crate::specs::Facts::Has, crate::specs::Facts::numbers_left))]

ghost use Rattle.std.specs.Prelude.{◌+◌, ◌≤◌, ◌<◌, ◌≢◌, Err, IfErr, IfOk, [], ℕ, ◌∷◌, suc};
ghost use Rattle.rr_protocol.specs.declared.kind.Kind.TheVariants as kind;
ghost use Rattle.rr_laws.specs.Unreduced.{ClientHasPool};
ghost use Rattle.rr_ports.specs.Facts.{AskedLen, Asks, Buffers, Discards, Has, IsFree, Keeps, Names, WholePool, numbers_left, Of};
ghost use Rattle.rr_ports.specs.Owning.{IsBelow, KeepsOwned, Owns};
ghost use Rattle.rr_ports.specs.Queues.{AwaitsNothing, Hears, HearsNothing, KeepsAwaited, KeepsHeard};
ghost use Rattle.rr_ports.specs.Shortcuts.{TellsCopy};
ghost use Rattle.rr_ports.specs.Loaning.{SendsCopy, LoansComplete, IsOneDefault};
ghost use Rattle.rr_protocol.specs.declared.error.SendError.TheVariants as send;
ghost use Rattle.rr_protocol.specs.Loans.{LoansRequest};

use crate::client::Client;
use crate::hub::Hub;
use crate::pending_response::PendingResponse;
use crate::request_mut::RequestMut;
use crate::request_mut_uninit::RequestMutUninit;
use crate::{pending_response, request_mut_uninit};
use rr_hub::{BackpressureFn, LoanError, RequestSendError};
use rr_slots::Body;

impl<T: Drop> Client<Option<T>> {
    /// Loans a request whose payload is to be written, under the next number; at least one must be left. Takes no
    /// memory. After iceoryx2's `Client::loan_uninit`.
    ///
    /// # Errors
    ///
    /// An error leaves the hub as it was.
    /// - `ExceedsMaxLoans` if the client has its maximum of requests on loan. Never if fewer of its handles live
    ///   (`few_loans`).
    /// - `OutOfMemory` if the client's live requests fill its pool. A pool of the worst-case size never returns it.
    #[inline(always)]
    pub fn loan_uninit<QH: Default + Drop, PB: Body, PH: Default + Drop, K: BackpressureFn>(
        &self,
        hub: &mut Hub<Option<T>, QH, PB, PH, K>,
    ) -> Result<RequestMutUninit<Option<T>>, LoanError>
        requires kind { Names hub.old self.now kind.Client }
        requires number { 0 < numbers_left hub.old }
        ensures loans { LoansRequest QH.is_default hub.old self.now 1 result hub.new }
        ensures unreduced { ClientHasPool hub.old.limits hub.old self.now 1 → result ≢ Err LoanError.OutOfMemory }
        ensures whole { (room : ℕ) → 1 ≤ room → Has hub.old self.now (WholePool room)
            → result ≢ Err LoanError.OutOfMemory }
        ensures free { IfOk result (λ request. IsFree [] hub.old request) }
        ensures kind { IfOk result (λ request. Names hub.new request kind.RequestMutUninit) }
        ensures says { IfOk result (λ request. Has hub.new request (Asks [])) }
        ensures asked { IfOk result (λ request. Has hub.new request (AskedLen 1)) }
        ensures keeps { Keeps [] hub.old hub.new }
        ensures numbers { numbers_left hub.old ≤ numbers_left hub.new + 1 }
        ensures of { IfOk result (λ request. Has hub.new request (Of self.now request)) }
        ensures heard { KeepsHeard [] hub.old hub.new }
        ensures awaited { KeepsAwaited [] hub.old hub.new }
        ensures owned { KeepsOwned (self.now ∷ []) hub.old hub.new }
        ensures owns { (most : ℕ) → Owns hub.old self.now most
            → IfOk result (λ request. Owns hub.new self.now (suc most)) }
        ensures owns_err { IfErr result (λ error. KeepsOwned [] hub.old hub.new) }
        ensures few_loans { (most : ℕ) → Owns hub.old self.now most → IsBelow most hub.old.limits.max_loaned_requests
            → result ≢ Err LoanError.ExceedsMaxLoans }
        ensures sure { (room : ℕ) → 1 ≤ room → Has hub.old self.now (WholePool room) → Owns hub.old self.now 0
            → (error : _) → result ≢ Err error }
    {
        hub.core.reached();
        request_mut_uninit::loaned(hub.core.loan_request(self.number, 1))
    }

    /// Loans a request with a default payload, which can be sent. Takes no memory. After iceoryx2's `Client::loan`.
    ///
    /// # Errors
    ///
    /// As `loan_uninit`.
    #[inline(always)]
    pub fn loan<QH: Default + Drop, PB: Body, PH: Default + Drop, K: BackpressureFn>(
        &self,
        hub: &mut Hub<Option<T>, QH, PB, PH, K>,
    ) -> Result<RequestMut<Option<T>>, LoanError>
    where
        T: Default,
        requires kind { Names hub.old self.now kind.Client }
        requires number { 0 < numbers_left hub.old }
        ensures loans { LoansComplete QH.is_default (IsOneDefault T.is_default) hub.old self.now 1 result hub.new }
        ensures unreduced { ClientHasPool hub.old.limits hub.old self.now 1 → result ≢ Err LoanError.OutOfMemory }
        ensures whole { (room : ℕ) → 1 ≤ room → Has hub.old self.now (WholePool room)
            → result ≢ Err LoanError.OutOfMemory }
        ensures free { IfOk result (λ request. IsFree [] hub.old request) }
        ensures kind { IfOk result (λ request. Names hub.new request kind.RequestMut) }
        ensures says { IfOk result (λ request. (value : T) × T.is_default value
            × Has hub.new request (Asks (value ∷ []))) }
        ensures keeps { Keeps [] hub.old hub.new }
        ensures numbers { numbers_left hub.old ≤ numbers_left hub.new + 1 }
        ensures of { IfOk result (λ request. Has hub.new request (Of self.now request)) }
        ensures heard { KeepsHeard [] hub.old hub.new }
        ensures awaited { KeepsAwaited [] hub.old hub.new }
        ensures owned { KeepsOwned (self.now ∷ []) hub.old hub.new }
        ensures owns { (most : ℕ) → Owns hub.old self.now most
            → IfOk result (λ request. Owns hub.new self.now (suc most)) }
        ensures owns_err { IfErr result (λ error. KeepsOwned [] hub.old hub.new) }
        ensures few_loans { (most : ℕ) → Owns hub.old self.now most → IsBelow most hub.old.limits.max_loaned_requests
            → result ≢ Err LoanError.ExceedsMaxLoans }
        ensures sure { (room : ℕ) → 1 ≤ room → Has hub.old self.now (WholePool room) → Owns hub.old self.now 0
            → (error : _) → result ≢ Err error }
    {
        let request = self.loan_uninit(hub)?;
        Ok(request.write_payload(hub, T::default()))
    }

    /// Loans a request, writes a value and sends it. With `DiscardData` full queues are skipped, and the send is
    /// `Ok`. Takes no memory. After iceoryx2's `Client::send_copy`.
    ///
    /// # Errors
    ///
    /// - `SendError(LoanError(..))` as `loan_uninit`: a pool of the worst-case size never returns `OutOfMemory`. The
    ///   hub stays as it was, and the value is dropped.
    /// - `ExceedsMaxActiveRequests` and `SendError(UnableToDeliver)` as `RequestMut::send`. The request is released.
    ///
    /// Never returned if the pool has the worst-case size, the client discards at full queues and none of its handles
    /// lives (`sure`).
    ///
    /// # Examples
    ///
    /// Sends a number, and waits for nothing (`rr_callers::telling`):
    ///
    /// ```
    /// let pending = client.send_copy(hub, value)?;
    /// pending.release(hub);
    /// ```
    #[inline(always)]
    pub fn send_copy<QH: Default + Drop, PB: Body, PH: Default + Drop, K: BackpressureFn>(
        &self,
        hub: &mut Hub<Option<T>, QH, PB, PH, K>,
        value: T,
    ) -> Result<PendingResponse<Option<T>>, RequestSendError>
        requires kind { Names hub.old self.now kind.Client }
        requires number { 0 < numbers_left hub.old }
        ensures sends { SendsCopy QH.is_default K.action hub.old self.now value result hub.new }
        ensures unreduced { ClientHasPool hub.old.limits hub.old self.now 1
            → result ≢ Err (RequestSendError.SendError (send.LoanError LoanError.OutOfMemory)) }
        ensures whole { (room : ℕ) → 1 ≤ room → Has hub.old self.now (WholePool room)
            → result ≢ Err (RequestSendError.SendError (send.LoanError LoanError.OutOfMemory)) }
        ensures free { IfOk result (λ pending. IsFree [] hub.old pending) }
        ensures kind { IfOk result (λ pending. Names hub.new pending kind.PendingResponse) }
        ensures says { IfOk result (λ pending. Has hub.new pending (Asks (value ∷ []))) }
        ensures keeps { Keeps [] hub.old hub.new }
        ensures numbers { numbers_left hub.old ≤ numbers_left hub.new + 1 }
        ensures of { IfOk result (λ pending. Has hub.new pending (Of self.now pending)) }
        ensures hears { (server : ℕ) → Names hub.old server kind.Server → HearsNothing hub.old server
            → IfOk result (λ pending. Hears hub.new server pending) }
        ensures awaits { IfOk result (λ pending. AwaitsNothing hub.new pending) }
        ensures awaited { KeepsAwaited [] hub.old hub.new }
        ensures refused { IfErr result (λ error. KeepsHeard [] hub.old hub.new) }
        ensures buffers { (port room : ℕ) → Has hub.old port (Buffers room)
            → IfOk result (λ pending. Has hub.new pending (Buffers room)) }
        ensures discards { Has hub.old self.now Discards → result
            ≢ Err (RequestSendError.SendError send.UnableToDeliver) }
        ensures owned { KeepsOwned (self.now ∷ []) hub.old hub.new }
        ensures owns { (most : ℕ) → Owns hub.old self.now most
            → IfOk result (λ pending. Owns hub.new self.now (suc most)) }
        ensures owns_err { IfErr result (λ error. KeepsOwned [] hub.old hub.new) }
        ensures few_loans { (most : ℕ) → Owns hub.old self.now most → IsBelow most hub.old.limits.max_loaned_requests
            → result ≢ Err (RequestSendError.SendError (send.LoanError LoanError.ExceedsMaxLoans)) }
        ensures few_active { (most : ℕ) → Owns hub.old self.now most
            → IsBelow most hub.old.limits.max_active_requests_per_client
            → result ≢ Err RequestSendError.ExceedsMaxActiveRequests }
        ensures sure { (room : ℕ) → 1 ≤ room → Has hub.old self.now (WholePool room) → Has hub.old self.now Discards
            → Owns hub.old self.now 0 → (error : _) → result ≢ Err error }
    {
        hub.core.reached();
        pending_response::sent(hub.core.send_request_copy(self.number, value))
    }

    /// Sends a value and waits for no answer: the pending response is released at once. Servers still receive the
    /// request if the limits allow fire-and-forget requests, and otherwise drop it. Takes no memory. Not in iceoryx2:
    /// `send_copy`, whose pending response is dropped.
    ///
    /// # Errors
    ///
    /// As `send_copy`.
    ///
    /// # Examples
    ///
    /// Tells a server two numbers (`rr_callers::draining`):
    ///
    /// ```
    /// client.tell(hub, one)?;
    /// client.tell(hub, two)?;
    /// ```
    #[inline(always)]
    pub fn tell<QH: Default + Drop, PB: Body, PH: Default + Drop, K: BackpressureFn>(
        &self,
        hub: &mut Hub<Option<T>, QH, PB, PH, K>,
        value: T,
    ) -> Result<(), RequestSendError>
        requires kind { Names hub.old self.now kind.Client }
        requires number { 0 < numbers_left hub.old }
        ensures tells { TellsCopy QH.is_default K.action hub.old self.now value result hub.new }
        ensures whole { (room : ℕ) → 1 ≤ room → Has hub.old self.now (WholePool room)
            → result ≢ Err (RequestSendError.SendError (send.LoanError LoanError.OutOfMemory)) }
        ensures keeps { Keeps [] hub.old hub.new }
        ensures numbers { numbers_left hub.old ≤ numbers_left hub.new + 1 }
        ensures awaited { KeepsAwaited [] hub.old hub.new }
        ensures refused { IfErr result (λ error. KeepsHeard [] hub.old hub.new) }
        ensures discards { Has hub.old self.now Discards → result
            ≢ Err (RequestSendError.SendError send.UnableToDeliver) }
        ensures owned { KeepsOwned [] hub.old hub.new }
        ensures few_loans { (most : ℕ) → Owns hub.old self.now most → IsBelow most hub.old.limits.max_loaned_requests
            → result ≢ Err (RequestSendError.SendError (send.LoanError LoanError.ExceedsMaxLoans)) }
        ensures few_active { (most : ℕ) → Owns hub.old self.now most
            → IsBelow most hub.old.limits.max_active_requests_per_client
            → result ≢ Err RequestSendError.ExceedsMaxActiveRequests }
        ensures sure { (room : ℕ) → 1 ≤ room → Has hub.old self.now (WholePool room) → Has hub.old self.now Discards
            → Owns hub.old self.now 0 → (error : _) → result ≢ Err error }
    {
        match self.send_copy(hub, value) {
            Ok(pending) => {
                pending.release(hub);
                Ok(())
            }
            Err(error) => Err(error),
        }
    }
}
