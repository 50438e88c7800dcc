//! Typed responses to a request.
#![tactic(auto, using(crate::proofs::Asking::asks), unfolding(crate::specs::Facts::Has, crate::specs::Facts::numbers_left))]

ghost use Rattle.std.specs.Prelude.{◌∷◌, ◌+◌, ◌≤◌, ◌<◌, ◌≢◌, ◌≡◌, Err, IfErr, IfOk, [], ℕ, List, OnOk, length, ◌++◌, suc};
ghost use Rattle.rr_protocol.specs.declared.kind.Kind.TheVariants as kind;
ghost use Rattle.rr_laws.specs.Unreduced.{ServerHasPool};
ghost use Rattle.rr_ports.specs.Facts.{AskedLen, Answers, Discards, Has, IsFree, Keeps, Names, WholePool, numbers_left, Of};
ghost use Rattle.rr_ports.specs.Owning.{KeepsOwned, Owns};
ghost use Rattle.rr_ports.specs.Queues.{Awaits, AwaitsNothing, KeepsAwaited, KeepsHeard};
ghost use Rattle.rr_ports.specs.Loaning.{SendsResponseCopy, LoansResponseComplete, IsOneDefault};
ghost use Rattle.rr_protocol.specs.Loans.{LoansResponse};

use crate::active_request::ActiveRequest;
use crate::hub::Hub;
use crate::response_mut::ResponseMut;
use crate::response_mut_uninit;
use crate::response_mut_uninit::ResponseMutUninit;
use rr_hub::{BackpressureFn, LoanError, SendError};
use rr_slots::Body;

impl<QB: Body> ActiveRequest<QB> {
    /// Loans a response whose payload is to be written, under the next number; at least one must be left. Takes no
    /// memory. After iceoryx2's `ActiveRequest::loan_uninit`.
    ///
    /// # Errors
    ///
    /// An error leaves the hub as it was.
    /// - `ExceedsMaxLoans` if the active request, or its server, has its maximum of responses on loan. Never if it is
    ///   the only live handle of its server (`few_loans`).
    /// - `OutOfMemory` if the server's live responses fill its pool. A pool of the worst-case size never returns it.
    #[inline(always)]
    pub fn loan_uninit<QH: Default + Drop, T: Drop, PH: Default + Drop, K: BackpressureFn>(
        &self,
        hub: &mut Hub<QB, QH, Option<T>, PH, K>,
    ) -> Result<ResponseMutUninit<Option<T>>, LoanError>
        requires kind { Names hub.old self.now kind.ActiveRequest }
        requires number { 0 < numbers_left hub.old }
        ensures loans { LoansResponse PH.is_default hub.old self.now 1 result hub.new }
        ensures unreduced { ServerHasPool hub.old.limits hub.old self.now 1 → result ≢ Err LoanError.OutOfMemory }
        ensures whole { (room : ℕ) → 1 ≤ room → Has hub.old self.now (WholePool room)
            → result ≢ Err LoanError.OutOfMemory }
        ensures free { IfOk result (λ response. IsFree [] hub.old response) }
        ensures kind { IfOk result (λ response. Names hub.new response kind.ResponseMutUninit) }
        ensures says { IfOk result (λ response. Has hub.new response (Answers [])) }
        ensures asked { IfOk result (λ response. Has hub.new response (AskedLen 1)) }
        ensures keeps { Keeps [] hub.old hub.new }
        ensures numbers { numbers_left hub.old ≤ numbers_left hub.new + 1 }
        ensures of { (port request : ℕ) → Has hub.old self.now (Of port request)
            → IfOk result (λ response. Has hub.new response (Of port request)) }
        ensures heard { KeepsHeard [] hub.old hub.new }
        ensures awaited { KeepsAwaited [] hub.old hub.new }
        ensures owned { (port request : ℕ) → Has hub.old self.now (Of port request)
            → KeepsOwned (port ∷ []) hub.old hub.new }
        ensures owns { (port request most : ℕ) → Has hub.old self.now (Of port request) → Owns hub.old port most
            → IfOk result (λ response. Owns hub.new port (suc most)) }
        ensures owns_err { IfErr result (λ error. KeepsOwned [] hub.old hub.new) }
        ensures few_loans { (port request : ℕ) → Has hub.old self.now (Of port request) → Owns hub.old port 1
            → result ≢ Err LoanError.ExceedsMaxLoans }
        ensures sure { (port request room : ℕ) → Has hub.old self.now (Of port request) → 1 ≤ room
            → Has hub.old self.now (WholePool room) → Owns hub.old port 1 → (error : _) → result ≢ Err error }
    {
        hub.core.reached();
        response_mut_uninit::loaned(hub.core.loan_response(&self.id, 1))
    }

    /// Loans a response with a default payload, which can be sent. Takes no memory. After iceoryx2's
    /// `ActiveRequest::loan`.
    ///
    /// # Errors
    ///
    /// As `loan_uninit`.
    #[inline(always)]
    pub fn loan<QH: Default + Drop, T: Default + Drop, PH: Default + Drop, K: BackpressureFn>(
        &self,
        hub: &mut Hub<QB, QH, Option<T>, PH, K>,
    ) -> Result<ResponseMut<Option<T>>, LoanError>
        requires kind { Names hub.old self.now kind.ActiveRequest }
        requires number { 0 < numbers_left hub.old }
        ensures loans { LoansResponseComplete PH.is_default (IsOneDefault T.is_default) hub.old self.now 1 result
            hub.new }
        ensures unreduced { ServerHasPool hub.old.limits hub.old self.now 1 → result ≢ Err LoanError.OutOfMemory }
        ensures whole { (room : ℕ) → 1 ≤ room → Has hub.old self.now (WholePool room)
            → result ≢ Err LoanError.OutOfMemory }
        ensures free { IfOk result (λ response. IsFree [] hub.old response) }
        ensures kind { IfOk result (λ response. Names hub.new response kind.ResponseMut) }
        ensures says { IfOk result (λ response. (value : T) × T.is_default value
            × Has hub.new response (Answers (value ∷ []))) }
        ensures keeps { Keeps [] hub.old hub.new }
        ensures numbers { numbers_left hub.old ≤ numbers_left hub.new + 1 }
        ensures of { (port request : ℕ) → Has hub.old self.now (Of port request)
            → IfOk result (λ response. Has hub.new response (Of port request)) }
        ensures heard { KeepsHeard [] hub.old hub.new }
        ensures awaited { KeepsAwaited [] hub.old hub.new }
        ensures owned { (port request : ℕ) → Has hub.old self.now (Of port request)
            → KeepsOwned (port ∷ []) hub.old hub.new }
        ensures owns { (port request most : ℕ) → Has hub.old self.now (Of port request) → Owns hub.old port most
            → IfOk result (λ response. Owns hub.new port (suc most)) }
        ensures owns_err { IfErr result (λ error. KeepsOwned [] hub.old hub.new) }
        ensures few_loans { (port request : ℕ) → Has hub.old self.now (Of port request) → Owns hub.old port 1
            → result ≢ Err LoanError.ExceedsMaxLoans }
        ensures sure { (port request room : ℕ) → Has hub.old self.now (Of port request) → 1 ≤ room
            → Has hub.old self.now (WholePool room) → Owns hub.old port 1 → (error : _) → result ≢ Err error }
    {
        let response = self.loan_uninit(hub)?;
        Ok(response.write_payload(hub, T::default()))
    }

    /// Loans a response, writes a value and sends it. `Ok` doesn't mean that a queue took it: `DiscardData` skips a
    /// full queue, and a response to a request that is no longer pending is dropped. Takes no memory. After
    /// iceoryx2's `ActiveRequest::send_copy`.
    ///
    /// # Errors
    ///
    /// - `LoanError(..)` as `loan_uninit`: a pool of the worst-case size never returns `OutOfMemory`. The hub stays
    ///   as it was, and the value is dropped.
    /// - `UnableToDeliver` as `ResponseMut::send`. The response is released, and the queue is unchanged.
    ///
    /// Never returned if the pool has the worst-case size, the server discards at full queues or no response is
    /// queued for the request, and the request is the only live handle of its server (`sure`, `sure_first`).
    ///
    /// # Examples
    ///
    /// Answers with twice what was asked, and ends the request (`rr_hello`):
    ///
    /// ```
    /// let asked = *active.payload(hub);
    /// let _ = active.send_copy(hub, asked.wrapping_mul(2));
    /// active.release(hub);
    /// ```
    #[inline(always)]
    pub fn send_copy<QH: Default + Drop, T: Drop, PH: Default + Drop, K: BackpressureFn>(
        &self,
        hub: &mut Hub<QB, QH, Option<T>, PH, K>,
        value: T,
    ) -> Result<(), SendError>
        requires kind { Names hub.old self.now kind.ActiveRequest }
        requires number { 0 < numbers_left hub.old }
        ensures sends { SendsResponseCopy PH.is_default K.action hub.old self.now value result hub.new }
        ensures unreduced { ServerHasPool hub.old.limits hub.old self.now 1
            → result ≢ Err (SendError.LoanError LoanError.OutOfMemory) }
        ensures whole { (room : ℕ) → 1 ≤ room → Has hub.old self.now (WholePool room)
            → result ≢ Err (SendError.LoanError LoanError.OutOfMemory) }
        ensures keeps { Keeps [] hub.old hub.new }
        ensures numbers { numbers_left hub.old ≤ numbers_left hub.new + 1 }
        ensures first { (server pending : ℕ) → Has hub.old self.now (Of server pending)
            → Names hub.old server kind.Server → AwaitsNothing hub.old pending
            → OnOk result (Awaits hub.new pending server ((value ∷ []) ∷ [])) }
        ensures next { (server pending : ℕ) (answers : List (List T)) → Has hub.old self.now (Of server pending)
            → Names hub.old server kind.Server → Awaits hub.old pending server answers
            → length answers < hub.old.limits.max_response_buffer_size
            → OnOk result (Awaits hub.new pending server (answers ++ (value ∷ []) ∷ [])) }
        ensures heard { (port request : ℕ) → Has hub.old self.now (Of port request) → Names hub.old port kind.Server
            → KeepsHeard [] hub.old hub.new }
        ensures awaited { (server pending : ℕ) → Has hub.old self.now (Of server pending)
            → Names hub.old server kind.Server → KeepsAwaited (pending ∷ []) hub.old hub.new }
        ensures refused { (server pending : ℕ) → Has hub.old self.now (Of server pending)
            → Names hub.old server kind.Server → IfErr result (λ error. KeepsAwaited [] hub.old hub.new) }
        ensures delivered { (server pending : ℕ) → Has hub.old self.now (Of server pending)
            → AwaitsNothing hub.old pending → result ≢ Err SendError.UnableToDeliver }
        ensures room { (server pending : ℕ) (answers : List (List T)) → Has hub.old self.now (Of server pending)
            → Awaits hub.old pending server answers → length answers < hub.old.limits.max_response_buffer_size
            → result ≢ Err SendError.UnableToDeliver }
        ensures discards { (port request : ℕ) → Has hub.old self.now (Of port request) → Has hub.old port Discards
            → result ≢ Err SendError.UnableToDeliver }
        ensures owned { (port request : ℕ) → Has hub.old self.now (Of port request) → KeepsOwned [] hub.old hub.new }
        ensures few_loans { (port request : ℕ) → Has hub.old self.now (Of port request) → Owns hub.old port 1
            → result ≢ Err (SendError.LoanError LoanError.ExceedsMaxLoans) }
        ensures sure { (port request room : ℕ) → Has hub.old self.now (Of port request) → 1 ≤ room
            → Has hub.old self.now (WholePool room) → Owns hub.old port 1 → Has hub.old port Discards → (error : _)
            → result ≢ Err error }
        ensures sure_first { (port request room : ℕ) → Has hub.old self.now (Of port request) → 1 ≤ room
            → Has hub.old self.now (WholePool room) → Owns hub.old port 1 → AwaitsNothing hub.old request
            → (error : _) → result ≢ Err error }
    {
        hub.core.reached();
        hub.core.send_response_copy(&self.id, value)
    }
}
