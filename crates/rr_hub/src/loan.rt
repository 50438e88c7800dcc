//! Loans.
ghost use Rattle.std.specs.Prelude.{◌≡◌, ◌≢◌, ◌<◌, None, Some, Err, IfOk, IsTrue};
ghost use Rattle.rr_slots.specs.Families.{takes_len};
ghost use Rattle.rr_protocol.specs.declared.kind.Kind.TheVariants as kind;
ghost use Rattle.rr_protocol.specs.Loans.{LoansRequest, LoansResponse};
ghost use Rattle.rr_protocol.specs.Queries.{kind_at};
ghost use Rattle.rr_protocol.specs.State.{numbers_left};
ghost use Rattle.rr_laws.specs.Unreduced.{ClientHasPool, ServerHasPool};

use crate::state::Core;
use rr_loaning::{loan_request, loan_response_at};
use rr_protocol::{BackpressureFn, LoanError};
use rr_slots::{Body, WriteBody};
use rr_store::HandleId;

impl<QB: WriteBody, QH: Default + Drop, PB: Body, PH: Default + Drop, K: BackpressureFn> Core<
    QB,
    QH,
    PB,
    PH,
    K,
> {
    /// Loans a request of `len` elements, a length that the body's family takes, from a client whose value lives. It
    /// has the next number, of which one remains, any free channel and a default user header. After iceoryx2's
    /// `Client::loan_uninit`.
    ///
    /// # Errors
    ///
    /// An error leaves the hub as it was.
    /// - `ExceedsMaxLoanSize` if a slice is longer than a static pool has room for.
    /// - `ExceedsMaxLoans` if the client has its maximum of requests on loan.
    /// - `OutOfMemory` if the client's live requests fill its pool, or there was no memory for a longer slice. Up to
    ///   the initial slice length a pool of the worst-case size never returns it.
    #[inline(always)]
    pub fn loan_request(&mut self, client: u64, len: usize) -> Result<HandleId, LoanError>
        requires kind { kind_at self.old client ≡ Some kind.Client }
        requires number { 0 < numbers_left self.old }
        requires len { IsTrue (takes_len QB.family len) }
        ensures loans { LoansRequest QH.is_default self.old client len result self.new }
        ensures unnamed { IfOk result (λ number. kind_at self.old number ≡ None) }
        ensures unreduced { ClientHasPool self.old.limits self.old client len → result ≢ Err LoanError.OutOfMemory }
    {
        loan_request(&mut self.parts, client, len)
    }
}

impl<QB: Body, QH: Default + Drop, PB: WriteBody, PH: Default + Drop, K: BackpressureFn> Core<
    QB,
    QH,
    PB,
    PH,
    K,
> {
    /// Loans a response of `len` elements, a length that the body's family takes, from an active request. It has the
    /// next number, of which one remains, a default user header, and the request's channel. After iceoryx2's
    /// `ActiveRequest::loan_uninit`.
    ///
    /// # Errors
    ///
    /// An error leaves the hub as it was.
    /// - `ExceedsMaxLoanSize` if a slice is longer than a static pool has room for.
    /// - `ExceedsMaxLoans` if the active request, or its server, has its maximum of responses on loan.
    /// - `OutOfMemory` if the server's live responses fill its pool, or there was no memory for a longer slice. Up to
    ///   the initial slice length a pool of the worst-case size never returns it.
    #[inline(always)]
    pub fn loan_response(&mut self, active: &HandleId, len: usize) -> Result<HandleId, LoanError>
        requires kind { kind_at self.old active.now ≡ Some kind.ActiveRequest }
        requires number { 0 < numbers_left self.old }
        requires len { IsTrue (takes_len PB.family len) }
        ensures loans { LoansResponse PH.is_default self.old active.now len result self.new }
        ensures unnamed { IfOk result (λ number. kind_at self.old number ≡ None) }
        ensures unreduced { ServerHasPool self.old.limits self.old active.now len
            → result ≢ Err LoanError.OutOfMemory }
    {
        let place = active.place();
        if self.parts.is_place_of(active.number(), place) {
            loan_response_at(&mut self.parts, active.number(), place, len)
        } else {
            let place = self.parts.locate(active);
            loan_response_at(&mut self.parts, active.number(), place, len)
        }
    }
}
