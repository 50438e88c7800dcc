//! Messages that are written and read in place.
ghost use Rattle.std.specs.Prelude.{◌≡◌, ◌⊎◌, IfOk, IfSome, IsSomeAnd, Some, length};
ghost use Rattle.rr_protocol.specs.declared.kind.Kind.TheVariants as kind;
ghost use Rattle.rr_protocol.specs.Queries.{kind_at};
ghost use Rattle.rr_protocol.specs.State.{handle_at};
ghost use Rattle.rr_protocol.specs.Refusals.{content_in};
ghost use Rattle.rr_bytes.specs.InPlace.{LoansInPlace};
ghost use Rattle.rr_bytes.specs.Receives.{Receives};

use crate::id::Id;
use crate::slices::Slices;
use rr_checked::Refusal;
use rr_hub::BackpressureFn;

impl<T: Copy + Default, H: Copy + Default, K: BackpressureFn> Slices<T, H, K> {
    /// Loans a message as `loan`, and makes it ready to send as `complete`, which never refuses it: `payload` lends
    /// as many elements as were loaned, for writing in place. After iceoryx2's `loan_slice_uninit` of both, and
    /// `payload_mut`.
    ///
    /// # Errors
    ///
    /// `Unknown`, `WrongKind`, `NumbersExhausted` and `Loan` as `loan`.
    pub fn loan_in_place(&mut self, id: &Id, len: usize) -> Result<Id, Refusal>
        ensures loans { LoansInPlace K.action T.is_default H.is_default self.old id.now.number len result self.new }
        ensures len { IfOk result (λ message. IsSomeAnd (handle_at self.new message.number)
            (λ handle. length (content_in handle).elements ≡ len)) }
        ensures kind { IfOk result (λ message. (kind_at self.new message.number ≡ Some kind.RequestMut)
            ⊎ (kind_at self.new message.number ≡ Some kind.ResponseMut)) }
    {
        let message = self.loan(id, len)?;
        self.core.reached();
        match self.complete(&message) {
            Ok(()) => Ok(message),
            Err(_) => unreachable!(),
        }
    }

    /// Receives as `receive`. The received message has a payload, which `payload` lends for reading in place. After
    /// iceoryx2's `receive` of both, and `payload`.
    ///
    /// # Errors
    ///
    /// `Unknown`, `WrongKind`, `NumbersExhausted` and `Receive` as `receive`.
    pub fn receive_in_place(&mut self, id: &Id) -> Result<Option<Id>, Refusal>
        ensures receives { Receives K.action T.is_default H.is_default self.old id.now.number result self.new }
        ensures kind { IfOk result (λ received. IfSome received
            (λ message. (kind_at self.new message.number ≡ Some kind.ActiveRequest)
            ⊎ (kind_at self.new message.number ≡ Some kind.Response))) }
    {
        let received = self.receive(id);
        self.core.reached();
        received
    }
}
