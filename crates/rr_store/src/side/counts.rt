//! Counts of a sender's messages, and the marks of the servers that may answer.
ghost use Rattle.std.specs.Prelude.{◌≡◌, ◌+◌, ◌*◌, ◌<◌, ◌^◌, [], IsSomeAnd, length, slice_get, slice_index, slice_index_or, slice_set};
ghost use Rattle.rr_slots.specs.Elements.{option_elements};
ghost use Rattle.rr_sender.specs.Senders.{borrowed_at, content_at, uses};
ghost use Rattle.rr_store.specs.Clearing.{without_pending};
ghost use Rattle.rr_store.specs.Loaning.{with_one_loan, with_sender_at};
ghost use Rattle.rr_store.specs.Releasing.{borrow_given_back, without_loan, without_mark};
ghost use Rattle.rr_store.specs.Sending.{with_one_sent};
ghost use Rattle.rr_store.specs.Sides.{with_sender, with_sent};
ghost use Rattle.rr_store.specs.Views.{sender_of};

use crate::side::Side;
use crate::{ClientPort, NO_SERVER, RequestDetails};
use rr_slots::Body;

impl<B: Body, N: Copy, H: Drop, P: Drop> Side<B, N, H, P> {
    /// Returns which receiver of the other side the port of a sender is.
    #[inline(always)]
    pub fn receiver_of(&self, sender: usize) -> usize
        requires { sender < length self.now.senders }
        ensures { result ≡ (sender_of sender self.now.senders).receiver }
    {
        self.senders[sender].receiver
    }

    /// Returns whether the value of the port lives that sends from a sender.
    #[inline(always)]
    pub fn has_value(&self, sender: usize) -> bool
        requires { sender < length self.now.senders }
        ensures { result ≡ (sender_of sender self.now.senders).has_value }
    {
        self.senders[sender].has_value
    }

    /// Returns how many messages are on loan from a sender.
    #[inline(always)]
    pub fn loans(&self, sender: usize) -> usize
        requires { sender < length self.now.senders }
        ensures { result ≡ (sender_of sender self.now.senders).loans }
    {
        self.senders[sender].loans
    }

    /// Returns how many responses are pending of a sender.
    #[inline(always)]
    pub fn pendings(&self, sender: usize) -> usize
        requires { sender < length self.now.senders }
        ensures { result ≡ (sender_of sender self.now.senders).pendings }
    {
        self.senders[sender].pendings
    }

    /// Increments a sender's count of messages on loan.
    #[inline(always)]
    pub fn count_loan(&mut self, sender: usize)
        requires sender { sender < length self.old.senders }
        requires fits { (sender_of sender self.old.senders).loans + 1 < 2 ^ 64 }
        ensures { self.new ≡ with_sender self.old sender with_one_loan }
    {
        self.senders[sender].loans += 1;
    }

    /// Decrements a sender's count of messages on loan, and returns the receiver of its port.
    #[inline(always)]
    pub fn end_loan(&mut self, sender: usize) -> usize
        requires sender { sender < length self.old.senders }
        requires counted { 0 < (sender_of sender self.old.senders).loans }
        ensures receiver { result ≡ (sender_of sender self.old.senders).receiver }
        ensures counted { self.new ≡ with_sender self.old sender without_loan }
    {
        let lender = &mut self.senders[sender];
        lender.loans -= 1;
        lender.receiver
    }

    /// Moves a request of a sender from the count of loans to that of pending responses.
    #[inline(always)]
    pub fn count_as_sent(&mut self, sender: usize)
        requires sender { sender < length self.old.senders }
        requires loaned { 0 < (sender_of sender self.old.senders).loans }
        requires fits { (sender_of sender self.old.senders).pendings + 1 < 2 ^ 64 }
        ensures { self.new ≡ with_sender self.old sender with_one_sent }
    {
        let owned = &mut self.senders[sender];
        owned.loans -= 1;
        owned.pendings += 1;
    }

    /// Decrements a sender's count of pending responses, and returns the receiver of its port.
    #[inline(always)]
    pub fn end_pending(&mut self, sender: usize) -> usize
        requires sender { sender < length self.old.senders }
        requires counted { 0 < (sender_of sender self.old.senders).pendings }
        ensures receiver { result ≡ (sender_of sender self.old.senders).receiver }
        ensures counted { self.new ≡ with_sender self.old sender without_pending }
    {
        let owned = &mut self.senders[sender];
        owned.pendings -= 1;
        owned.receiver
    }

    /// Gives back a hold on a message that was received, and decrements the receiver's borrows from the channel. The
    /// elements are dropped with the last hold.
    #[inline(always)]
    pub fn end_borrow(&mut self, sender: usize, receiver: usize, channel: usize, slot: usize)
        requires sender { sender < length self.old.senders }
        requires queue { (receiver < length (sender_of sender self.old.senders).messages.queues)
            × (channel < length (slice_index_or (sender_of sender self.old.senders).messages.queues receiver [])) }
        requires counted { (0 < borrowed_at (sender_of sender self.old.senders).messages receiver channel)
            × (0 < slice_index (sender_of sender self.old.senders).messages.held slot) }
        ensures { self.new ≡ with_sent self.old sender (λ m. borrow_given_back m receiver channel slot) }
    {
        let messages = &mut self.senders[sender].messages;
        messages.end_borrow(receiver, channel);
        messages.give_back(slot);
    }

    /// Clears the mark by which a receiver, below `receivers`, may answer the message in a slot.
    #[inline(always)]
    pub fn clear_mark(&mut self, sender: usize, slot: usize, receivers: usize, receiver: usize)
        requires sender { sender < length self.old.senders }
        requires mark { slot * receivers + receiver < length (sender_of sender self.old.senders).may_answer }
        ensures { self.new ≡ with_sender self.old sender (without_mark (slot * receivers + receiver)) }
    {
        let marks = &mut self.senders[sender].may_answer;
        marks[slot * receivers + receiver] = NO_SERVER;
    }
}

impl<T: Drop, N: Copy, H: Drop, P: Drop> Side<Option<T>, N, H, P> {
    /// Gives back a hold on a message that was received, and decrements the receiver's borrows from the channel.
    /// Returns the element of the slot if that was its last hold, and otherwise `None`.
    #[inline(always)]
    pub fn end_borrow_taking(
        &mut self,
        sender: usize,
        receiver: usize,
        channel: usize,
        slot: usize,
    ) -> Option<T>
        requires sender { sender < length self.old.senders }
        requires queue { (receiver < length (sender_of sender self.old.senders).messages.queues)
            × (channel < length (slice_index_or (sender_of sender self.old.senders).messages.queues receiver [])) }
        requires counted { (0 < borrowed_at (sender_of sender self.old.senders).messages receiver channel)
            × (0 < slice_index (sender_of sender self.old.senders).messages.held slot) }
        ensures given { self.new ≡ with_sent self.old sender (λ m. borrow_given_back m receiver channel slot) }
        ensures taken { uses (sender_of sender self.old.senders).messages slot ≡ 1
            → option_elements result ≡ (content_at (sender_of sender self.old.senders).messages slot).elements }
    {
        let messages = &mut self.senders[sender].messages;
        messages.end_borrow(receiver, channel);
        messages.take_back(slot)
    }
}

impl<B: Body, H: Drop, K: Drop> Side<B, RequestDetails, H, ClientPort<K>> {
    /// Increments a sender's count of requests on loan, and the number of loans that the client at `index` has made.
    #[inline(always)]
    pub fn count_request_loan(&mut self, index: usize, sender: usize)
        requires client { IsSomeAnd (slice_get self.old.ports index) (λ c. c.loans_made + 1 < 2 ^ 64) }
        requires sender { sender < length self.old.senders }
        requires fits { (sender_of sender self.old.senders).loans + 1 < 2 ^ 64 }
        ensures { IsSomeAnd (slice_get self.old.ports index)
            (λ c. self.new ≡ record self.old {
              ports = slice_set self.old.ports index
                  (record c { loans_made = c.loans_made + 1 });
              senders = with_sender_at self.old.senders sender with_one_loan;
            }) }
    {
        self.ports[index].loans_made += 1;
        self.count_loan(sender);
    }
}
