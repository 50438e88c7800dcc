//! Entries that wait, are looked for, taken, and dropped.
ghost use Rattle.std.specs.Prelude.{◌≡◌, ◌+◌, ◌*◌, ◌<◌, ◌≤◌, ◌^◌, ◌↔◌, ℕ, [], IfNone, IfSome, IsTrue, Ok, Some, length, map, slice_get, slice_index, slice_index_or, not};
ghost use Rattle.rr_sender.specs.Senders.{uses};
ghost use Rattle.rr_store.specs.Asked.{CanTake};
ghost use Rattle.rr_store.specs.Delivering.{HasQueue, handed_on};
ghost use Rattle.rr_store.specs.Ports.{server_part, sender_part};
ghost use Rattle.rr_store.specs.Draining.{HaveQueues};
ghost use Rattle.rr_store.specs.KnownWaiting.{IsNextWaiting};
ghost use Rattle.rr_store.specs.Receiving.{HaveChannels, IsNextFrom, IsNextSender, borrowed_from, queue_from};
ghost use Rattle.rr_store.specs.Sending.{HasQueues, after_queued};
ghost use Rattle.rr_store.specs.Sides.{with_channel_emptied, with_first_taken, with_sender, with_sent};
ghost use Rattle.rr_store.specs.Views.{sender_of};
ghost use Rattle.rr_store.specs.Waiting.{has_entry};
ghost use Rattle.rr_store.specs.Clearing.{channel_cleared};

use crate::ServerPort;
use crate::side::Side;
use rr_protocol::ReceiveError;
use rr_slots::Body;

impl<B: Body, N: Copy, H: Drop, P: Drop> Side<B, N, H, P> {
    /// Returns whether a message is queued for a receiver on a channel. Reads each marked sender at most once.
    #[inline(always)]
    pub fn is_waiting(&self, receiver: usize, channel: usize) -> bool
        requires receiver { HaveQueues self.now.senders receiver }
        requires channel { HaveChannels self.now.senders receiver channel }
        ensures { result ≡ has_entry receiver channel self.now.senders }
    {
        let mut start = 0;
        while let Some(sender) = self.next_waiting(receiver, channel, start) {
            if self.has_entries(sender, receiver, channel) {
                return true;
            }
            start = sender + 1;
        }
        false
    }

    /// Returns the first sender at or after `from` that may have an entry for a receiver on a channel: if there are
    /// several senders, the first marked one.
    #[inline(always)]
    pub(crate) fn next_waiting(&self, receiver: usize, channel: usize, from: usize) -> Option<usize>
        requires receiver { HaveQueues self.now.senders receiver }
        requires channel { HaveChannels self.now.senders receiver channel }
        ensures next { IsNextWaiting self.now.senders receiver channel from result }
        ensures fits { IfSome result (λ sender. sender + 1 < 2 ^ 64) }
    {
        let count = self.senders.len();
        if 1 < count {
            return self.next_noted(receiver, channel, from);
        }
        if from < count { Some(from) } else { None }
    }

    /// Returns the first marked sender at or after `from`, if there are several senders.
    #[cold]
    fn next_noted(&self, receiver: usize, channel: usize, from: usize) -> Option<usize>
        requires several { 1 < length self.now.senders }
        requires receiver { HaveQueues self.now.senders receiver }
        requires channel { HaveChannels self.now.senders receiver channel }
        ensures next { IsNextWaiting self.now.senders receiver channel from result }
        ensures fits { IfSome result (λ sender. sender + 1 < 2 ^ 64) }
    {
        self.waiting.next_from(receiver, channel, from)
    }

    /// Returns `true` if the one word that it reads shows that nothing is queued for a receiver on a channel. There
    /// must be several senders.
    #[inline(always)]
    pub fn is_idle(&self, receiver: usize, channel: usize) -> bool
        requires several { 1 < length self.now.senders }
        requires receiver { HaveQueues self.now.senders receiver }
        requires channel { HaveChannels self.now.senders receiver channel }
        ensures { IsTrue result → (sender : ℕ) → sender < length self.now.senders
            → queue_from self.now.senders receiver channel sender ≡ [] }
    {
        self.waiting.is_known_empty(receiver, channel)
    }

    /// Returns the first marked sender at or after `from`, wrapping around to the start, if there are several
    /// senders. Returns `None` if no sender is marked; nothing is queued then.
    #[inline(always)]
    pub fn next_around(&self, receiver: usize, channel: usize, from: usize) -> Option<usize>
        requires several { 1 < length self.now.senders }
        requires receiver { HaveQueues self.now.senders receiver }
        requires channel { HaveChannels self.now.senders receiver channel }
        ensures there { IfSome result (λ sender. sender < length self.now.senders) }
        ensures idle { IfNone result ((sender : ℕ) → sender < length self.now.senders
            → queue_from self.now.senders receiver channel sender ≡ []) }
    {
        self.waiting.next_around(receiver, channel, from)
    }

    /// Returns `sender` if it has an entry for a receiver on a channel and the receiver borrows fewer than `most`
    /// from it.
    #[inline(always)]
    pub fn ready_at(
        &self,
        sender: usize,
        receiver: usize,
        channel: usize,
        most: usize,
    ) -> Option<usize>
        requires sender { sender < length self.now.senders }
        requires receiver { HaveQueues self.now.senders receiver }
        requires channel { HaveChannels self.now.senders receiver channel }
        ensures { IfSome result (λ sender. IsNextSender self.now.senders receiver channel most (Ok (Some sender))) }
    {
        if self.has_entries(sender, receiver, channel)
            && self.borrowed(sender, receiver, channel) < most
        {
            return Some(sender);
        }
        None
    }

    /// Returns `sender` if it has an entry on `channel` and the receiver borrows fewer than `most` from it. Otherwise
    /// clears the sender's bit if its queue is empty. There must be several senders.
    #[inline(always)]
    pub fn ready_or_forgotten(
        &mut self,
        sender: usize,
        receiver: usize,
        channel: usize,
        most: usize,
    ) -> Option<usize>
        requires several { 1 < length self.old.senders }
        requires sender { sender < length self.old.senders }
        requires receiver { HaveQueues self.old.senders receiver }
        requires channel { HaveChannels self.old.senders receiver channel }
        ensures kept { self.new ≡ self.old }
        ensures ready { IfSome result (λ sender. IsNextSender self.old.senders receiver channel most
            (Ok (Some sender))) }
    {
        let ready = self.ready_at(sender, receiver, channel, most);
        if ready.is_none() {
            self.forget_empty(sender, receiver, channel);
        }
        ready
    }

    /// Returns whether a sender has something queued for a receiver on a channel.
    #[inline(always)]
    pub(crate) fn has_entries(&self, sender: usize, receiver: usize, channel: usize) -> bool
        requires sender { sender < length self.now.senders }
        requires receiver { HaveQueues self.now.senders receiver }
        requires channel { HaveChannels self.now.senders receiver channel }
        ensures { IsTrue result ↔ (0 < length (queue_from self.now.senders receiver channel sender)) }
    {
        self.senders[sender].messages.has_entries(receiver, channel)
    }

    /// Returns how many a receiver has from a sender on a channel.
    #[inline(always)]
    pub(crate) fn borrowed(&self, sender: usize, receiver: usize, channel: usize) -> usize
        requires sender { sender < length self.now.senders }
        requires receiver { HaveQueues self.now.senders receiver }
        requires channel { HaveChannels self.now.senders receiver channel }
        ensures { result ≡ borrowed_from self.now.senders receiver channel sender }
    {
        self.senders[sender].messages.borrowed(receiver, channel)
    }

    /// Returns the first sender at or after `from` that has an entry for a receiver on a channel and from which the
    /// receiver borrows fewer than `most`. Returns `None` if none of them has an entry. Polls the marked senders
    /// only.
    ///
    /// # Errors
    ///
    /// - `ExceedsMaxBorrows` if every queue with entries is at its borrow limit.
    #[inline(always)]
    pub fn next_sender(
        &self,
        receiver: usize,
        channel: usize,
        most: usize,
        from: usize,
    ) -> Result<Option<usize>, ReceiveError>
        requires receiver { HaveQueues self.now.senders receiver }
        requires channel { HaveChannels self.now.senders receiver channel }
        ensures { IsNextFrom from self.now.senders receiver channel most result }
    {
        let mut is_at_limit = false;
        let mut start = from;
        while let Some(sender) = self.next_waiting(receiver, channel, start) {
            if self.has_entries(sender, receiver, channel) {
                if self.borrowed(sender, receiver, channel) < most {
                    return Ok(Some(sender));
                }
                is_at_limit = true;
            }
            start = sender + 1;
        }
        if is_at_limit {
            return Err(ReceiveError::ExceedsMaxBorrows);
        }
        Ok(None)
    }

    /// Returns sender 0, the only one, if it has an entry for a receiver on a channel and the receiver borrows fewer
    /// than `most` from it. Returns `None` if it has no entry, or there is no sender.
    ///
    /// # Errors
    ///
    /// - `ExceedsMaxBorrows` if the queue has an entry but is at its borrow limit.
    #[inline(always)]
    pub fn only_sender(
        &self,
        receiver: usize,
        channel: usize,
        most: usize,
    ) -> Result<Option<usize>, ReceiveError>
        requires only { length self.now.senders ≤ 1 }
        requires receiver { HaveQueues self.now.senders receiver }
        requires channel { HaveChannels self.now.senders receiver channel }
        ensures { IsNextSender self.now.senders receiver channel most result }
    {
        if self.sender_count() == 0 || !self.has_entries(0, receiver, channel) {
            return Ok(None);
        }
        if self.borrowed(0, receiver, channel) < most {
            return Ok(Some(0));
        }
        Err(ReceiveError::ExceedsMaxBorrows)
    }

    /// Takes the oldest entry out of a queue, and returns its slot.
    #[inline(always)]
    pub fn take(&mut self, sender: usize, receiver: usize, channel: usize) -> usize
        requires { CanTake self.old.senders sender receiver channel }
        ensures first { slice_get (queue_from self.old.senders receiver channel sender) 0 ≡ Some result }
        ensures within { result < length (sender_of sender self.old.senders).messages.held }
        ensures taken { self.new ≡ with_first_taken self.old sender receiver channel result }
    {
        let slot = self.take_first(sender, receiver, channel);
        self.forget_if_empty(sender, receiver, channel);
        slot
    }

    /// Takes the oldest entry out of a queue, and returns its slot. Its sender stays marked.
    #[inline(always)]
    pub fn take_first(&mut self, sender: usize, receiver: usize, channel: usize) -> usize
        requires { CanTake self.old.senders sender receiver channel }
        ensures first { slice_get (queue_from self.old.senders receiver channel sender) 0 ≡ Some result }
        ensures within { result < length (sender_of sender self.old.senders).messages.held }
        ensures taken { self.new ≡ with_first_taken self.old sender receiver channel result }
    {
        self.senders[sender].messages.take(receiver, channel)
    }

    /// Clears the bit of the sender served last, the one before `turn`, if its queue is now empty and it is not the
    /// next one to be polled.
    #[inline(always)]
    pub fn forget_before(&mut self, receiver: usize, channel: usize, turn: usize, next: usize)
        requires receiver { HaveQueues self.old.senders receiver }
        requires channel { HaveChannels self.old.senders receiver channel }
        ensures { self.new ≡ self.old }
    {
        let last = turn.wrapping_sub(1);
        if last != next && last < self.senders.len() {
            self.forget_if_empty(last, receiver, channel);
        }
    }

    /// Clears a sender's bit for a receiver on a channel if the queue is empty. A single sender has no bit.
    #[inline(always)]
    pub fn forget_if_empty(&mut self, sender: usize, receiver: usize, channel: usize)
        requires sender { sender < length self.old.senders }
        requires receiver { receiver < length (sender_of sender self.old.senders).messages.queues }
        requires channel { channel < length (slice_index_or (sender_of sender self.old.senders).messages.queues
            receiver []) }
        ensures { self.new ≡ self.old }
    {
        if 1 < self.senders.len() {
            self.forget_empty(sender, receiver, channel);
        }
    }

    /// Clears a sender's bit for a receiver on a channel if the queue is empty. There must be several senders.
    #[cold]
    fn forget_empty(&mut self, sender: usize, receiver: usize, channel: usize)
        requires several { 1 < length self.old.senders }
        requires sender { sender < length self.old.senders }
        requires receiver { receiver < length (sender_of sender self.old.senders).messages.queues }
        requires channel { channel < length (slice_index_or (sender_of sender self.old.senders).messages.queues
            receiver []) }
        ensures { self.new ≡ self.old }
    {
        if !self.senders[sender].messages.has_entries(receiver, channel) {
            self.waiting.forget(receiver, channel, sender);
        }
    }

    /// Drops the entries for a receiver on a channel. Reads the marked senders only.
    #[inline(always)]
    pub fn clear_channel(&mut self, receiver: usize, channel: usize)
        requires receiver { HaveQueues self.old.senders receiver }
        requires channel { HaveChannels self.old.senders receiver channel }
        ensures { self.new ≡ with_channel_emptied self.old receiver channel }
    {
        let count = self.sender_count();
        if 1 < count {
            self.clear_noted(receiver, channel);
        } else if count == 1 {
            self.drop_queue(0, receiver, channel);
        }
    }

    /// Drops the entries for a receiver on a channel, if there are several senders. Reads the marked ones only.
    #[cold]
    fn clear_noted(&mut self, receiver: usize, channel: usize)
        requires receiver { HaveQueues self.old.senders receiver }
        requires channel { HaveChannels self.old.senders receiver channel }
        ensures { self.new ≡ with_channel_emptied self.old receiver channel }
    {
        let mut start = 0;
        while let Some(sender) = self.next_waiting(receiver, channel, start) {
            self.clear_queue(sender, receiver, channel);
            start = sender + 1;
        }
    }

    /// Drops a sender's entries for a receiver on a channel, and clears the sender's bit.
    #[inline(always)]
    fn clear_queue(&mut self, sender: usize, receiver: usize, channel: usize)
        requires sender { sender < length self.old.senders }
        requires receiver { receiver < length (sender_of sender self.old.senders).messages.queues }
        requires channel { channel < length (slice_index_or (sender_of sender self.old.senders).messages.queues
            receiver []) }
        ensures { self.new ≡ with_sender self.old sender (channel_cleared receiver channel) }
    {
        self.drop_queue(sender, receiver, channel);
        self.forget_if_empty(sender, receiver, channel);
    }

    /// Drops a sender's entries for a receiver on a channel. The sender stays marked.
    #[inline(always)]
    fn drop_queue(&mut self, sender: usize, receiver: usize, channel: usize)
        requires sender { sender < length self.old.senders }
        requires receiver { receiver < length (sender_of sender self.old.senders).messages.queues }
        requires channel { channel < length (slice_index_or (sender_of sender self.old.senders).messages.queues
            receiver []) }
        ensures { self.new ≡ with_sender self.old sender (channel_cleared receiver channel) }
    {
        self.senders[sender].messages.clear_queue(receiver, channel);
    }

    /// Appends a slot to the queue to each server, except for queues that are full and may not overflow, and marks
    /// that each of the servers may answer. There are `receivers` receivers.
    #[inline(always)]
    pub fn queue<K: Drop>(
        &mut self,
        sender: usize,
        slot: usize,
        receivers: usize,
        servers: &[ServerPort<K>],
        overflow: bool,
    )
        requires sender { sender < length self.old.senders }
        requires queues { HasQueues (sender_of sender self.old.senders).messages servers.now }
        requires takes { (0 < (sender_of sender self.old.senders).messages.capacity)
            × (0 < slice_index (sender_of sender self.old.senders).messages.held slot)
            × (uses (sender_of sender self.old.senders).messages slot + length servers.now < 2 ^ 64) }
        requires marks { (i : ℕ) (s : ServerPort K) → slice_get servers.now i ≡ Some s
            → slot * receivers + s.port.receiver < length (sender_of sender self.old.senders).may_answer }
        ensures { self.new ≡ with_sender self.old sender
            (after_queued overflow receivers slot (map server_part servers.now)) }
    {
        let owned = &mut self.senders[sender];
        for server in servers {
            owned.messages.put(server.port.receiver, 0, slot, overflow);
            owned.may_answer[slot * receivers + server.port.receiver] = server.port.id;
        }
        let count = self.senders.len();
        self.waiting.note_each(count, servers, sender);
    }

    /// Turns a handle's hold on a slot into the hold of an entry in the queue to the reached receiver. Gives the hold
    /// back if none is reached, or if the queue is full and may not overflow. The elements are dropped with the last
    /// hold.
    #[inline(always)]
    pub fn hand_over(
        &mut self,
        sender: usize,
        slot: usize,
        channel: usize,
        reach: Option<usize>,
        overflow: bool,
    )
        requires sender { sender < length self.old.senders }
        requires queue { HasQueue (sender_of sender self.old.senders).messages channel reach }
        requires takes { (0 < (sender_of sender self.old.senders).messages.capacity)
            × (0 < slice_index (sender_of sender self.old.senders).messages.held slot) }
        ensures { self.new ≡ with_sent self.old sender (λ m. handed_on m overflow channel slot reach) }
    {
        match reach {
            Some(receiver) => {
                let messages = &mut self.senders[sender].messages;
                messages.hand_over(receiver, channel, slot, overflow);
                let count = self.senders.len();
                self.waiting.note_among(count, receiver, channel, sender);
            }
            None => self.senders[sender].messages.give_back(slot),
        }
    }
}
