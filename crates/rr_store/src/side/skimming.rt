//! Requests that nobody waits for, which a receive drops.
ghost use Rattle.std.specs.Prelude.{◌≡◌, ◌<◌, ◌≤◌, ◌↔◌, ℕ, [], IfSome, Ok, Some, map, length, slice_index_or, IsTrue};
ghost use Rattle.rr_sender.specs.Senders.{queue_at};
ghost use Rattle.rr_store.specs.Ports.{sender_part};
ghost use Rattle.rr_store.specs.Draining.{HaveQueues};
ghost use Rattle.rr_store.specs.Receiving.{HaveChannels, IsNextFrom, IsNextSender};
ghost use Rattle.rr_store.specs.Skimming.{IsFrontAlive, IsSkimmedTo, QueueSkimmed, SkimsSender, is_waited};

use crate::side::Side;
use crate::{HandleEntry, OwnedSender, RequestDetails};
use rr_protocol::ReceiveError;
use rr_slots::Body;
use rr_table::{Place, Table};

impl<B: Body, H: Drop, P: Drop> Side<B, RequestDetails, H, P> {
    /// Returns the first sender at or after `from` from which a receiver takes its next request, with fewer than
    /// `most` borrowed from it. Polls the marked senders only. Drops dead requests from the fronts of the queues that
    /// it polls and that are below the borrow limit. Returns `None` if none of these senders has a request queued
    /// then.
    ///
    /// # Errors
    ///
    /// - `ExceedsMaxBorrows` if every queue with requests is at its borrow limit.
    #[inline(always)]
    pub fn skim_to_next(
        &mut self,
        table: &Table<HandleEntry>,
        receiver: usize,
        most: usize,
        from: usize,
    ) -> Result<Option<usize>, ReceiveError>
        requires receiver { HaveQueues self.old.senders receiver }
        requires channel { HaveChannels self.old.senders receiver 0 }
        ensures rest { self.new ≡ record self.old { senders = self.new.senders } }
        ensures skimmed { IsSkimmedTo table.now receiver most self.old.senders self.new.senders result }
        ensures next { IsNextFrom from self.new.senders receiver 0 most result }
    {
        let mut is_at_limit = false;
        let mut start = from;
        while let Some(sender) = self.next_waiting(receiver, 0, start) {
            if self.borrowed(sender, receiver, 0) < most {
                if self.skim_queue(table, sender, receiver) {
                    return Ok(Some(sender));
                }
            } else if self.has_entries(sender, receiver, 0) {
                is_at_limit = true;
            }
            start = sender + 1;
        }
        if is_at_limit {
            return Err(ReceiveError::ExceedsMaxBorrows);
        }
        Ok(None)
    }

    /// The same for at most one sender, which is polled directly.
    ///
    /// # Errors
    ///
    /// - `ExceedsMaxBorrows` if the queue has a request but is at its borrow limit.
    #[inline(always)]
    pub fn skim_only(
        &mut self,
        table: &Table<HandleEntry>,
        receiver: usize,
        most: usize,
    ) -> Result<Option<usize>, ReceiveError>
        requires only { length self.old.senders ≤ 1 }
        requires receiver { HaveQueues self.old.senders receiver }
        requires channel { HaveChannels self.old.senders receiver 0 }
        ensures rest { self.new ≡ record self.old { senders = self.new.senders } }
        ensures skimmed { IsSkimmedTo table.now receiver most self.old.senders self.new.senders result }
        ensures next { IsNextSender self.new.senders receiver 0 most result }
    {
        if self.sender_count() == 0 {
            return Ok(None);
        }
        if self.borrowed(0, receiver, 0) < most {
            if self.skim_front(table, 0, receiver) {
                return Ok(Some(0));
            }
            return Ok(None);
        }
        if self.has_entries(0, receiver, 0) {
            return Err(ReceiveError::ExceedsMaxBorrows);
        }
        Ok(None)
    }

    /// Returns `sender` if a receiver takes its next request from it, with fewer than `most` borrowed. Drops dead
    /// requests from the front of its queue, if the queue is below the borrow limit.
    #[inline(always)]
    pub fn skim_at(
        &mut self,
        table: &Table<HandleEntry>,
        sender: usize,
        receiver: usize,
        most: usize,
    ) -> Option<usize>
        requires sender { sender < length self.old.senders }
        requires receiver { HaveQueues self.old.senders receiver }
        requires channel { HaveChannels self.old.senders receiver 0 }
        ensures rest { self.new ≡ record self.old { senders = self.new.senders } }
        ensures skimmed { IsSkimmedTo table.now receiver most self.old.senders self.new.senders (Ok result) }
        ensures next { IfSome result (λ sender. IsNextSender self.new.senders receiver 0 most (Ok (Some sender))) }
    {
        if self.borrowed(sender, receiver, 0) >= most {
            return None;
        }
        if self.skim_queue(table, sender, receiver) {
            return Some(sender);
        }
        None
    }

    /// Drops dead requests from the front of a sender's queue. Returns whether a request remains, and clears the
    /// sender's bit if none does.
    #[inline(always)]
    fn skim_queue(&mut self, table: &Table<HandleEntry>, sender: usize, receiver: usize) -> bool
        requires sender { sender < length self.old.senders }
        requires receiver { HaveQueues self.old.senders receiver }
        requires channel { HaveChannels self.old.senders receiver 0 }
        ensures { QueueSkimmed table.now receiver sender self.old self.new result }
    {
        let remaining = self.skim_front(table, sender, receiver);
        if !remaining {
            self.forget_if_empty(sender, receiver, 0);
        }
        remaining
    }

    /// Drops dead requests from the front of a sender's queue; the sender stays marked. Returns whether a request
    /// remains.
    #[inline(always)]
    fn skim_front(&mut self, table: &Table<HandleEntry>, sender: usize, receiver: usize) -> bool
        requires sender { sender < length self.old.senders }
        requires receiver { HaveQueues self.old.senders receiver }
        requires channel { HaveChannels self.old.senders receiver 0 }
        ensures { QueueSkimmed table.now receiver sender self.old self.new result }
    {
        skim_sender(&mut self.senders[sender], table, receiver)
    }
}

/// Drops the requests that nobody waits for from the front of a queue. Returns whether a request remains.
#[inline(always)]
fn skim_sender<B: Body, H: Drop>(
    sender: &mut OwnedSender<B, RequestDetails, H>,
    table: &Table<HandleEntry>,
    receiver: usize,
) -> bool
    requires receiver { receiver < length sender.old.messages.queues }
    requires channel { 0 < length (slice_index_or sender.old.messages.queues receiver []) }
    ensures skimmed { (n : ℕ) × SkimsSender table.now receiver n (sender_part sender.old) (sender_part sender.new) }
    ensures front { IsFrontAlive table.now receiver (sender_part sender.new) }
    ensures remaining { IsTrue result ↔ (0 < length (queue_at sender.new.messages receiver 0)) }
{
    while let Some(slot) = sender.messages.first(receiver, 0) {
        if is_waited(sender, table, slot) {
            return true;
        }
        sender.messages.drop_first(receiver, 0);
    }
    false
}

/// Returns whether the pending response of the request in a slot lives. Reads the only place where that handle can
/// be.
#[inline(always)]
fn is_waited<B: Body, H: Drop>(
    sender: &OwnedSender<B, RequestDetails, H>,
    table: &Table<HandleEntry>,
    slot: usize,
) -> bool
    requires { slot < length sender.now.messages.held }
    ensures { result ≡ is_waited table.now (sender_part sender.now) slot }
{
    let row = sender.row;
    let own = Place { row, index: slot };
    match table.get_at(sender.messages.details(slot).number, own) {
        Some(entry) => entry.stage.is_pending(),
        None => false,
    }
}
