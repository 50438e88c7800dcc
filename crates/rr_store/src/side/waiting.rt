//! From which senders something may wait for each receiver, on each channel.
ghost use Rattle.std.specs.Prelude.{◌≡◌, ◌+◌, ◌*◌, ◌<◌, ◌≤◌, ◌/◌, ◌^◌, ℕ, [], IfNone, IfSome, IsTrue, None, OnErr, OnOk, length};
ghost use Rattle.rr_sender.specs.BitSets.{HasWord, IsBitChanged, IsFirstFrom, has};
ghost use Rattle.rr_sender.specs.SenderSets.{IsEven};
ghost use Rattle.rr_store.specs.KnownWaiting.{AreNotedAmong, HasPlace, HavePlaces, IsGrown, IsNotedAmong, IsReady, set_of};

use crate::ServerPort;
use rr_sender::SenderSets;
use std::alloc::{AllocError, Global};

/// For each receiver and channel, the set of marked senders: those that may have an entry for it. A sender is marked
/// when an entry is queued, and its bit is cleared when a poll finds its queue empty. A side with a single sender
/// marks nothing and polls that sender.
#[derive(Drop)]
pub(crate) struct Waiting {
    /// The senders, by receiver and channel.
    pub senders: SenderSets,
    /// How many receivers each sender has queues to.
    pub receivers: usize,
    /// How many channels each receiver has.
    pub channels: usize,
    /// The number of sets.
    pub sets: usize,
}

impl Waiting {
    /// Makes empty sets. Takes no memory.
    pub(crate) fn new(alloc: Global) -> Self
        ensures senders { result.senders.columns.items ≡ [] }
        ensures receivers { result.receivers ≡ 0 }
        ensures channels { result.channels ≡ 0 }
        ensures sets { result.sets ≡ 0 }
    {
        Waiting {
            senders: SenderSets::new(alloc),
            receivers: 0,
            channels: 0,
            sets: 0,
        }
    }

    /// Reserves room for one more sender beside `count` senders with the same queues. When the second sender is
    /// added, the first one is marked in every set.
    ///
    /// # Errors
    ///
    /// - `AllocError` if memory was refused; no bit has changed then.
    pub(crate) fn reserve(
        &mut self,
        alloc: Global,
        count: usize,
        receivers: usize,
        channels: usize,
    ) -> Result<(), AllocError>
        requires sets { self.old.sets ≡ self.old.receivers * self.old.channels }
        requires fits { self.old.sets < 2 ^ 64 }
        requires even { IsEven self.old.sets self.old.senders }
        requires room { 1 < count → count ≤ 64 * length self.old.senders.columns.items }
        ensures grown { IsGrown count self.old self.new }
        ensures ready { OnOk result (IsReady count receivers channels self.new) }
    {
        if count == 0 {
            return self.begin(alloc, receivers, channels);
        }
        self.senders.reserve(alloc, self.sets, count)?;
        if count == 1 {
            self.senders.insert_in_each(self.sets, 0);
        }
        Ok(())
    }

    /// Begins with a first sender, which has these queues.
    ///
    /// # Errors
    ///
    /// - `AllocError` if the number of queues overflows a `usize`; nothing has changed then.
    fn begin(&mut self, alloc: Global, receivers: usize, channels: usize) -> Result<(), AllocError>
        requires sets { self.old.sets ≡ self.old.receivers * self.old.channels }
        requires fits { self.old.sets < 2 ^ 64 }
        requires even { IsEven self.old.sets self.old.senders }
        ensures grown { IsGrown 0 self.old self.new }
        ensures ready { OnOk result (IsReady 0 receivers channels self.new) }
    {
        match receivers.checked_mul(channels) {
            Some(sets) => {
                self.senders = SenderSets::new(alloc);
                self.receivers = receivers;
                self.channels = channels;
                self.sets = sets;
                Ok(())
            }
            None => Err(AllocError),
        }
    }

    /// Marks a sender for a receiver on a channel.
    #[inline(always)]
    fn note(&mut self, receiver: usize, channel: usize, sender: usize)
        requires fits { set_of self.old receiver channel < 2 ^ 64 }
        requires place { HasWord self.old.senders (set_of self.old receiver channel) (sender / 64) }
        ensures noted { IsBitChanged 1 (set_of self.old receiver channel) sender self.old.senders self.new.senders }
        ensures rest { self.new ≡ record self.old { senders = self.new.senders } }
    {
        self.senders
            .insert(receiver * self.channels + channel, sender);
    }

    /// Marks a sender for a receiver on a channel. Does nothing if `count`, the number of senders, is 1.
    #[inline(always)]
    pub(crate) fn note_among(
        &mut self,
        count: usize,
        receiver: usize,
        channel: usize,
        sender: usize,
    )
        requires { 1 < count → HasPlace self.old receiver channel sender }
        ensures { IsNotedAmong count receiver channel sender self.old self.new }
    {
        if 1 < count {
            self.note_one(count, receiver, channel, sender);
        }
    }

    /// The same, as a call of its own.
    #[cold]
    fn note_one(&mut self, count: usize, receiver: usize, channel: usize, sender: usize)
        requires { 1 < count → HasPlace self.old receiver channel sender }
        ensures { IsNotedAmong count receiver channel sender self.old self.new }
    {
        self.note_next(count, receiver, channel, sender);
    }

    /// The same, in a call for several servers.
    #[inline(always)]
    fn note_next(&mut self, count: usize, receiver: usize, channel: usize, sender: usize)
        requires { 1 < count → HasPlace self.old receiver channel sender }
        ensures { IsNotedAmong count receiver channel sender self.old self.new }
    {
        if 1 < count {
            self.note(receiver, channel, sender);
        }
    }

    /// Marks a sender for each of these servers. Does nothing if `count`, the number of senders, is 1.
    #[inline(always)]
    pub(crate) fn note_each<K: Drop>(
        &mut self,
        count: usize,
        servers: &[ServerPort<K>],
        sender: usize,
    )
        requires { 1 < count → HavePlaces self.old sender servers.now }
        ensures { AreNotedAmong count servers.now sender self.old self.new }
    {
        if 1 < count {
            self.note_all(count, servers, sender);
        }
    }

    /// Marks a sender for each of these servers. `count` is the number of senders.
    #[cold]
    fn note_all<K: Drop>(&mut self, count: usize, servers: &[ServerPort<K>], sender: usize)
        requires { 1 < count → HavePlaces self.old sender servers.now }
        ensures { AreNotedAmong count servers.now sender self.old self.new }
    {
        for server in servers {
            self.note_next(count, server.port.receiver, 0, sender);
        }
    }

    /// Clears a sender's bit for a receiver on a channel.
    #[inline(always)]
    pub(crate) fn forget(&mut self, receiver: usize, channel: usize, sender: usize)
        requires fits { set_of self.old receiver channel < 2 ^ 64 }
        requires place { HasWord self.old.senders (set_of self.old receiver channel) (sender / 64) }
        ensures forgotten { IsBitChanged 0 (set_of self.old receiver channel) sender self.old.senders self.new.senders }
        ensures rest { self.new ≡ record self.old { senders = self.new.senders } }
    {
        self.senders
            .remove(receiver * self.channels + channel, sender);
    }

    /// Returns `true` if the one word that it reads shows that no sender is marked for a receiver on a channel.
    #[inline(always)]
    pub(crate) fn is_known_empty(&self, receiver: usize, channel: usize) -> bool
        requires { set_of self.now receiver channel < 2 ^ 64 }
        ensures { IsTrue result → IsFirstFrom self.now.senders (set_of self.now receiver channel) 0 None }
    {
        self.senders
            .is_known_empty(receiver * self.channels + channel)
    }

    /// Returns the first marked sender at or after `from`, wrapping around to the start.
    #[inline(always)]
    pub(crate) fn next_around(&self, receiver: usize, channel: usize, from: usize) -> Option<usize>
        requires { set_of self.now receiver channel < 2 ^ 64 }
        ensures noted { IfSome result (λ sender. has self.now.senders (set_of self.now receiver channel) sender ≡ 1) }
        ensures empty { IfNone result (IsFirstFrom self.now.senders (set_of self.now receiver channel) 0 None) }
    {
        self.senders
            .next_around(receiver * self.channels + channel, from)
    }

    /// Returns the first marked sender at or after `from`.
    #[inline(always)]
    pub(crate) fn next_from(&self, receiver: usize, channel: usize, from: usize) -> Option<usize>
        requires { set_of self.now receiver channel < 2 ^ 64 }
        ensures { IsFirstFrom self.now.senders (set_of self.now receiver channel) from result }
    {
        self.senders
            .next_from(receiver * self.channels + channel, from)
    }
}
