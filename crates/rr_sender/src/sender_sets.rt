//! For each queue, the set of senders that may have an entry in it.
ghost use Rattle.std.specs.Prelude.{◌≡◌, ◌≤◌, ◌+◌, ◌*◌, ◌<◌, ◌/◌, ◌^◌, [], IfNone, IfSome, IsTrue, None, OnErr, OnOk, length};
ghost use Rattle.rr_sender.specs.BitSets.{HasWord, IsBitChanged, IsFirstFrom, has};
ghost use Rattle.rr_sender.specs.SenderSets.{HasRoom, IsEven, IsInEach};

use crate::bit_sets::BitSets;
use std::alloc::{AllocError, Global};
use std::marker::Model;

/// Sets of senders, by numbers. Finding the next member of a set reads one word, and then one for each 4,096 senders.
/// Only `reserve` takes memory.
///
/// Apart from the words of the sets it keeps, for each set, which of its words are not empty. Contracts see only the
/// sets.
#[derive(Drop)]
pub struct SenderSets {
    members: BitSets,
    // Which words of each set have a member.
    words: BitSets,
}

impl Model for SenderSets {
    ghost use Rattle.rr_sender.specs.SenderSets.{KnowsWords};
    ghost use Rattle.rr_sender.specs.declared.bit_sets.BitSets.{BitSets};

    ghost Value = { BitSets };

    ghost view = { λ s. s.members };

    ghost invariant = { λ s. KnowsWords s.members s.words };
}

impl SenderSets {
    /// Makes sets without room for a sender. Takes no memory.
    pub fn new(alloc: Global) -> Self
        ensures { result.columns.items ≡ [] }
    {
        SenderSets {
            members: BitSets::new(alloc),
            words: BitSets::new(alloc),
        }
    }

    /// Reserves room in each of `sets` sets for a sender that has room already, or for the next one without. Adds no
    /// member.
    ///
    /// # Errors
    ///
    /// - `AllocError` if memory was refused; no set has changed then.
    pub fn reserve(&mut self, alloc: Global, sets: usize, sender: usize) -> Result<(), AllocError>
        requires next { sender / 64 ≤ length self.old.columns.items }
        requires even { IsEven sets self.old }
        ensures ok { OnOk result (HasRoom sets sender self.old self.new) }
        ensures err { OnErr result (self.new.columns.items ≡ self.old.columns.items) }
    {
        let index = sender / 64;
        if index < self.members.columns() {
            return Ok(());
        }
        let column = self.members.new_column(alloc, sets)?;
        if index % 64 == 0 {
            let notes = self.words.new_column(alloc, sets)?;
            self.words.push_column(notes);
        }
        self.members.push_column(column);
        Ok(())
    }

    /// Puts a sender into a set that has room for it.
    #[inline(always)]
    pub fn insert(&mut self, set: usize, sender: usize)
        requires { HasWord self.old set (sender / 64) }
        ensures { IsBitChanged 1 set sender self.old self.new }
    {
        if self.members.insert(set, sender) == 0 {
            self.words.insert(set, sender / 64);
        }
    }

    /// Adds a sender to each of `sets` sets, which have room for it.
    pub fn insert_in_each(&mut self, sets: usize, sender: usize)
        requires there { sender / 64 < length self.old.columns.items }
        requires even { IsEven sets self.old }
        ensures { IsInEach sets sender self.old self.new }
    {
        for set in 0..sets {
            self.insert(set, sender);
        }
    }

    /// Takes a sender out of a set that has room for it.
    #[inline(always)]
    pub fn remove(&mut self, set: usize, sender: usize)
        requires { HasWord self.old set (sender / 64) }
        ensures { IsBitChanged 0 set sender self.old self.new }
    {
        if self.members.remove(set, sender) == 0 {
            self.words.remove(set, sender / 64);
        }
    }

    /// Returns `true` if the one word that it reads shows that a set is empty, which it does if there is room for at
    /// most 4,096 senders.
    #[inline(always)]
    pub fn is_known_empty(&self, set: usize) -> bool
        ensures { IsTrue result → IsFirstFrom self.now set 0 None }
    {
        self.words.columns() == 1 && self.words.word(set, 0) == 0
    }

    /// Returns the first member of a set at or after `from`, wrapping around to the start. If the set is empty, reads
    /// one word for each 4,096 senders.
    #[inline(always)]
    pub fn next_around(&self, set: usize, from: usize) -> Option<usize>
        ensures member { IfSome result (λ sender. has self.now set sender ≡ 1) }
        ensures empty { IfNone result (IsFirstFrom self.now set 0 None) }
    {
        let Some(first) = self.words.next_from(set, 0) else {
            return None;
        };
        if self.words.is_in_one_word(set) {
            return self.members.next_around_in_word(set, first, from);
        }
        if let Some(sender) = self.members.next_in_word(set, from) {
            return Some(sender);
        }
        if let Some(word) = self.words.next_from(set, from / 64 + 1) {
            return self.members.next_in_word(set, word * 64);
        }
        self.members.next_in_word(set, first * 64)
    }

    /// Returns the first member of a set at or after `from`.
    #[inline(always)]
    pub fn next_from(&self, set: usize, from: usize) -> Option<usize>
        ensures { IsFirstFrom self.now set from result }
    {
        if let Some(sender) = self.members.next_in_word(set, from) {
            return Some(sender);
        }
        match self.words.next_from(set, from / 64 + 1) {
            Some(word) => self.members.next_in_word(set, word * 64),
            None => None,
        }
    }
}
