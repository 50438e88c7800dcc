//! Sets of numbers, as words of bits.
ghost use Rattle.std.specs.Prelude.{◌≡◌, ◌+◌, ◌<◌, ◌≤◌, ◌/◌, ◌^◌, ◌%◌, [], IfNone, IfOk, IfSome, OnOk, length, replicate, vec_capacity, vec_len, ℕ};
ghost use Rattle.rr_sender.specs.BitSets.{HasWord, IsBitChanged, IsColumnAdded, IsFirstFrom, IsNextInWord, IsWordChanged, has, word_of};

use std::alloc::{AllocError, Global};

/// Sets of numbers, with a bit for each set and number. A column has a word of each set, for 64 numbers.
#[derive(Drop)]
pub struct BitSets {
    pub columns: Vec<Vec<u64>>,
}

impl BitSets {
    /// Makes sets without a place for a number. Takes no memory.
    pub(crate) fn new(alloc: Global) -> Self
        ensures { result.columns.items ≡ [] }
    {
        BitSets {
            columns: Vec::new(alloc),
        }
    }

    /// Returns a column of words for 64 more numbers of `sets` sets, without members, and reserves room for it.
    ///
    /// # Errors
    ///
    /// - `AllocError` if memory was refused.
    pub(crate) fn new_column(&mut self, alloc: Global, sets: usize) -> Result<Vec<u64>, AllocError>
        ensures column { IfOk result (λ column. column.items ≡ replicate sets 0) }
        ensures room { OnOk result (vec_len self.new.columns < vec_capacity self.new.columns) }
        ensures same { self.new.columns.items ≡ self.old.columns.items }
    {
        self.columns.reserve(1)?;
        let column = vec![in alloc; 0; sets]?;
        Ok(column)
    }

    /// Adds a column for which there is room.
    pub(crate) fn push_column(&mut self, column: Vec<u64>)
        requires { vec_len self.old.columns < vec_capacity self.old.columns }
        ensures { (sets : ℕ) → column.items ≡ replicate sets 0 → IsColumnAdded sets self.old self.new }
    {
        self.columns.push_reserved(column);
    }

    /// Returns how many columns there are.
    #[inline(always)]
    pub(crate) fn columns(&self) -> usize
        ensures { result ≡ length self.now.columns.items }
    {
        self.columns.len()
    }

    /// Returns a word of a set, and 0 if the set doesn't have it.
    #[inline(always)]
    pub(crate) fn word(&self, set: usize, index: usize) -> u64
        ensures { result ≡ word_of self.now set index }
    {
        match self.columns.get(index) {
            Some(column) => match column.get(set) {
                Some(word) => *word,
                None => 0,
            },
            None => 0,
        }
    }

    /// Returns a word that a set has.
    #[inline(always)]
    fn known_word(&self, set: usize, index: usize) -> u64
        requires { HasWord self.now set index }
        ensures { result ≡ word_of self.now set index }
    {
        self.columns[index][set]
    }

    /// Makes other bits a word of a set.
    #[inline(always)]
    fn set_word(&mut self, set: usize, index: usize, word: u64)
        requires { HasWord self.old set index }
        ensures { IsWordChanged set index word self.old self.new }
    {
        self.columns[index][set] = word;
    }

    /// Puts a number into a set that has a place for it. Returns the word for it as it was.
    #[inline(always)]
    pub(crate) fn insert(&mut self, set: usize, number: usize) -> u64
        requires { HasWord self.old set (number / 64) }
        ensures there { IsBitChanged 1 set number self.old self.new }
        ensures before { result ≡ word_of self.old set (number / 64) }
    {
        let word = self.known_word(set, number / 64);
        self.set_word(set, number / 64, word | 1 << (number % 64));
        word
    }

    /// Takes a number out of a set that has a place for it. Returns the word for it as it is then.
    #[inline(always)]
    pub(crate) fn remove(&mut self, set: usize, number: usize) -> u64
        requires { HasWord self.old set (number / 64) }
        ensures gone { IsBitChanged 0 set number self.old self.new }
        ensures less { word_of self.new set (number / 64) ≤ word_of self.old set (number / 64) }
        ensures after { result ≡ word_of self.new set (number / 64) }
    {
        let word = self.known_word(set, number / 64);
        let rest = word & !(1 << (number % 64));
        self.set_word(set, number / 64, rest);
        rest
    }

    /// Returns `true` if a set is known to have at most one member, which takes a single column.
    #[inline(always)]
    pub(crate) fn is_in_one_word(&self, set: usize) -> bool {
        let word = self.word(set, 0);
        self.columns.len() == 1 && word & word.wrapping_sub(1) == 0
    }

    /// Returns the first number of a set at or after `from` in the same word.
    #[inline(always)]
    pub(crate) fn next_in_word(&self, set: usize, from: usize) -> Option<usize>
        ensures next { IsNextInWord self.now set from result }
        ensures empty { IfNone result (word_of self.now set (from / 64) / 2 ^ (from % 64) ≡ 0) }
    {
        let rest = self.word(set, from / 64) >> (from % 64);
        if rest == 0 {
            return None;
        }
        Some(from + rest.trailing_zeros() as usize)
    }

    /// Returns the first number of a set in the word at `index`, at or after `from` if that is in the same word,
    /// wrapping around to the start of the word.
    #[inline(always)]
    pub(crate) fn next_around_in_word(&self, set: usize, index: usize, from: usize) -> Option<usize>
        requires { index < 2 ^ 58 }
        ensures member { IfSome result (λ number. has self.now set number ≡ 1) }
        ensures empty { IfNone result (word_of self.now set index ≡ 0) }
    {
        if index == from / 64 {
            if let Some(number) = self.next_in_word(set, from) {
                return Some(number);
            }
        }
        self.next_in_word(set, index * 64)
    }

    /// Returns the first number of a set at or after `from`. Reads the words in order.
    pub(crate) fn next_from(&self, set: usize, from: usize) -> Option<usize>
        requires { length self.now.columns.items ≤ 2 ^ 58 }
        ensures { IsFirstFrom self.now set from result }
    {
        if let Some(number) = self.next_in_word(set, from) {
            return Some(number);
        }
        for index in from / 64 + 1..self.columns.len() {
            if let Some(number) = self.next_in_word(set, index * 64) {
                return Some(number);
            }
        }
        None
    }
}
