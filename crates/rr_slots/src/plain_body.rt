//! A body of any number of elements that can be copied.
ghost use Rattle.std.specs.Prelude.{◌≡◌, ◌≤◌, vec_capacity, vec_len};

use crate::body::{Body, FillBody, KeepBody, LendBody, WriteBody};
use crate::family::Family;
use std::alloc::{AllocError, Global};
use std::marker::Model;

/// A body of any length, of `Copy` elements. Emptying the body leaves the old elements in memory, so a message can be
/// completed with them and then written in place, without a fill.
#[derive(Drop)]
pub struct PlainBody<T: Copy> {
    asked: usize,
    len: usize,
    items: Vec<T>,
}

impl<T: Copy> Model for PlainBody<T> {
    ghost use Rattle.std.specs.Prelude.{◌≤◌, take, vec_len, vec_capacity};
    ghost use Rattle.rr_slots.specs.Elements.{SliceState};

    ghost Value = { SliceState T };

    ghost view = { λ b. record { asked = b.asked; room = vec_capacity b.items; elements = take b.len b.items.items } };

    ghost invariant = { λ b. (b.len ≤ vec_len b.items) × (b.len ≤ b.asked) × (b.asked ≤ vec_capacity b.items) };
}

impl<T: Copy> PlainBody<T> {
    /// Returns the elements written so far.
    pub fn as_slice(&self) -> &[T]
        ensures { result.now ≡ self.now.elements }
    {
        &self.items[..self.len]
    }
}

impl<T: Copy> Body for PlainBody<T> {
    ghost use Rattle.rr_slots.specs.declared.family.Family.TheVariants.{Sliced};
    ghost use Rattle.rr_slots.specs.Families.{sliced_is_not_typed};

    type Item = T;

    ghost family = { Sliced };

    ghost asked_len = { λ b. b.asked };

    ghost room = { λ b. b.room };

    ghost elements = { λ b. b.elements };

    ghost holds_one = { λ _ is_typed. absurd (sliced_is_not_typed is_typed) };

    fn asked_len(&self) -> usize {
        self.asked
    }

    fn clear(&mut self) {
        self.len = 0;
    }
}

impl<T: Copy> WriteBody for PlainBody<T> {
    ghost use Rattle.std.specs.Prelude.{refl};
    ghost use Rattle.rr_slots.specs.Elements.{with_slice_at};

    ghost with_element_at = { with_slice_at };

    ghost sets_one_element = { λ _ _ _. refl };

    ghost keeps_asked_len = { λ _ _ _. refl };

    ghost keeps_room = { λ _ _ _. refl };

    fn family() -> Family {
        Family::Sliced
    }

    fn new(alloc: Global, len: usize) -> Result<Self, AllocError> {
        Ok(PlainBody {
            asked: len,
            len: 0,
            items: Vec::with_capacity(alloc, len)?,
        })
    }

    fn prepare(&mut self, len: usize) -> Result<(), AllocError> {
        let have = self.items.len();
        if have < len {
            self.items.reserve_exact(len - have)?;
        }
        self.len = 0;
        self.asked = len;
        Ok(())
    }

    fn push(&mut self, item: T) {
        if self.len < self.items.len() {
            self.items[self.len] = item;
        } else {
            self.items.push_reserved(item);
        }
        self.len += 1;
    }

    fn is_complete(&self) -> bool {
        self.len == self.asked
    }

    fn len(&self) -> usize {
        self.len
    }

    fn get(&self, index: usize) -> &T {
        &self.items[index]
    }

    fn get_mut(&mut self, index: usize) -> &mut T {
        &mut self.items[index]
    }
}

impl<T: Copy> FillBody for PlainBody<T> {
    fn fill(&mut self, element: T) {
        self.items.clear();
        // There is room for the loaned length.
        let _ = self.items.resize(self.asked, element);
        self.len = self.asked;
    }

    fn copy(&mut self, elements: &[T]) {
        self.items.clear();
        // There is room for the loaned length.
        let _ = self.items.extend_from_slice(elements);
        self.len = self.asked;
    }
}

impl<T: Copy + Default> KeepBody for PlainBody<T> {
    fn complete(&mut self) {
        if self.items.len() < self.asked {
            fill_rest(&mut self.items, self.asked);
        }
        self.len = self.asked;
    }
}

impl<T: Copy> LendBody for PlainBody<T> {
    ghost use Rattle.std.specs.Prelude.{refl};
    ghost use Rattle.rr_slots.specs.BodyLends.{with_slice};

    ghost with_items = { with_slice };

    ghost sets_items = { λ _ _. refl };

    ghost asks_as_before = { λ _ _. refl };

    ghost has_room_as_before = { λ _ _. refl };

    fn slice_mut(&mut self) -> &mut [T] {
        self.items.slice_mut(..self.len)
    }
}

/// Appends default elements up to a length for which there is room. It is a separate function because a function
/// writes all its locals on every call.
#[cold]
#[inline(never)]
fn fill_rest<T: Copy + Default>(items: &mut Vec<T>, len: usize)
    requires less { vec_len items.old ≤ len }
    requires room { len ≤ vec_capacity items.old }
    ensures len { vec_len items.new ≡ len }
    ensures room { vec_capacity items.old ≤ vec_capacity items.new }
{
    let _ = items.resize(len, T::default());
}
