//! A body of any number of elements.
ghost use Rattle.std.specs.Prelude.{◌≡◌};
ghost use Rattle.std.specs.Borrow.{sem};

use crate::body::{Body, FillBody, LendBody, WriteBody};
use crate::family::Family;
use std::alloc::{AllocError, Global};
use std::marker::Model;

/// A body of any length, over a vector that has room for the loaned length.
#[derive(Drop)]
pub struct SliceBody<T: Drop> {
    asked: usize,
    items: Vec<T>,
}

impl<T: Drop> Model for SliceBody<T> {
    ghost use Rattle.std.specs.Prelude.{◌≤◌, vec_len, vec_capacity};
    ghost use Rattle.rr_slots.specs.Elements.{SliceState};

    ghost Value = { SliceState T };

    ghost view = { λ b. record { asked = b.asked; room = vec_capacity b.items; elements = b.items.items } };

    ghost invariant = { λ b. (vec_len b.items ≤ b.asked) × (b.asked ≤ vec_capacity b.items) };
}

impl<T: Drop> SliceBody<T> {
    /// Returns the elements written so far.
    pub fn as_slice(&self) -> &[T]
        ensures { result.now ≡ self.now.elements }
    {
        self.items.as_slice()
    }
}

impl<T: Drop> Body for SliceBody<T> {
    ghost use Rattle.rr_slots.specs.declared.family.Family.TheVariants.{Sliced};
    ghost use Rattle.rr_slots.specs.Families.{sliced_is_not_typed};

    type Item = T;

    ghost family = { Sliced };

    ghost asked_len = { λ b. b.asked };

    ghost room = { λ b. b.room };

    ghost elements = { λ b. b.elements };

    ghost holds_one = { λ _ is_typed. absurd (sliced_is_not_typed is_typed) };

    fn asked_len(&self) -> usize {
        self.asked
    }

    fn clear(&mut self) {
        self.items.clear();
    }
}

impl<T: Drop> WriteBody for SliceBody<T> {
    ghost use Rattle.std.specs.Prelude.{refl};
    ghost use Rattle.rr_slots.specs.Elements.{with_slice_at};

    ghost with_element_at = { with_slice_at };

    ghost sets_one_element = { λ _ _ _. refl };

    ghost keeps_asked_len = { λ _ _ _. refl };

    ghost keeps_room = { λ _ _ _. refl };

    fn family() -> Family {
        Family::Sliced
    }

    fn new(alloc: Global, len: usize) -> Result<Self, AllocError> {
        Ok(SliceBody {
            asked: len,
            items: Vec::with_capacity(alloc, len)?,
        })
    }

    fn prepare(&mut self, len: usize) -> Result<(), AllocError> {
        let have = self.items.len();
        if have < len {
            self.items.reserve_exact(len - have)?;
        }
        self.items.clear();
        self.asked = len;
        Ok(())
    }

    fn push(&mut self, item: T) {
        self.items.push_reserved(item);
    }

    fn is_complete(&self) -> bool {
        self.items.len() == self.asked
    }

    fn len(&self) -> usize {
        self.items.len()
    }

    fn get(&self, index: usize) -> &T {
        &self.items[index]
    }

    fn get_mut(&mut self, index: usize) -> &mut T {
        &mut self.items[index]
    }
}

impl<T: Copy> FillBody for SliceBody<T> {
    fn fill(&mut self, element: T) {
        self.items.clear();
        // There is room for the loaned length.
        let _ = self.items.resize(self.asked, element);
    }

    fn copy(&mut self, elements: &[T]) {
        self.items.clear();
        // There is room for the loaned length.
        let _ = self.items.extend_from_slice(elements);
    }
}

impl<T: Drop> LendBody for SliceBody<T> {
    ghost use Rattle.std.specs.Prelude.{refl};
    ghost use Rattle.rr_slots.specs.BodyLends.{with_slice};

    ghost with_items = { with_slice };

    ghost sets_items = { λ _ _. refl };

    ghost asks_as_before = { λ _ _. refl };

    ghost has_room_as_before = { λ _ _. refl };

    fn slice_mut(&mut self) -> &mut [T] {
        self.items.as_mut_slice()
    }
}
