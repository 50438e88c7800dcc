//! A body of one element that can be copied.
use crate::body::{Body, FillBody, KeepBody, WriteBody};
use crate::family::Family;
use crate::plain_body::PlainBody;
use std::alloc::{AllocError, Global};
use std::marker::Model;

/// A body of one `Copy` element. Emptying the body leaves the old element in memory, so a message can be completed
/// with it and then written in place, without a fill.
#[derive(Drop)]
pub struct KeptBody<T: Copy> {
    body: PlainBody<T>,
}

impl<T: Copy> Model for KeptBody<T> {
    ghost use Rattle.std.specs.Prelude.{◌≡◌, ◌≤◌, Option, length, slice_get};

    ghost Value = { Option T };

    ghost view = { λ b. slice_get b.body.elements 0 };

    ghost invariant = { λ b. (b.body.asked ≡ 1) × (1 ≤ b.body.room) × (length b.body.elements ≤ 1) };
}

impl<T: Copy> Body for KeptBody<T> {
    ghost use Rattle.rr_slots.specs.declared.family.Family.TheVariants.{Typed};
    ghost use Rattle.rr_slots.specs.Elements.{option_elements, option_elements-few};

    type Item = T;

    ghost family = { Typed };

    ghost asked_len = { λ _. 1 };

    ghost room = { λ _. 1 };

    ghost elements = { option_elements };

    ghost holds_one = { λ body _. option_elements-few body };

    fn asked_len(&self) -> usize {
        1
    }

    fn clear(&mut self) {
        self.body.clear();
    }
}

impl<T: Copy> WriteBody for KeptBody<T> {
    ghost use Rattle.std.specs.Prelude.{refl};
    ghost use Rattle.rr_slots.specs.Elements.{with_option, option_elements-with_option};

    ghost with_element_at = { with_option };

    ghost sets_one_element = { option_elements-with_option };

    ghost keeps_asked_len = { λ _ _ _. refl };

    ghost keeps_room = { λ _ _ _. refl };

    fn family() -> Family {
        Family::Typed
    }

    fn new(alloc: Global, _len: usize) -> Result<Self, AllocError> {
        let body = PlainBody::new(alloc, 1)?;
        Ok(KeptBody { body })
    }

    fn prepare(&mut self, _len: usize) -> Result<(), AllocError> {
        self.body.prepare(1)
    }

    fn push(&mut self, item: T) {
        self.body.push(item);
    }

    fn is_complete(&self) -> bool {
        self.body.is_complete()
    }

    fn len(&self) -> usize {
        self.body.len()
    }

    fn get(&self, index: usize) -> &T {
        self.body.get(index)
    }

    fn get_mut(&mut self, index: usize) -> &mut T {
        self.body.get_mut(index)
    }
}

impl<T: Copy> FillBody for KeptBody<T> {
    fn fill(&mut self, element: T) {
        self.body.fill(element);
    }

    fn copy(&mut self, elements: &[T]) {
        self.body.copy(elements);
    }
}

impl<T: Copy + Default> KeepBody for KeptBody<T> {
    fn complete(&mut self) {
        self.body.complete();
    }
}
