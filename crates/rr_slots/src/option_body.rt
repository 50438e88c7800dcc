//! A body of one element.
use crate::body::{Body, FillBody, WriteBody};
use crate::family::Family;
use std::alloc::{AllocError, Global};

impl<T: Drop> Body for Option<T> {
    ghost use Rattle.rr_slots.specs.declared.family.Family.TheVariants.{Typed};
    ghost use Rattle.rr_slots.specs.Elements.{option_elements, option_elements-few};

    type Item = T;

    ghost family = { Typed };

    ghost asked_len = { λ _. 1 };

    ghost room = { λ _. 1 };

    ghost elements = { option_elements };

    ghost holds_one = { λ body _. option_elements-few body };

    fn asked_len(&self) -> usize {
        1
    }

    #[inline(always)]
    fn clear(&mut self) {
        *self = None;
    }
}

impl<T: Drop> WriteBody for Option<T> {
    ghost use Rattle.std.specs.Prelude.{refl};
    ghost use Rattle.rr_slots.specs.Elements.{with_option, option_elements-with_option};

    ghost with_element_at = { with_option };

    ghost sets_one_element = { option_elements-with_option };

    ghost keeps_asked_len = { λ _ _ _. refl };

    ghost keeps_room = { λ _ _ _. refl };

    fn family() -> Family {
        Family::Typed
    }

    fn new(_alloc: Global, _len: usize) -> Result<Self, AllocError> {
        Ok(None)
    }

    fn prepare(&mut self, _len: usize) -> Result<(), AllocError> {
        *self = None;
        Ok(())
    }

    #[inline(always)]
    fn push(&mut self, item: T) {
        *self = Some(item);
    }

    fn is_complete(&self) -> bool {
        self.is_some()
    }

    fn len(&self) -> usize {
        match self {
            Some(_) => 1,
            None => 0,
        }
    }

    fn get(&self, _index: usize) -> &T {
        match self {
            Some(item) => item,
            None => unreachable!(),
        }
    }

    fn get_mut(&mut self, _index: usize) -> &mut T {
        match self {
            Some(item) => item,
            None => unreachable!(),
        }
    }
}

impl<T: Copy> FillBody for Option<T> {
    fn fill(&mut self, element: T) {
        *self = Some(element);
    }

    fn copy(&mut self, elements: &[T]) {
        *self = Some(elements[0]);
    }
}
