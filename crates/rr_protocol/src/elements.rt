//! The elements of a message, which contracts see as a list.
ghost use Rattle.std.specs.Prelude.{◌≡◌, IfOk};
ghost use Rattle.rr_protocol.specs.Items.{listed};

use std::alloc::{AllocError, Global};
use std::marker::Model;

/// The elements of a message, in order. A single element takes no memory.
#[derive(Debug, Drop)]
pub struct Elements<T: Copy> {
    items: Items<T>,
}

/// One element in the value itself, or any number in a vector.
#[derive(Debug, Drop)]
enum Items<T: Copy> {
    One([T; 1]),
    Many(Vec<T>),
}

impl<T: Copy> Model for Elements<T> {
    ghost use Rattle.std.specs.Prelude.{List};
    ghost use Rattle.rr_protocol.specs.Items.{listed};

    ghost Value = { List T };

    ghost view = { λ e. listed e.items };
}

impl<T: Copy> Elements<T> {
    ghost use Rattle.std.specs.Prelude.{◌≡◌, ◌<◌, length, IfOk, OnErr};

    /// Returns the elements as a slice.
    pub fn as_slice(&self) -> &[T]
        ensures { result.now ≡ self.now }
    {
        match &self.items {
            Items::One(element) => element.as_slice(),
            Items::Many(elements) => elements.as_slice(),
        }
    }

    /// Returns a copy. A copy of at most one element takes no memory.
    ///
    /// # Errors
    ///
    /// - `AllocError` if there are several elements, and there was no memory for them.
    pub fn copied(&self, alloc: Global) -> Result<Self, AllocError>
        ensures ok { IfOk result (λ copy. copy ≡ self.now) }
        ensures err { OnErr result (1 < length self.now) }
    {
        Ok(Elements {
            items: match self.as_slice() {
                [] => Items::Many(Vec::new(alloc)),
                [element] => Items::One([*element]),
                elements => copied_many(alloc, elements)?,
            },
        })
    }
}

/// Returns a copy of elements, in a vector.
#[cold]
fn copied_many<T: Copy>(alloc: Global, elements: &[T]) -> Result<Items<T>, AllocError>
    ensures { IfOk result (λ copy. listed copy ≡ elements.now) }
{
    Ok(Items::Many(Vec::from_slice(alloc, elements)?))
}

impl<T: Copy> From<[T; 1]> for Elements<T> {
    ghost use Rattle.std.specs.Prelude.{◌≡◌};

    ghost from_gives = { λ items elements. elements ≡ items };

    fn from(items: [T; 1]) -> Elements<T> {
        Elements {
            items: Items::One(items),
        }
    }
}

impl<T: Copy> From<Vec<T>> for Elements<T> {
    ghost use Rattle.std.specs.Prelude.{◌≡◌};

    ghost from_gives = { λ items elements. elements ≡ items.items };

    fn from(items: Vec<T>) -> Elements<T> {
        Elements {
            items: Items::Many(items),
        }
    }
}

impl<T: Copy + PartialEq> PartialEq for Elements<T> {
    ghost use Rattle.std.specs.Cmp.Lexicographic.{pointwise, lists_per};

    ghost eq = { pointwise T.eq };

    ghost laws = { lists_per T.laws };

    fn eq(&self, other: &Self) -> bool {
        self.as_slice() == other.as_slice()
    }
}

impl<T: Copy + Eq> Eq for Elements<T> {
    ghost use Rattle.std.specs.Cmp.Lexicographic.{lists_equiv};

    ghost laws = { lists_equiv T.Eq.laws };
}
