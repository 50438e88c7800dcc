//! Bodies of messages: elements, written up to the length of the loan.
ghost use Rattle.std.specs.Prelude.{◌≡◌, ◌<◌, ◌≤◌, ◌↔◌, [], ◌∷◌, ◌++◌, length, slice_get, IsTrue, IsOk, OnOk, OnErr, IfOk};
ghost use Rattle.std.specs.Borrow.{sem, Lends};

use crate::family::Family;
use std::alloc::{AllocError, Global};

/// A list of elements with an asked length, and room for a number of elements, which no call lowers.
///
/// Not in iceoryx2: it replaces a payload that is being written, which iceoryx2 hands out as `MaybeUninit`.
pub trait Body: Drop {
    ghost use Rattle.std.specs.Prelude.{ℕ, List};
    ghost use Rattle.rr_slots.specs.declared.family.Family.{Family};

    /// An element.
    type Item: Drop;

    /// The family of every body of this type.
    ghost family: { Family };

    /// The length of the loan, in elements.
    ghost asked_len: { Self → ℕ };

    /// How many elements fit without further memory.
    ghost room: { Self → ℕ };

    /// The elements written so far.
    ghost elements: { Self → List Self.Item };

    /// Returns the length of the loan, in elements.
    fn asked_len(&self) -> usize
        ensures { result ≡ asked_len self.now };

    /// Drops the elements. The length of the loan stays.
    fn clear(&mut self)
        ensures empty { elements self.new ≡ [] }
        ensures asked { asked_len self.new ≡ asked_len self.old }
        ensures room { room self.new ≡ room self.old };

    /// A body of the typed family has at most one element.
    ghost holds_one: { (body : Self) → family ≡ Family.Typed → length (elements body) ≤ 1 };
}

/// A body that is made, loaned and written. Only `new`, and `prepare` above the room, take memory.
pub trait WriteBody: Body {
    ghost use Rattle.std.specs.Prelude.{ℕ, slice_set};
    ghost use Rattle.rr_slots.specs.Families.{takes_len};

    /// The body after the element at a place became another.
    ghost with_element_at: { Self → ℕ → Self.Item → Self };

    /// The family of every body of this type.
    fn family() -> Family
        ensures { result ≡ Self.family };

    /// An empty body that asks for `len` elements and has room for them. `len` is a length that the family takes.
    /// `Err` if memory was refused.
    fn new(alloc: Global, len: usize) -> Result<Self, AllocError>
        requires { IsTrue (takes_len Self.family len) }
        ensures asked { IfOk result (λ body. Self.asked_len body ≡ len) }
        ensures empty { IfOk result (λ body. Self.elements body ≡ []) }
        ensures room { IfOk result (λ body. len ≤ Self.room body) };

    /// Empties the body and asks for `len` elements, a length that the family takes.
    ///
    /// `Err` if memory for more room was refused; the body is then as before.
    fn prepare(&mut self, len: usize) -> Result<(), AllocError>
        requires { IsTrue (takes_len Self.family len) }
        ensures asked { OnOk result (Self.asked_len self.new ≡ len) }
        ensures empty { OnOk result (Self.elements self.new ≡ []) }
        ensures err { OnErr result (self.new ≡ self.old) }
        ensures grown { OnOk result (len ≤ Self.room self.new) }
        ensures room { Self.room self.old ≤ Self.room self.new }

        // Within the room no memory is taken.
        ensures within_room { len ≤ Self.room self.old → IsOk result };

    /// Appends an element to a body that is not complete.
    fn push(&mut self, item: Self::Item)
        requires { length (Self.elements self.old) < Self.asked_len self.old }
        ensures elements { Self.elements self.new ≡ Self.elements self.old ++ item ∷ [] }
        ensures asked { Self.asked_len self.new ≡ Self.asked_len self.old }
        ensures room { Self.room self.new ≡ Self.room self.old };

    /// Returns whether all elements of the loan were written.
    fn is_complete(&self) -> bool
        ensures complete { IsTrue result ↔ (length (Self.elements self.now) ≡ Self.asked_len self.now) }
        ensures open { ¬ IsTrue result → length (Self.elements self.now) < Self.asked_len self.now };

    /// Returns how many elements were written.
    fn len(&self) -> usize
        ensures { result ≡ length (Self.elements self.now) };

    /// The element at a place.
    fn get(&self, index: usize) -> &Self::Item
        requires { index < length (Self.elements self.now) }
        ensures { slice_get (Self.elements self.now) index ≡ Some result.now };

    /// Lends the element at a place for writing.
    fn get_mut(&mut self, index: usize) -> &mut Self::Item
        requires { index < length (Self.elements self.old) }
        ensures* lends { sem 𝓛 (Lends Self.row Self.Item.row self.entry result (with_element_at self.old index)) }
        ensures value { slice_get (Self.elements self.old) index ≡ Some result.now };

    /// A write at a place replaces that element, and no other.
    ghost sets_one_element: { (body : Self) (index : ℕ) (item : Self.Item)
        → Self.elements (with_element_at body index item) ≡ slice_set (Self.elements body) index item };

    /// The loaned length is unchanged.
    ghost keeps_asked_len: { (body : Self) (index : ℕ) (item : Self.Item)
        → Self.asked_len (with_element_at body index item) ≡ Self.asked_len body };

    /// It keeps the room.
    ghost keeps_room: { (body : Self) (index : ℕ) (item : Self.Item)
        → Self.room (with_element_at body index item) ≡ Self.room body };
}

/// A body whose elements can be copied.
pub trait FillBody: WriteBody {
    ghost use Rattle.std.specs.Prelude.{length, replicate};

    /// Fills the body with copies of one element. Old elements are dropped.
    fn fill(&mut self, element: Self::Item)
        ensures elements { Self.elements self.new ≡ replicate (Self.asked_len self.old) element }
        ensures asked { Self.asked_len self.new ≡ Self.asked_len self.old }
        ensures room { Self.room self.old ≤ Self.room self.new };

    /// Copies these elements, which must be as many as were loaned, into the body. Old elements are dropped.
    fn copy(&mut self, elements: &[Self::Item])
        requires { length elements.now ≡ Self.asked_len self.old }
        ensures elements { Self.elements self.new ≡ elements.now }
        ensures asked { Self.asked_len self.new ≡ Self.asked_len self.old }
        ensures room { Self.room self.old ≤ Self.room self.new };
}

/// A body whose memory keeps its old elements from message to message.
pub trait KeepBody: WriteBody {
    ghost use Rattle.std.specs.Prelude.{length};

    /// Makes the body complete with unspecified elements: those that its memory holds, without a fill if it holds
    /// enough.
    fn complete(&mut self)
        ensures len { length (Self.elements self.new) ≡ Self.asked_len self.old }
        ensures asked { Self.asked_len self.new ≡ Self.asked_len self.old }
        ensures room { Self.room self.old ≤ Self.room self.new };
}

/// A body that lends its elements in a row.
pub trait LendBody: Body {
    ghost use Rattle.std.specs.Prelude.{ℕ, List, length};
    ghost use Rattle.std.specs.List.{refill};
    ghost use Rattle.std.specs.Borrow.{Array};

    /// The body after its elements were replaced by as many others.
    ghost with_items: { Self → List Self.Item → Self };

    /// Lends the elements written so far.
    fn slice_mut(&mut self) -> &mut [Self::Item]
        ensures* lends { sem 𝓛 (Lends Self.row (Array Self.Item.row 0) self.entry result (with_items self.old)) }
        ensures value { result.now ≡ Self.elements self.old };

    /// After `with_items` the elements are the given ones.
    ghost sets_items: { (body : Self) (items : List Self.Item)
        → Self.elements (with_items body items) ≡ refill (length (Self.elements body)) (Self.elements body) items };

    /// The loaned length is unchanged.
    ghost asks_as_before: { (body : Self) (items : List Self.Item)
        → Self.asked_len (with_items body items) ≡ Self.asked_len body };

    /// It keeps the room.
    ghost has_room_as_before: { (body : Self) (items : List Self.Item)
        → Self.room (with_items body items) ≡ Self.room body };
}
