//! Tokens that count by numbers of any size.
ghost use Rattle.std.specs.Prelude.{◌≡◌, ℕ, ◌+◌, ◌<◌};

use std::sync::ledger::{Book, Ledger, Share};

/// Adds an amount of any size, which the caller picks, to a share and to the book's total. It does nothing at run
/// time.
pub fn add_any<L: Ledger>(book: &mut Book<L>, share: &mut Share<L>)
    ghost plus: { ℕ }
    requires { 0 < share.old.parts }
    ensures total { book.new.total ≡ book.old.total + plus }
    ensures amount { share.new.amount ≡ share.old.amount + plus }
    ensures parts { share.new.parts ≡ share.old.parts }
{}

/// The same, if the caller's choice may read an item.
pub fn add_for<L: Ledger, T>(book: &mut Book<L>, share: &mut Share<L>, _item: &T)
    ghost plus: { ℕ }
    requires { 0 < share.old.parts }
    ensures total { book.new.total ≡ book.old.total + plus }
    ensures amount { share.new.amount ≡ share.old.amount + plus }
    ensures parts { share.new.parts ≡ share.old.parts }
{
    add_any(book, share)
}
