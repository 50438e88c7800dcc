//! A table of values by number, each in a fixed place of a row; and in `specs/` and `proofs/` words and laws on lists
//! and finite maps that std lacks.
#![tactic(auto)]

mod place;
mod seek;
mod table;

pub use place::Place;
pub use table::Table;
