//! Ghost claims on a locked value: while a thread holds a claim on a number, no other thread can invalidate it.
//! Claims exist in proofs alone.
#![tactic(auto)]

mod claim;
mod keeper;
mod roster;
mod rules;
mod shown;

pub use claim::Claim;
pub use keeper::Keeper;
pub use rules::{Named, Says};
