//! A log that exists in proofs alone. One pen appends entries to it, callers see prefixes of it, and no entry is kept
//! in memory.
#![tactic(auto)]

mod log;
mod moves;
mod name;
mod pen;
mod seen;

pub use log::Log;
pub use pen::Pen;
pub use seen::Seen;
