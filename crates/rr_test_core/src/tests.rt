//! Tests of the crates below the ports, of what no proof shows: values and texts of iceoryx2, calls that nothing
//! above makes, and comparisons that other tests rest on.
//!
//! - Limits: the defaults of iceoryx2, the sizes of pools, and which limits are refused first (`limits`).
//! - The texts of errors (`errors`).
//! - A table of channels, which no hub uses (`channels`).
//! - Replies that differ are not equal, and copies are (`replies`).
//! - The examples of `rr_log` and `rr_claims` (`logs`, `claims`).
mod channels;
mod claims;
mod errors;
mod limits;
mod logs;
mod replies;
