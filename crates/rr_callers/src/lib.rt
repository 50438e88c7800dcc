//! Callers of `rr_ports` with their contracts and proofs: a function for each form of promise, most of which need no
//! file of proofs.
#![tactic(auto)]

pub mod calling;
pub mod connected;
pub mod counting;
pub mod creating;
pub mod draining;
pub mod each;
pub mod frames;
pub mod keeping;
pub mod parameters;
pub mod pools;
pub mod queued;
pub mod refusals;
pub mod responding;
pub mod sensing;
pub mod serving;
pub mod slices;
pub mod steps;
pub mod streaming;
pub mod taking;
pub mod telling;
pub mod unrefused;
pub mod values;
