//! Tests of the crates below the ports. In `proofs/`: replies that the message machine can't give, and histories that
//! break the answer rule.
#![tactic(auto)]

#[cfg(test)]
mod tests;
