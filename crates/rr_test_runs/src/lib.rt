//! Tests of scripts and of the runner, in a crate of their own, so that neither is checked twice.
#![tactic(auto)]

#[cfg(test)]
mod tests;
