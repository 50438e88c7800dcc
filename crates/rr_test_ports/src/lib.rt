//! Tests of the ports' public calls, in a crate of their own: the tests of a crate are checked with the whole of it.
#![tactic(auto)]

#[cfg(test)]
mod tests;
