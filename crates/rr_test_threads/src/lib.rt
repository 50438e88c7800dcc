//! Tests of what threads share: ports, hubs of commands, and locked hubs.
#![tactic(auto)]

#[cfg(test)]
mod tests;
