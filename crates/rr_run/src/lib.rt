//! A runner, which carries out commands one by one or in lists, and the least sufficient request pool.
#![tactic(auto)]

mod commands;
mod error;
mod least;
mod places;
mod runner;

pub use commands::run;
pub use error::OutOfMemory;
pub use least::{LeastPoolError, PoolCommand, PoolReply, least_pool};
pub use rr_protocol::{Command, Elements, Reply};
pub use runner::Runner;
