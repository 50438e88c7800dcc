//! A hub of ports that threads share. Each thread holds its ports and handles, and calls them as those of `rr_ports`,
//! under one lock; a history that exists in proofs alone gives each caller the states before and after its call.
#![tactic(auto)]

mod active_request;
mod claimed;
mod claims;
mod client;
mod deadline;
mod desk;
mod error;
mod legal;
mod lend;
mod locked;
mod naming;
mod opened;
mod pending_response;
mod ports;
mod release;
mod seat;
mod sending;
mod server;
mod shared_ports;
pub mod sliced;
mod try_send;
pub mod typed;
mod waiting;
mod waking;
mod writing;

pub use claimed::Claimed;
pub use error::{AskError, CallError, FinishError, ServeError, WaitError, WriteError};
pub use naming::Naming;
pub use opened::Opened;
pub use ports::{Header, Ports};
pub use release::Release;
pub use seat::Seat;
pub use shared_ports::SharedPorts;
