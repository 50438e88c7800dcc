//! A hub that threads share: a lock around a runner with a history. Each caller has a receipt for each of its calls,
//! and all receipts together are one history of the message machine.
#![tactic(auto)]

mod bells;
mod book;
mod calls;
mod hub_command;
mod locked_hub;
mod opening;
mod receipt;
mod seat;
mod submit;
mod sums;
mod worker_error;
mod workers;

pub use bells::{Bell, Bells};
pub use book::{Book, MOST_SEATS, PARTS};
pub use calls::{payload, receive, release, send_copy, take_response};
pub use hub_command::{CREATE_CLIENT, CREATE_SERVER, HubCommand, HubReply};
pub use locked_hub::LockedHub;
pub use receipt::Receipt;
pub use seat::Seat;
pub use submit::Submit;
pub use worker_error::WorkerError;
pub use workers::{Plan, answer_all, ask_all};
