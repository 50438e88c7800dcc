//! Releases of handles and of port values from a store, each as the message machine releases it.
#![tactic(auto)]

mod active;
mod any;
mod client;
mod leaving;
mod pending;
mod received;
mod request;
mod response_loan;
mod server;

pub use active::release_active_at;
pub use any::release_at;
pub use client::release_client;
pub use leaving::server::leave_server_of_sender_if_unused;
pub use pending::release_pending_at;
pub use received::{release_received_at, take_received_at};
pub use request::release_request_at;
pub use response_loan::release_response_loan_at;
pub use server::release_server;
