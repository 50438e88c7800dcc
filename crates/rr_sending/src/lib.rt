//! Sends of messages from a store, each as the message machine sends it, and whether a send would be refused.
#![tactic(auto)]

mod deliverable;
mod full;
mod request;
mod response;

pub use deliverable::{takes_request, takes_response};
pub use request::{open_connections, request_refusal_at, request_send_limit, send_request_at};
pub use response::{is_response_refused, is_response_refused_at, send_response_at};
