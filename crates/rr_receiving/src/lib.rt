//! Receiving from a store, each as the message machine receives.
#![tactic(auto)]

mod request;
mod response;

pub use request::receive_request;
pub use response::receive_response_at;
