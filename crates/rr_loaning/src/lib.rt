//! Loans of messages from a store, each as the message machine loans it.
#![tactic(auto)]

mod limits;
mod request;
mod response;

pub use request::{loan_request, new_request_details, request_loan_limit};
pub use response::{loan_response_at, new_response_details, response_loan_limit};
