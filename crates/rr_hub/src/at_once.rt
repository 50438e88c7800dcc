//! Messages of one element that a single call loans, writes and sends.
mod request;
mod response;

pub(crate) use request::send_request_at_once;
pub(crate) use response::send_response_at_once;
