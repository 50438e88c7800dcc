//! The protocol of a service: limits, settings, ids, headers, errors, kinds, commands and replies. Its `specs/` hold
//! the message machine, its steps and its runs.
#![tactic(auto)]

mod backpressure;
mod command;
mod elements;
mod error;
mod identifiers;
mod kind;
mod limits;
mod no_handler;
mod reply;
mod request_header;
mod response_header;
mod settings;

pub use backpressure::{BackpressureFn, BackpressureInfo};
pub use command::Command;
pub use elements::Elements;
pub use error::{
    ClientCreateError, ConnectionFailure, HubCreateError, LoanError, ReceiveError,
    RequestSendError, SendError, ServerCreateError,
};
pub use identifiers::{UniqueClientId, UniqueNodeId, UniqueServerId};
pub use kind::Kind;
pub use limits::Limits;
pub use no_handler::NoHandler;
pub use reply::Reply;
pub use request_header::RequestHeader;
pub use response_header::ResponseHeader;
pub use settings::{
    AllocationStrategy, BackpressureAction, BackpressureStrategy, ClientSettings, ServerSettings,
};
