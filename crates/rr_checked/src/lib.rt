//! Calls on a hub's core that take any number: each tests its arguments, and refuses with a named error if its caller
//! erred.
//!
//! They are for callers that can't prove that a number names a port or a handle: the runner of commands, and programs
//! in other languages. Each is the step of a command of the message machine, with a reply that reports the call's
//! result.
#![tactic(auto)]

mod creation;
mod loans;
mod naming;
mod ports;
mod queries;
mod receives;
mod refusal;
mod releases;
mod sends;
mod writes;

pub use creation::{create_client, create_server};
pub use loans::{loan, takes_len};
pub use ports::{has_entries, is_deliverable, max_slice_len, strategy, update_connections};
pub use queries::{
    MessageHeader, body, has_hint, header, is_connected, origin, servers, user_header,
};
pub use receives::{Received, receive};
pub use refusal::Refusal;
pub use releases::release;
pub use sends::{Sent, send};
pub use writes::{assume_init, push, set, set_hint, set_user_header};
