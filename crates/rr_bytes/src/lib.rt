//! A hub of slices whose calls take any number, for programs in other languages: their arguments need no proof.
//!
//! Each call tests its arguments, and is refused with a named error if its caller erred. Contracts see the state of
//! the message machine.
#![tactic(auto)]

mod id;
mod slices;

pub use id::Id;
pub use rr_checked::{MessageHeader, Refusal, Sent};
pub use rr_hub::{
    AllocationStrategy, BackpressureStrategy, ClientSettings, HubCreateError, Kind, Limits,
    RequestHeader, ResponseHeader, ServerSettings, UniqueNodeId,
};
pub use slices::{SentCopy, Slices, WriteRefusal};

/// A hub of bytes, whose messages have a user header of 16 bytes.
pub type Bytes = Slices<u8, [u8; 16], rr_protocol::NoHandler>;
