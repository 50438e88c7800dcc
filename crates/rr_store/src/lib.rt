//! The store of ports, handles and messages of a core: a `Store`, with a `Side` of clients and one of servers, whose
//! methods each read or change one thing. `specs/` defines what the store represents and its invariants; `proofs/`
//! shows that they are preserved.
#![tactic(auto)]

mod details;
mod handle_entry;
mod handle_id;
mod port;
mod side;
mod store;
mod this_hub;

pub use details::{RequestDetails, ResponseDetails};
pub use handle_entry::{HandleEntry, Stage};
pub use handle_id::HandleId;
pub use port::{ClientPort, ConnectedPort, LeftPort, NO_SERVER, OwnedSender, Port, ServerPort};
pub use side::Side;
pub use store::{NUMBERS, Store};
