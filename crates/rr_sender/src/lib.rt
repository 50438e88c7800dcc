//! The sending half of a port: the slots of its messages, and the queues to each receiver; and the round-robin
//! cursors of receivers.
#![tactic(auto)]

mod bit_sets;
mod links;
mod sender;
mod sender_sets;
mod turns;

pub use bit_sets::BitSets;
pub use sender::{Sender, SenderSize};
pub use sender_sets::SenderSets;
pub use turns::Turns;
