//! A hub that threads share, with a history that exists in proofs alone: a caller that has a reply knows that it is
//! part of one legal history of all threads. Nothing is recorded at run time.
#![tactic(auto)]

mod call;
mod desk;
mod finished;
mod naming;
mod opened;
mod seat;
mod shared_hub;

pub use finished::Finished;
pub use naming::Naming;
pub use opened::Opened;
pub use rr_run::{Command, Elements, Reply};
pub use seat::Seat;
pub use shared_hub::SharedHub;
