//! The storage of messages, below any hub: bodies that are written element by element, pools of them, the queues
//! between two ports, and channels.
#![tactic(auto)]

mod body;
mod channel_state;
mod channel_table;
mod connection;
mod family;
mod holders;
mod kept_body;
mod looks;
mod option_body;
mod plain_body;
mod pool;
mod slice_body;
mod slot;

pub use body::{Body, FillBody, KeepBody, LendBody, WriteBody};
pub use channel_state::{ChannelState, RequestId};
pub use channel_table::{Channel, ChannelTable};
pub use connection::Connection;
pub use family::Family;
pub use kept_body::KeptBody;
pub use plain_body::PlainBody;
pub use pool::{AcquireError, Pool};
pub use slice_body::SliceBody;
