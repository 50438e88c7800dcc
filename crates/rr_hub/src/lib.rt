//! A hub's core: all ports, handles and messages of a service, each call a step of the message machine.
#![tactic(auto)]

mod at_once;
mod connected;
mod create;
mod header;
mod hint;
mod kinds;
mod lend;
mod loan;
mod making;
mod query;
mod queue;
mod receive;
mod release;
mod send;
mod settings;
mod state;
mod write;

pub use rr_protocol::{
    AllocationStrategy, BackpressureAction, BackpressureFn, BackpressureInfo, BackpressureStrategy,
    ClientCreateError, ClientSettings, ConnectionFailure, HubCreateError, Kind, Limits, LoanError,
    ReceiveError, RequestHeader, RequestSendError, ResponseHeader, SendError, ServerCreateError,
    ServerSettings, UniqueClientId, UniqueNodeId, UniqueServerId,
};
pub use rr_store::HandleId;
pub use state::Core;
