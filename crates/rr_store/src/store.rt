//! The store of a core, as one value.
use crate::side::Side;
use crate::{ClientPort, HandleEntry, RequestDetails, ResponseDetails, ServerPort};
use rr_protocol::{BackpressureFn, Limits, UniqueNodeId};
use rr_sender::Turns;
use rr_slots::Body;
use rr_table::Table;

mod handles;

/// How many numbers a store gives to ports and handles: 2^62, as many as iceoryx2 has request ids.
pub const NUMBERS: u64 = 4611686018427387904;

/// All ports, handles and messages of a service, in public fields: a call of a core changes the side or the table
/// that it concerns. `opened` gives its parts.
///
/// A handle is an entry of the table, under its number; it names its message by sender and slot.
///
/// `QB` and `QH` are the body and the user header of requests, `PB` and `PH` those of responses, and `K` is the type
/// of backpressure handlers.
#[derive(Drop)]
pub struct Store<QB: Body, QH: Default + Drop, PB: Body, PH: Default + Drop, K: BackpressureFn> {
    // The fields that nearly every call reads come first, where an instruction addresses them with one byte. The next
    // number to assign.
    pub next: u64,
    /// The clients, and all requests.
    pub clients: Side<QB, RequestDetails, QH, ClientPort<K>>,
    /// The handles by number.
    pub table: Table<HandleEntry>,
    /// The servers, and all responses.
    pub servers: Side<PB, ResponseDetails, PH, ServerPort<K>>,
    /// The limits of the service.
    pub limits: Limits,
    /// The node.
    pub node_id: UniqueNodeId,
    /// For each server, the client's sender to poll first, on its one channel.
    pub request_turns: Turns,
    /// For each client and channel, the server's sender to poll first.
    pub response_turns: Turns,
}
