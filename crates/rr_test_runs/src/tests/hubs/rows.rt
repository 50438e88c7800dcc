//! Commands to hubs of numbers, with the replies that they have to get.
use rr_protocol::{
    ClientSettings, Command, Elements, Limits, NoHandler, Reply, RequestHeader, ServerSettings,
    UniqueClientId, UniqueNodeId,
};

/// A command to a hub of numbers.
pub type HubCommand = Command<u64, u64, NoHandler>;

/// A reply of it.
pub type HubReply = Reply<u64, u64>;

/// Who submits a command.
#[derive(Clone, Copy, PartialEq, Eq)]
pub enum Who {
    /// The one of two seats.
    One,
    /// The other one.
    Other,
}

/// The node id of each hub.
pub const NODE: UniqueNodeId = UniqueNodeId(7);

/// One client, one server, two loaned and two active requests, two queued and one borrowed response.
pub const ONE_CLIENT: Limits = Limits {
    max_loaned_requests: 2,
    max_active_requests_per_client: 2,
    max_response_buffer_size: 2,
    client_expired_connection_buffer: 1,
    server_expired_connection_buffer: 1,
    ..Limits::SMALLEST
};

/// The same with two clients.
pub const TWO_CLIENTS: Limits = Limits {
    max_clients: 2,
    ..ONE_CLIENT
};

/// Returns the command that creates a client with the default settings.
pub fn new_client() -> HubCommand {
    Command::CreateClient(ClientSettings::default())
}

/// Returns the command that creates a server with the default settings.
pub fn new_server() -> HubCommand {
    Command::CreateServer(ServerSettings::default())
}

/// One seat's client 0 sends a request 2, which the other seat's server receives, and is released with it. A client 4
/// takes its place, sends a request 5, and gets none of the responses to the request 2.
pub fn in_its_place() -> [(Who, HubCommand, HubReply); 15] {
    let header = RequestHeader {
        client_id: UniqueClientId(4),
        request_id: 0,
        number_of_elements: 1,
        node_id: NODE,
    };
    [
        (Who::One, new_client(), Reply::Created(0)),
        (Who::Other, new_server(), Reply::Created(1)),
        (Who::One, Command::SendCopy(0, 5), Reply::Pending(2, 1)),
        (Who::Other, Command::Receive(1), Reply::Active(3, 2)),
        (
            Who::Other,
            Command::Payload(3),
            Reply::Payload(Elements::from([5])),
        ),
        (Who::One, Command::Release(2), Reply::Done),
        (Who::One, Command::Release(0), Reply::Done),
        (Who::One, new_client(), Reply::Created(4)),
        (Who::One, Command::SendCopy(4, 2), Reply::Pending(5, 1)),
        (Who::One, Command::Header(5), Reply::RequestHeader(header)),
        (Who::Other, Command::IsConnected(3), Reply::Flag(false)),
        (Who::Other, Command::Origin(3), Reply::Id(0)),
        (Who::Other, Command::SendCopy(3, 9), Reply::Sent(6)),
        (Who::One, Command::HasEntries(5), Reply::Flag(false)),
        (Who::Other, Command::Release(9), Reply::Unknown),
    ]
}
