//! The kinds of ports and handles.

/// The kind of a port or of a handle. Each is named after its type.
#[derive(Clone, Copy, Debug, PartialEq, Eq, Hash)]
pub enum Kind {
    /// The value of a client.
    Client,
    /// The value of a server.
    Server,
    /// A loaned request whose body is being written.
    RequestMutUninit,
    /// A loaned request that can be sent.
    RequestMut,
    /// A request that was sent, and whose responses are received.
    PendingResponse,
    /// A request that a server received and may answer.
    ActiveRequest,
    /// A loaned response whose body is being written.
    ResponseMutUninit,
    /// A loaned response that can be sent.
    ResponseMut,
    /// A response that was received.
    Response,
}
