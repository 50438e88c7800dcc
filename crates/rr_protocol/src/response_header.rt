//! The header that travels with each response, beside its payload and its user header.
ghost use Rattle.std.specs.Prelude.{◌≡◌};

use crate::identifiers::{UniqueNodeId, UniqueServerId};

/// The header of a response, after iceoryx2's `ResponseHeader`.
#[derive(Clone, Copy, Debug, PartialEq, Eq, Hash)]
pub struct ResponseHeader {
    pub server_id: UniqueServerId,
    pub request_id: u64,
    pub number_of_elements: u64,
    pub node_id: UniqueNodeId,
}

impl ResponseHeader {
    /// Returns the server that loaned the response.
    pub fn server_id(&self) -> UniqueServerId
        ensures { result ≡ self.now.server_id }
    {
        self.server_id
    }

    /// Returns the id that the client gave to the request that this response answers.
    pub fn request_id(&self) -> u64
        ensures { result ≡ self.now.request_id }
    {
        self.request_id
    }

    /// Returns the loaned length of the payload, in elements.
    pub fn number_of_elements(&self) -> u64
        ensures { result ≡ self.now.number_of_elements }
    {
        self.number_of_elements
    }

    /// Returns the node of the hub.
    pub fn node_id(&self) -> UniqueNodeId
        ensures { result ≡ self.now.node_id }
    {
        self.node_id
    }
}
