//! The header that travels with each request, beside its payload and its user header.
ghost use Rattle.std.specs.Prelude.{◌≡◌};

use crate::identifiers::{UniqueClientId, UniqueNodeId};

/// The header of a request, after iceoryx2's `RequestHeader`.
#[derive(Clone, Copy, Debug, PartialEq, Eq, Hash)]
pub struct RequestHeader {
    pub client_id: UniqueClientId,
    pub request_id: u64,
    pub number_of_elements: u64,
    pub node_id: UniqueNodeId,
}

impl RequestHeader {
    /// Returns the client that loaned the request.
    pub fn client_id(&self) -> UniqueClientId
        ensures { result ≡ self.now.client_id }
    {
        self.client_id
    }

    /// Returns how many requests the client had loaned before this one.
    pub fn request_id(&self) -> u64
        ensures { result ≡ self.now.request_id }
    {
        self.request_id
    }

    /// Returns the loaned length of the payload, in elements.
    pub fn number_of_elements(&self) -> u64
        ensures { result ≡ self.now.number_of_elements }
    {
        self.number_of_elements
    }

    /// Returns the node of the hub.
    pub fn node_id(&self) -> UniqueNodeId
        ensures { result ≡ self.now.node_id }
    {
        self.node_id
    }
}
