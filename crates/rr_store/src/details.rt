//! The details of a message beside its body and its user header.

/// The details of a request. Its channel is its slot.
#[derive(Clone, Copy, Debug)]
pub struct RequestDetails {
    /// The request's number.
    pub number: u64,
    /// The client that loaned it.
    pub client: u64,
    /// How many requests its client had loaned before it.
    pub request_id: u64,
}

/// The details of a response. The fields that a receive and a release read come first, on one cache line.
#[derive(Clone, Copy, Debug)]
pub struct ResponseDetails {
    /// The response's number.
    pub number: u64,
    /// The index of the sender of the client that the response is for.
    pub client_sender: usize,
    /// The channel of the request that it answers.
    pub channel: usize,
    /// That request's client.
    pub client: u64,
    /// The server that loaned it.
    pub server: u64,
    /// The active request that it was loaned from.
    pub active_request: u64,
    /// The request that it answers.
    pub request: u64,
    /// That request's id.
    pub request_id: u64,
}
