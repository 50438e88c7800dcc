//! The commands of a runner.
use crate::{ClientSettings, ServerSettings};
use std::alloc::AllocError;

/// One call of a port or of a handle. The first number names the port or the handle.
///
/// `T` is the type of an element, `H` that of a user header, and `K` that of a backpressure handler. Not in iceoryx2,
/// which has the calls alone.
#[derive(Copy, Debug, PartialEq, Eq)]
pub enum Command<T, H, K> {
    /// Creates a client.
    CreateClient(ClientSettings<K>),
    /// Creates a server.
    CreateServer(ServerSettings<K>),
    /// Loans a message of this many elements for writing: a request of a client, or a response of an active request.
    Loan(u64, usize),
    /// Loans a message of this many default elements, which is ready to send.
    LoanDefault(u64, usize),
    /// Loans a message of one element, writes this one and sends it.
    SendCopy(u64, T),
    /// Appends an element to a body that is being written.
    Push(u64, T),
    /// Replaces the element at an index, counted from 0.
    Set(u64, usize, T),
    /// Replaces the user header.
    SetUserHeader(u64, H),
    /// Makes a message with a complete body ready to send.
    AssumeInit(u64),
    /// Asks whether each queue that a send would reach takes the message.
    IsDeliverable(u64),
    /// Sends a request or a response.
    Send(u64),
    /// Receives a request of a server, or a response of a pending response.
    Receive(u64),
    /// Asks whether a queue that `Receive` would poll has an entry.
    HasEntries(u64),
    /// Asks whether a pending response waits for a server, or an active request for its client.
    IsConnected(u64),
    /// Sets the disconnect hint of a pending response.
    SetHint(u64),
    /// Asks an active request whether the disconnect hint is set.
    HasHint(u64),
    /// Asks how many servers' queues took a request.
    Servers(u64),
    /// Asks for the header.
    Header(u64),
    /// Asks for the user header.
    UserHeader(u64),
    /// Asks for the elements.
    Payload(u64),
    /// Asks from which port a received message came.
    Origin(u64),
    /// Asks for a port's backpressure strategy.
    Strategy(u64),
    /// Asks how many elements a port's slots have room for from the start.
    MaxSliceLen(u64),
    /// Asks a port to connect with new ones, which creation has done.
    UpdateConnections(u64),
    /// Releases a port value or a handle.
    Release(u64),
}

impl<T: Copy, H: Copy, K: Copy> Clone for Command<T, H, K> {
    ghost use Rattle.std.specs.Prelude.{◌≡◌, ⊤};

    ghost is_clone = { λ command copy. copy ≡ command };

    ghost is_infallible = { λ _. ⊤ };

    fn clone(&self) -> Result<Self, AllocError> {
        Ok(*self)
    }
}
