//! Why a call is refused.
ghost use Rattle.std.specs.Prelude.{◌≡◌};
ghost use Rattle.rr_checked.specs.Codes.{code};
ghost use Rattle.rr_checked.specs.declared.refusal.Refusal.TheVariants as Refusal;

use rr_protocol::{
    ClientCreateError, LoanError, ReceiveError, RequestSendError, SendError, ServerCreateError,
};
use thiserror::Error;

/// Why a call was refused. Not in iceoryx2, whose calls need a live port or handle.
///
/// Nothing has changed then, except for two calls: a message whose send is refused is released, and a server whose
/// receive is refused has dropped the dead requests at the fronts of its queues, as a receive that finds nothing
/// does.
#[derive(Clone, Copy, Debug, PartialEq, Eq, Hash, Error)]
pub enum Refusal {
    /// The number names neither a port nor a handle.
    #[error("Refusal::Unknown")]
    Unknown,
    /// The kind of the number has no such call.
    #[error("Refusal::WrongKind")]
    WrongKind,
    /// The hub has assigned all its numbers.
    #[error("Refusal::NumbersExhausted")]
    NumbersExhausted,
    /// Fewer elements were written than were loaned.
    #[error("Refusal::Incomplete")]
    Incomplete,
    /// A client is not created.
    #[error("{0}")]
    Client(ClientCreateError),
    /// A server is not created.
    #[error("{0}")]
    Server(ServerCreateError),
    /// A message is not loaned.
    #[error("{0}")]
    Loan(LoanError),
    /// A request is not sent.
    #[error("{0}")]
    Request(RequestSendError),
    /// A response is not sent.
    #[error("{0}")]
    Send(SendError),
    /// Nothing is received.
    #[error("{0}")]
    Receive(ReceiveError),
}

impl Refusal {
    /// Returns the refusal's code, which is not 0. An error that a loan, a send and a request have in common has one
    /// code.
    pub fn code(self) -> u32
        ensures { result ≡ code self }
    {
        match self {
            Refusal::Unknown => 1,
            Refusal::WrongKind => 2,
            Refusal::NumbersExhausted => 3,
            Refusal::Incomplete => 4,
            Refusal::Client(error) => code_of_client(error),
            Refusal::Server(error) => code_of_server(error),
            Refusal::Loan(error) => code_of_loan(error),
            Refusal::Request(error) => code_of_request(error),
            Refusal::Send(error) => code_of_send(error),
            Refusal::Receive(error) => code_of_receive(error),
        }
    }
}

/// Returns the code of an error of a client's creation.
fn code_of_client(error: ClientCreateError) -> u32
    ensures { result ≡ code (Refusal.Client error) }
{
    match error {
        ClientCreateError::UnableToCreateDataSegment => 10,
        ClientCreateError::ExceedsMaxSupportedClients => 11,
        ClientCreateError::FailedToDeployThreadsafetyPolicy => 12,
        ClientCreateError::UnableToCreatePortTag => 13,
    }
}

/// Returns the code of an error of a server's creation.
fn code_of_server(error: ServerCreateError) -> u32
    ensures { result ≡ code (Refusal.Server error) }
{
    match error {
        ServerCreateError::ExceedsMaxSupportedServers => 20,
        ServerCreateError::UnableToCreateDataSegment => 21,
        ServerCreateError::FailedToDeployThreadsafetyPolicy => 22,
        ServerCreateError::UnableToCreatePortTag => 23,
    }
}

/// Returns the code of an error of a loan.
fn code_of_loan(error: LoanError) -> u32
    ensures { result ≡ code (Refusal.Loan error) }
{
    match error {
        LoanError::OutOfMemory => 30,
        LoanError::ExceedsMaxLoans => 31,
        LoanError::ExceedsMaxLoanSize => 32,
    }
}

/// Returns the code of an error of a response's send.
fn code_of_send(error: SendError) -> u32
    ensures { result ≡ code (Refusal.Send error) }
{
    match error {
        SendError::LoanError(error) => code_of_loan(error),
        SendError::ConnectionError(_) => 40,
        SendError::UnableToDeliver => 41,
    }
}

/// Returns the code of an error of a request's send.
fn code_of_request(error: RequestSendError) -> u32
    ensures { result ≡ code (Refusal.Request error) }
{
    match error {
        RequestSendError::ExceedsMaxActiveRequests => 42,
        RequestSendError::SendError(error) => code_of_send(error),
    }
}

/// Returns the code of an error of a receive.
fn code_of_receive(error: ReceiveError) -> u32
    ensures { result ≡ code (Refusal.Receive error) }
{
    match error {
        ReceiveError::ExceedsMaxBorrows => 50,
        ReceiveError::ConnectionFailure(_) => 51,
    }
}
