//! Why a call was refused.
use thiserror::Error;

/// Why no hub was made. Not in iceoryx2, which makes services elsewhere.
#[derive(Clone, Copy, Debug, PartialEq, Eq, Hash, Error)]
pub enum HubCreateError {
    /// A limit that must be at least 1 is 0.
    #[error("HubCreateError::ZeroLimit")]
    ZeroLimit,
    /// A worst-case pool of these limits is past `usize::MAX`.
    #[error("HubCreateError::LimitsTooLarge")]
    LimitsTooLarge,
    /// Never returned: making a hub takes no memory.
    #[error("HubCreateError::OutOfMemory")]
    OutOfMemory,
}

/// Why no client was made. iceoryx2's `ClientCreateError`.
#[derive(Clone, Copy, Debug, PartialEq, Eq, Hash, Error)]
pub enum ClientCreateError {
    /// Memory was refused.
    #[error("ClientCreateError::UnableToCreateDataSegment")]
    UnableToCreateDataSegment,
    /// The hub has its maximum of connected clients.
    #[error("ClientCreateError::ExceedsMaxSupportedClients")]
    ExceedsMaxSupportedClients,
    /// Never returned.
    #[error("ClientCreateError::FailedToDeployThreadsafetyPolicy")]
    FailedToDeployThreadsafetyPolicy,
    /// The hub has no number left.
    #[error("ClientCreateError::UnableToCreatePortTag")]
    UnableToCreatePortTag,
}

/// Why no server was made. iceoryx2's `ServerCreateError`.
#[derive(Clone, Copy, Debug, PartialEq, Eq, Hash, Error)]
pub enum ServerCreateError {
    /// The hub has its maximum of connected servers.
    #[error("ServerCreateError::ExceedsMaxSupportedServers")]
    ExceedsMaxSupportedServers,
    /// The worst-case pool of these settings is past `usize::MAX`, or memory was refused.
    #[error("ServerCreateError::UnableToCreateDataSegment")]
    UnableToCreateDataSegment,
    /// Never returned.
    #[error("ServerCreateError::FailedToDeployThreadsafetyPolicy")]
    FailedToDeployThreadsafetyPolicy,
    /// The hub has no number left.
    #[error("ServerCreateError::UnableToCreatePortTag")]
    UnableToCreatePortTag,
}

/// Why nothing was loaned. Named after iceoryx2's `LoanError`.
#[derive(Clone, Copy, Debug, PartialEq, Eq, Hash, Error)]
pub enum LoanError {
    /// The port's live messages fill its pool, or memory for a slice longer than the initial length was refused.
    #[error("LoanError::OutOfMemory")]
    OutOfMemory,
    /// The port, or the active request, has its maximum of loans.
    #[error("LoanError::ExceedsMaxLoans")]
    ExceedsMaxLoans,
    /// The slice is longer than the slots, which may not grow.
    #[error("LoanError::ExceedsMaxLoanSize")]
    ExceedsMaxLoanSize,
}

/// Why two ports are not connected. Never returned, since creation connects them. Named after iceoryx2's
/// `ConnectionFailure`.
#[derive(Clone, Copy, Debug, PartialEq, Eq, Hash, Error)]
pub enum ConnectionFailure {
    /// Never returned.
    #[error("ConnectionFailure::FailedToEstablishConnection")]
    FailedToEstablishConnection,
}

/// Why nothing was sent. Named after iceoryx2's `SendError`.
#[derive(Clone, Copy, Debug, PartialEq, Eq, Hash, Error)]
pub enum SendError {
    /// The loan before the send was refused.
    #[error("SendError::LoanError({0:?})")]
    LoanError(LoanError),
    /// Never returned.
    #[error("SendError::ConnectionError({0:?})")]
    ConnectionError(ConnectionFailure),
    /// A full queue refused the message, which is released.
    #[error("SendError::UnableToDeliver")]
    UnableToDeliver,
}

/// Why no request was sent. iceoryx2's `RequestSendError`.
#[derive(Clone, Copy, Debug, PartialEq, Eq, Hash, Error)]
pub enum RequestSendError {
    /// The client has its maximum of pending responses. The request is released.
    #[error("RequestSendError::ExceedsMaxActiveRequests")]
    ExceedsMaxActiveRequests,
    /// The loan or the send was refused.
    #[error("RequestSendError::SendError({0:?})")]
    SendError(SendError),
}

/// Why nothing was received although a queue has entries. Named after iceoryx2's `ReceiveError`.
#[derive(Clone, Copy, Debug, PartialEq, Eq, Hash, Error)]
pub enum ReceiveError {
    /// Every queue with entries is at its borrow limit.
    #[error("ReceiveError::ExceedsMaxBorrows")]
    ExceedsMaxBorrows,
    /// Never returned.
    #[error("ReceiveError::ConnectionFailure({0:?})")]
    ConnectionFailure(ConnectionFailure),
}

impl From<LoanError> for SendError {
    ghost use Rattle.std.specs.Prelude.{◌≡◌};
    ghost use Rattle.rr_protocol.specs.declared.error.SendError.TheVariants.{LoanError as loan_error};

    ghost from_gives = { λ error given. given ≡ loan_error error };

    fn from(error: LoanError) -> Self {
        SendError::LoanError(error)
    }
}

impl From<ConnectionFailure> for SendError {
    ghost use Rattle.std.specs.Prelude.{◌≡◌};
    ghost use Rattle.rr_protocol.specs.declared.error.SendError.TheVariants.{ConnectionError as connection_error};

    ghost from_gives = { λ failure given. given ≡ connection_error failure };

    fn from(failure: ConnectionFailure) -> Self {
        SendError::ConnectionError(failure)
    }
}

impl From<SendError> for RequestSendError {
    ghost use Rattle.std.specs.Prelude.{◌≡◌};
    ghost use Rattle.rr_protocol.specs.declared.error.RequestSendError.TheVariants.{SendError as send_error};

    ghost from_gives = { λ error given. given ≡ send_error error };

    fn from(error: SendError) -> Self {
        RequestSendError::SendError(error)
    }
}

impl From<LoanError> for RequestSendError {
    ghost use Rattle.std.specs.Prelude.{◌≡◌};
    ghost use Rattle.rr_protocol.specs.declared.error.SendError.TheVariants.{LoanError as loan_error};
    ghost use Rattle.rr_protocol.specs.declared.error.RequestSendError.TheVariants.{SendError as send_error};

    ghost from_gives = { λ error given. given ≡ send_error (loan_error error) };

    fn from(error: LoanError) -> Self {
        RequestSendError::SendError(SendError::LoanError(error))
    }
}

impl From<ConnectionFailure> for RequestSendError {
    ghost use Rattle.std.specs.Prelude.{◌≡◌};
    ghost use Rattle.rr_protocol.specs.declared.error.SendError.TheVariants.{ConnectionError as connection_error};
    ghost use Rattle.rr_protocol.specs.declared.error.RequestSendError.TheVariants.{SendError as send_error};

    ghost from_gives = { λ failure given. given ≡ send_error (connection_error failure) };

    fn from(failure: ConnectionFailure) -> Self {
        RequestSendError::SendError(SendError::ConnectionError(failure))
    }
}

impl From<ConnectionFailure> for ReceiveError {
    ghost use Rattle.std.specs.Prelude.{◌≡◌};
    ghost use Rattle.rr_protocol.specs.declared.error.ReceiveError.TheVariants.{ConnectionFailure as connection_failure};

    ghost from_gives = { λ failure given. given ≡ connection_failure failure };

    fn from(failure: ConnectionFailure) -> Self {
        ReceiveError::ConnectionFailure(failure)
    }
}
