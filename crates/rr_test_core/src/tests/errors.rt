//! The texts of errors, as iceoryx2 has them.
use rr_protocol::{ClientCreateError, LoanError, RequestSendError, SendError, ServerCreateError};
use std::alloc::{AllocError, Global};
use std::fmt::Display;

/// Whether a value is shown as this text.
fn is_shown<E: Display>(alloc: Global, value: &E, text: &str) -> Result<bool, AllocError> {
    let shown = format!(in alloc; "{value}")?;
    Ok(shown.as_str() == text)
}

#[test]
fn a_request_send_error_tells_its_type_and_variant(rt: HostRuntime) -> Result<(), AllocError> {
    let cases = [
        (
            RequestSendError::ExceedsMaxActiveRequests,
            "RequestSendError::ExceedsMaxActiveRequests",
        ),
        (
            RequestSendError::SendError(SendError::UnableToDeliver),
            "RequestSendError::SendError(UnableToDeliver)",
        ),
        (
            RequestSendError::SendError(SendError::LoanError(LoanError::OutOfMemory)),
            "RequestSendError::SendError(LoanError(OutOfMemory))",
        ),
    ];
    for (error, text) in cases {
        assert!(rt; is_shown(rt.alloc(), &error, text)?, "{text}");
    }
    Ok(())
}

#[test]
fn a_client_create_error_tells_its_type_and_variant(rt: HostRuntime) -> Result<(), AllocError> {
    let cases = [
        (
            ClientCreateError::UnableToCreateDataSegment,
            "ClientCreateError::UnableToCreateDataSegment",
        ),
        (
            ClientCreateError::ExceedsMaxSupportedClients,
            "ClientCreateError::ExceedsMaxSupportedClients",
        ),
        (
            ClientCreateError::FailedToDeployThreadsafetyPolicy,
            "ClientCreateError::FailedToDeployThreadsafetyPolicy",
        ),
        (
            ClientCreateError::UnableToCreatePortTag,
            "ClientCreateError::UnableToCreatePortTag",
        ),
    ];
    for (error, text) in cases {
        assert!(rt; is_shown(rt.alloc(), &error, text)?, "{text}");
    }
    Ok(())
}

#[test]
fn a_server_create_error_tells_its_type_and_variant(rt: HostRuntime) -> Result<(), AllocError> {
    let cases = [
        (
            ServerCreateError::ExceedsMaxSupportedServers,
            "ServerCreateError::ExceedsMaxSupportedServers",
        ),
        (
            ServerCreateError::UnableToCreateDataSegment,
            "ServerCreateError::UnableToCreateDataSegment",
        ),
        (
            ServerCreateError::FailedToDeployThreadsafetyPolicy,
            "ServerCreateError::FailedToDeployThreadsafetyPolicy",
        ),
        (
            ServerCreateError::UnableToCreatePortTag,
            "ServerCreateError::UnableToCreatePortTag",
        ),
    ];
    for (error, text) in cases {
        assert!(rt; is_shown(rt.alloc(), &error, text)?, "{text}");
    }
    Ok(())
}
