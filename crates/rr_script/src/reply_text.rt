//! The text of a reply.
use rr_protocol::{
    BackpressureStrategy, ClientCreateError, ConnectionFailure, HubCreateError, LoanError,
    ReceiveError, Reply, RequestHeader, RequestSendError, ResponseHeader, SendError,
    ServerCreateError,
};
use rr_run::LeastPoolError;
use std::io::{self, Write};

/// Writes a reply and a line feed.
pub(crate) fn write_reply<W: Write>(out: &mut W, reply: &Reply<u64, u64>) -> io::Result<()> {
    match reply {
        Reply::Pending(number, queues) => writeln!(out, "pending {number} {queues}"),
        Reply::Active(number, request) => writeln!(out, "active {number} {request}"),
        Reply::Payload(elements) => write_elements(out, elements.as_slice()),
        Reply::RequestHeader(header) => write_request_header(out, header),
        Reply::ResponseHeader(header) => write_response_header(out, header),
        other => write_short(out, other),
    }
}

/// Writes a reply that is an error, a name with a number, or a word.
fn write_short<W: Write>(out: &mut W, reply: &Reply<u64, u64>) -> io::Result<()> {
    if let Some(error) = error_text(reply) {
        return writeln!(out, "error {}{}{}", error.call, error.cause, error.name);
    }
    match numbered(reply) {
        Some((name, number)) => writeln!(out, "{name} {number}"),
        None => writeln!(out, "{}", word(reply)),
    }
}

/// The name and the number of a reply that has one number.
fn numbered(reply: &Reply<u64, u64>) -> Option<(&'static str, u64)> {
    match reply {
        Reply::Created(number) => Some(("created", *number)),
        Reply::Loaned(number) => Some(("loaned", *number)),
        Reply::Sent(number) => Some(("sent", *number)),
        Reply::Response(number) => Some(("response", *number)),
        Reply::Count(count) => Some(("count", *count as u64)),
        Reply::UserHeader(header) => Some(("user", *header)),
        Reply::Id(number) => Some(("id", *number)),
        _ => None,
    }
}

/// The text of a reply that has no number.
fn word(reply: &Reply<u64, u64>) -> &'static str {
    match reply {
        Reply::Nothing => "none",
        Reply::Done => "done",
        Reply::Flag(true) => "true",
        Reply::Flag(false) => "false",
        Reply::Strategy(BackpressureStrategy::RetryUntilDelivered) => "retry",
        Reply::Strategy(BackpressureStrategy::DiscardData) => "discard",
        Reply::Unknown => "refused Unknown",
        Reply::WrongKind => "refused WrongKind",
        Reply::NumbersExhausted => "refused NumbersExhausted",
        Reply::Incomplete => "refused Incomplete",
        _ => "refused NoMemory",
    }
}

fn write_request_header<W: Write>(out: &mut W, header: &RequestHeader) -> io::Result<()> {
    writeln!(
        out,
        "request-header {} {} {} {}",
        header.client_id.0, header.request_id, header.number_of_elements, header.node_id.0
    )
}

fn write_response_header<W: Write>(out: &mut W, header: &ResponseHeader) -> io::Result<()> {
    writeln!(
        out,
        "response-header {} {} {} {}",
        header.server_id.0, header.request_id, header.number_of_elements, header.node_id.0
    )
}

/// The elements, each after a space.
fn write_elements<W: Write>(out: &mut W, elements: &[u64]) -> io::Result<()> {
    write!(out, "data")?;
    for element in elements {
        write!(out, " {element}")?;
    }
    writeln!(out)
}

/// The text of an error, in three parts: of which call inside a send it came, why, and its name. The first two end
/// with a space, or are empty.
#[derive(Clone, Copy)]
struct ErrorText {
    call: &'static str,
    cause: &'static str,
    name: &'static str,
}

/// An error of which the text is its name alone.
fn plain(name: &'static str) -> ErrorText {
    ErrorText {
        call: "",
        cause: "",
        name,
    }
}

/// The text of a reply that is an error.
fn error_text(reply: &Reply<u64, u64>) -> Option<ErrorText> {
    match reply {
        Reply::ClientError(error) => Some(plain(client_error(*error))),
        Reply::ServerError(error) => Some(plain(server_error(*error))),
        Reply::LoanError(error) => Some(plain(loan_error(*error))),
        Reply::RequestError(error) => Some(request_error(*error)),
        Reply::SendError(error) => Some(send_error("", *error)),
        Reply::ReceiveError(error) => Some(receive_error(*error)),
        _ => None,
    }
}

fn request_error(error: RequestSendError) -> ErrorText {
    match error {
        RequestSendError::ExceedsMaxActiveRequests => plain("ExceedsMaxActiveRequests"),
        RequestSendError::SendError(error) => send_error("SendError ", error),
    }
}

fn send_error(call: &'static str, error: SendError) -> ErrorText {
    let (cause, name) = match error {
        SendError::LoanError(error) => ("LoanError ", loan_error(error)),
        SendError::ConnectionError(error) => ("ConnectionError ", connection_failure(error)),
        SendError::UnableToDeliver => ("", "UnableToDeliver"),
    };
    ErrorText { call, cause, name }
}

fn receive_error(error: ReceiveError) -> ErrorText {
    match error {
        ReceiveError::ExceedsMaxBorrows => plain("ExceedsMaxBorrows"),
        ReceiveError::ConnectionFailure(error) => ErrorText {
            call: "",
            cause: "ConnectionFailure ",
            name: connection_failure(error),
        },
    }
}

fn client_error(error: ClientCreateError) -> &'static str {
    match error {
        ClientCreateError::UnableToCreateDataSegment => "UnableToCreateDataSegment",
        ClientCreateError::ExceedsMaxSupportedClients => "ExceedsMaxSupportedClients",
        ClientCreateError::FailedToDeployThreadsafetyPolicy => "FailedToDeployThreadsafetyPolicy",
        ClientCreateError::UnableToCreatePortTag => "UnableToCreatePortTag",
    }
}

fn server_error(error: ServerCreateError) -> &'static str {
    match error {
        ServerCreateError::ExceedsMaxSupportedServers => "ExceedsMaxSupportedServers",
        ServerCreateError::UnableToCreateDataSegment => "UnableToCreateDataSegment",
        ServerCreateError::FailedToDeployThreadsafetyPolicy => "FailedToDeployThreadsafetyPolicy",
        ServerCreateError::UnableToCreatePortTag => "UnableToCreatePortTag",
    }
}

fn loan_error(error: LoanError) -> &'static str {
    match error {
        LoanError::OutOfMemory => "OutOfMemory",
        LoanError::ExceedsMaxLoans => "ExceedsMaxLoans",
        LoanError::ExceedsMaxLoanSize => "ExceedsMaxLoanSize",
    }
}

fn connection_failure(error: ConnectionFailure) -> &'static str {
    match error {
        ConnectionFailure::FailedToEstablishConnection => "FailedToEstablishConnection",
    }
}

/// The name of a hub's refusal.
pub(crate) fn hub_error(error: HubCreateError) -> &'static str {
    match error {
        HubCreateError::ZeroLimit => "ZeroLimit",
        HubCreateError::LimitsTooLarge => "LimitsTooLarge",
        HubCreateError::OutOfMemory => "OutOfMemory",
    }
}

/// The name of an error of the least pool.
pub(crate) fn least_pool_error(error: LeastPoolError) -> &'static str {
    match error {
        LeastPoolError::WrongLimits => "WrongLimits",
        LeastPoolError::OutOfMemory => "OutOfMemory",
    }
}
