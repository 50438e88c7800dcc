//! Replies from the results of calls.
ghost use Rattle.std.specs.Prelude.{◌≡◌, ◌≢◌};
ghost use Rattle.rr_checked.specs.Answers.{refused, replied, shown};

use rr_checked::{MessageHeader, Refusal};
use rr_protocol::{BackpressureStrategy, Reply};

/// Returns the reply for a refusal.
pub(crate) fn refused<T: Copy, H: Copy>(refusal: Refusal) -> Reply<T, H>
    ensures reply { result ≡ refused refusal }
    ensures memory { result ≢ Reply.NoMemory }
{
    match refusal {
        Refusal::Unknown => Reply::Unknown,
        Refusal::WrongKind => Reply::WrongKind,
        Refusal::NumbersExhausted => Reply::NumbersExhausted,
        Refusal::Incomplete => Reply::Incomplete,
        Refusal::Client(error) => Reply::ClientError(error),
        Refusal::Server(error) => Reply::ServerError(error),
        Refusal::Loan(error) => Reply::LoanError(error),
        Refusal::Request(error) => Reply::RequestError(error),
        Refusal::Send(error) => Reply::SendError(error),
        Refusal::Receive(error) => Reply::ReceiveError(error),
    }
}

/// Returns the reply with the number of a new port, or with the refusal.
pub(crate) fn created<T: Copy, H: Copy>(answer: Result<u64, Refusal>) -> Reply<T, H>
    ensures reply { result ≡ replied Reply.Created answer }
    ensures memory { result ≢ Reply.NoMemory }
{
    match answer {
        Ok(number) => Reply::Created(number),
        Err(refusal) => refused(refusal),
    }
}

/// Returns `Done`, or the reply with the refusal.
pub(crate) fn done<T: Copy, H: Copy>(answer: Result<(), Refusal>) -> Reply<T, H>
    ensures reply { result ≡ replied (λ done. Reply.Done) answer }
    ensures memory { result ≢ Reply.NoMemory }
{
    match answer {
        Ok(()) => Reply::Done,
        Err(refusal) => refused(refusal),
    }
}

/// Returns the reply with a flag, or with the refusal.
pub(crate) fn flag<T: Copy, H: Copy>(answer: Result<bool, Refusal>) -> Reply<T, H>
    ensures reply { result ≡ replied Reply.Flag answer }
    ensures memory { result ≢ Reply.NoMemory }
{
    match answer {
        Ok(flag) => Reply::Flag(flag),
        Err(refusal) => refused(refusal),
    }
}

/// Returns the reply with a count, or with the refusal.
pub(crate) fn count<T: Copy, H: Copy>(answer: Result<usize, Refusal>) -> Reply<T, H>
    ensures reply { result ≡ replied Reply.Count answer }
    ensures memory { result ≢ Reply.NoMemory }
{
    match answer {
        Ok(count) => Reply::Count(count),
        Err(refusal) => refused(refusal),
    }
}

/// Returns the reply with the number of a port, or with the refusal.
pub(crate) fn id<T: Copy, H: Copy>(answer: Result<u64, Refusal>) -> Reply<T, H>
    ensures reply { result ≡ replied Reply.Id answer }
    ensures memory { result ≢ Reply.NoMemory }
{
    match answer {
        Ok(id) => Reply::Id(id),
        Err(refusal) => refused(refusal),
    }
}

/// Returns the reply with the strategy, or with the refusal.
pub(crate) fn strategy<T: Copy, H: Copy>(
    answer: Result<BackpressureStrategy, Refusal>,
) -> Reply<T, H>
    ensures reply { result ≡ replied Reply.Strategy answer }
    ensures memory { result ≢ Reply.NoMemory }
{
    match answer {
        Ok(strategy) => Reply::Strategy(strategy),
        Err(refusal) => refused(refusal),
    }
}

/// Returns the reply with the user header, or with the refusal.
pub(crate) fn user_header<T: Copy, H: Copy>(answer: Result<H, Refusal>) -> Reply<T, H>
    ensures reply { result ≡ replied Reply.UserHeader answer }
    ensures memory { result ≢ Reply.NoMemory }
{
    match answer {
        Ok(header) => Reply::UserHeader(header),
        Err(refusal) => refused(refusal),
    }
}

/// Returns the reply with the header, or with the refusal.
pub(crate) fn header<T: Copy, H: Copy>(answer: Result<MessageHeader, Refusal>) -> Reply<T, H>
    ensures reply { result ≡ replied shown answer }
    ensures memory { result ≢ Reply.NoMemory }
{
    match answer {
        Ok(MessageHeader::Request(header)) => Reply::RequestHeader(header),
        Ok(MessageHeader::Response(header)) => Reply::ResponseHeader(header),
        Err(refusal) => refused(refusal),
    }
}
