//! The replies of a runner.
ghost use Rattle.std.specs.Prelude.{◌≡◌, IfOk, OnErr};
ghost use Rattle.rr_protocol.specs.Payloads.{HasSeveral};

use crate::elements::Elements;
use crate::{
    BackpressureStrategy, ClientCreateError, LoanError, ReceiveError, RequestHeader,
    RequestSendError, ResponseHeader, SendError, ServerCreateError,
};
use std::alloc::{AllocError, Global};

/// The reply to a command. The last five are refusals before the command acts, which leave everything as it was.
#[derive(Debug, Drop, PartialEq, Eq)]
pub enum Reply<T: Copy, H: Copy> {
    /// The number of the port that was created.
    Created(u64),
    /// Why no client was created.
    ClientError(ClientCreateError),
    /// Why no server was created.
    ServerError(ServerCreateError),
    /// The number of the message that was loaned.
    Loaned(u64),
    /// Why nothing was loaned.
    LoanError(LoanError),
    /// The number of a request that was sent, and how many queues took it.
    Pending(u64, usize),
    /// Why no request was sent.
    RequestError(RequestSendError),
    /// The number of a response that was sent.
    Sent(u64),
    /// Why no response was sent.
    SendError(SendError),
    /// The number of an active request, and that of its request.
    Active(u64, u64),
    /// The number of a response that was received.
    Response(u64),
    /// No message was received: the queues are empty.
    Nothing,
    /// Why nothing was received.
    ReceiveError(ReceiveError),
    /// The command was carried out.
    Done,
    /// The answer to a question of yes or no.
    Flag(bool),
    /// A count, of queues or of elements.
    Count(usize),
    /// A request's header.
    RequestHeader(RequestHeader),
    /// A response's header.
    ResponseHeader(ResponseHeader),
    /// A user header.
    UserHeader(H),
    /// The elements of a message.
    Payload(Elements<T>),
    /// The number of a port.
    Id(u64),
    /// A port's strategy.
    Strategy(BackpressureStrategy),
    /// No live port or handle has the number.
    Unknown,
    /// The named port or handle has no such call, or the family has no messages of this length.
    WrongKind,
    /// The call takes a number, and the hub has none left.
    NumbersExhausted,
    /// The body is not complete.
    Incomplete,
    /// The runner had no memory for a copy of a payload.
    NoMemory,
}

impl<T: Copy, H: Copy> Reply<T, H> {
    /// Returns an equal reply. Only the elements of a payload that has several take memory.
    ///
    /// It is inlined because a history copies each reply, and most replies are at most two words. Not in iceoryx2.
    ///
    /// # Errors
    ///
    /// - `AllocError` if the reply is a payload of several elements, and there was no memory for them.
    #[inline(always)]
    pub fn copied(&self, alloc: Global) -> Result<Self, AllocError>
        ensures ok { IfOk result (λ copy. copy ≡ self.now) }
        ensures err { OnErr result (HasSeveral self.now) }
    {
        Ok(match self {
            Reply::Created(number) => Reply::Created(*number),
            Reply::ClientError(error) => Reply::ClientError(*error),
            Reply::ServerError(error) => Reply::ServerError(*error),
            Reply::Loaned(number) => Reply::Loaned(*number),
            Reply::LoanError(error) => Reply::LoanError(*error),
            Reply::Pending(number, connections) => Reply::Pending(*number, *connections),
            Reply::RequestError(error) => Reply::RequestError(*error),
            Reply::Sent(number) => Reply::Sent(*number),
            Reply::SendError(error) => Reply::SendError(*error),
            Reply::Active(number, request) => Reply::Active(*number, *request),
            Reply::Response(number) => Reply::Response(*number),
            Reply::Nothing => Reply::Nothing,
            Reply::ReceiveError(error) => Reply::ReceiveError(*error),
            Reply::Done => Reply::Done,
            Reply::Flag(flag) => Reply::Flag(*flag),
            Reply::Count(count) => Reply::Count(*count),
            Reply::RequestHeader(header) => Reply::RequestHeader(*header),
            Reply::ResponseHeader(header) => Reply::ResponseHeader(*header),
            Reply::UserHeader(header) => Reply::UserHeader(*header),
            Reply::Payload(elements) => Reply::Payload(elements.copied(alloc)?),
            Reply::Id(number) => Reply::Id(*number),
            Reply::Strategy(strategy) => Reply::Strategy(*strategy),
            Reply::Unknown => Reply::Unknown,
            Reply::WrongKind => Reply::WrongKind,
            Reply::NumbersExhausted => Reply::NumbersExhausted,
            Reply::Incomplete => Reply::Incomplete,
            Reply::NoMemory => Reply::NoMemory,
        })
    }
}
