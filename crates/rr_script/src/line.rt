//! The lines of a script.
use crate::words::{Words, number};
use rr_protocol::{
    AllocationStrategy, BackpressureStrategy, ClientSettings, Command, Limits, NoHandler,
    ServerSettings,
};
use rr_slots::Family;

/// A command of a script, whose elements and user headers are numbers.
pub(crate) type ScriptCommand = Command<u64, u64, NoHandler>;

/// A parsed line.
#[derive(Drop)]
pub(crate) enum Line {
    /// It makes a hub of a family.
    Hub(Family, Limits),
    /// It is a command.
    Command(ScriptCommand),
}

/// Parses a line from its first word and those after it. Returns `None` if it isn't one of the script's lines.
pub(crate) fn line_of(first: &str, words: &mut Words) -> Option<Line> {
    let line = match first {
        "hub" => Line::Hub(family(words.take()?)?, limits(words)?),
        name => Line::Command(command(name, words)?),
    };
    if words.is_done() { Some(line) } else { None }
}

/// The command with this first word.
fn command(name: &str, words: &mut Words) -> Option<ScriptCommand> {
    match name {
        "client" => Some(Command::CreateClient(client(words)?)),
        "server" => Some(Command::CreateServer(server(words)?)),
        _ => call(name, words.number()?, words),
    }
}

/// The command with this first word, on the port or handle with a number.
fn call(name: &str, number: u64, words: &mut Words) -> Option<ScriptCommand> {
    match name {
        "loan" => Some(Command::Loan(number, words.count()?)),
        "default" => Some(Command::LoanDefault(number, words.count()?)),
        "copy" => Some(Command::SendCopy(number, words.number()?)),
        "push" => Some(Command::Push(number, words.number()?)),
        "set" => Some(Command::Set(number, words.count()?, words.number()?)),
        "uset" => Some(Command::SetUserHeader(number, words.number()?)),
        "init" => Some(Command::AssumeInit(number)),
        "send" => Some(Command::Send(number)),
        "recv" => Some(Command::Receive(number)),
        "hint" => Some(Command::SetHint(number)),
        "drop" => Some(Command::Release(number)),
        _ => question(name, number),
    }
}

/// The question with this first word, of the port or handle with a number.
fn question(name: &str, number: u64) -> Option<ScriptCommand> {
    match name {
        "ready" => Some(Command::IsDeliverable(number)),
        "has" => Some(Command::HasEntries(number)),
        "conn" => Some(Command::IsConnected(number)),
        "hinted" => Some(Command::HasHint(number)),
        "count" => Some(Command::Servers(number)),
        "head" => Some(Command::Header(number)),
        "user" => Some(Command::UserHeader(number)),
        "data" => Some(Command::Payload(number)),
        "origin" => Some(Command::Origin(number)),
        "strategy" => Some(Command::Strategy(number)),
        "maxlen" => Some(Command::MaxSliceLen(number)),
        "update" => Some(Command::UpdateConnections(number)),
        _ => None,
    }
}

/// The family of a hub's messages.
fn family(word: &str) -> Option<Family> {
    match word {
        "typed" => Some(Family::Typed),
        "sliced" => Some(Family::Sliced),
        _ => None,
    }
}

/// The limits of a hub.
fn limits(words: &mut Words) -> Option<Limits> {
    let counts = words.counts::<6>()?;
    let (requests, responses, forgets) = flags(words.take()?)?;
    let buffers = words.counts::<2>()?;
    Some(Limits {
        max_clients: counts[0],
        max_servers: counts[1],
        max_loaned_requests: counts[2],
        max_active_requests_per_client: counts[3],
        max_response_buffer_size: counts[4],
        max_borrowed_responses_per_pending_response: counts[5],
        enable_safe_overflow_for_requests: requests,
        enable_safe_overflow_for_responses: responses,
        enable_fire_and_forget_requests: forgets,
        client_expired_connection_buffer: buffers[0],
        server_expired_connection_buffer: buffers[1],
    })
}

/// Overflow of requests, overflow of responses, and fire-and-forget.
fn flags(word: &str) -> Option<(bool, bool, bool)> {
    match word {
        "-" => Some((false, false, false)),
        "q" => Some((true, false, false)),
        "p" => Some((false, true, false)),
        "f" => Some((false, false, true)),
        "qp" => Some((true, true, false)),
        "qf" => Some((true, false, true)),
        "pf" => Some((false, true, true)),
        "qpf" => Some((true, true, true)),
        _ => None,
    }
}

/// The settings that clients and servers have in common.
#[derive(Clone, Copy)]
struct PortWords {
    strategy: BackpressureStrategy,
    initial_max_slice_len: usize,
    allocation_strategy: AllocationStrategy,
    pool: Option<usize>,
}

/// Reads the settings that clients and servers have in common.
fn port(words: &mut Words) -> Option<PortWords> {
    Some(PortWords {
        strategy: strategy(words.take()?)?,
        initial_max_slice_len: words.count()?,
        allocation_strategy: allocation(words.take()?)?,
        pool: pool(words.take()?)?,
    })
}

/// How a client is created.
fn client(words: &mut Words) -> Option<ClientSettings<NoHandler>> {
    let port = port(words)?;
    Some(ClientSettings {
        strategy: port.strategy,
        initial_max_slice_len: port.initial_max_slice_len,
        allocation_strategy: port.allocation_strategy,
        pool: port.pool,
        handler: None,
    })
}

/// How a server is created.
fn server(words: &mut Words) -> Option<ServerSettings<NoHandler>> {
    let port = port(words)?;
    Some(ServerSettings {
        strategy: port.strategy,
        initial_max_slice_len: port.initial_max_slice_len,
        allocation_strategy: port.allocation_strategy,
        pool: port.pool,
        handler: None,
        loans: words.count()?,
    })
}

/// A backpressure strategy.
fn strategy(word: &str) -> Option<BackpressureStrategy> {
    match word {
        "retry" => Some(BackpressureStrategy::RetryUntilDelivered),
        "discard" => Some(BackpressureStrategy::DiscardData),
        _ => None,
    }
}

/// An allocation strategy.
fn allocation(word: &str) -> Option<AllocationStrategy> {
    match word {
        "static" => Some(AllocationStrategy::Static),
        "best" => Some(AllocationStrategy::BestFit),
        "pow2" => Some(AllocationStrategy::PowerOfTwo),
        _ => None,
    }
}

/// An override's answer, or none.
fn pool(word: &str) -> Option<Option<usize>> {
    if word == "-" {
        return Some(None);
    }
    Some(Some(usize::try_from(number(word)?).ok()?))
}
