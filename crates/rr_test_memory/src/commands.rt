//! Commands of a runner, in both families.
use crate::stage::{LIMITS, Stage};
use rr_protocol::{
    AllocationStrategy, BackpressureStrategy, ClientCreateError, ClientSettings, Command,
    LoanError, NoHandler, Reply, RequestSendError, SendError, ServerCreateError, ServerSettings,
    UniqueNodeId,
};
use rr_run::Runner;
use rr_slots::{SliceBody, WriteBody};
use std::alloc::Global;
use std::io::{self, Write};

/// A command to a hub of numbers.
pub(crate) type Asked = Command<u64, u64, NoHandler>;

/// A reply of a hub of numbers.
pub(crate) type Answer = Reply<u64, u64>;

/// Creates a client whose slots grow to powers of two.
pub(crate) const CLIENT: Asked = Command::CreateClient(ClientSettings {
    strategy: BackpressureStrategy::DiscardData,
    initial_max_slice_len: 1,
    allocation_strategy: AllocationStrategy::PowerOfTwo,
    pool: None,
    handler: None,
});

/// Creates a server whose slots grow as far as they must.
pub(crate) const SERVER: Asked = Command::CreateServer(ServerSettings {
    strategy: BackpressureStrategy::DiscardData,
    initial_max_slice_len: 1,
    allocation_strategy: AllocationStrategy::BestFit,
    pool: None,
    handler: None,
    loans: 2,
});

/// Creates a client whose slots grow as far as they must.
const BEST_FIT_CLIENT: Asked = Command::CreateClient(ClientSettings {
    strategy: BackpressureStrategy::DiscardData,
    initial_max_slice_len: 1,
    allocation_strategy: AllocationStrategy::BestFit,
    pool: None,
    handler: None,
});

/// Creates a server whose slots grow to powers of two.
const POWER_OF_TWO_SERVER: Asked = Command::CreateServer(ServerSettings {
    strategy: BackpressureStrategy::DiscardData,
    initial_max_slice_len: 1,
    allocation_strategy: AllocationStrategy::PowerOfTwo,
    pool: None,
    handler: None,
    loans: 2,
});

/// The commands before a call: a client 0 and a server 1, a request 2 that the server received as 3, a response 4 and
/// a request 5 that nobody received yet, and a request 6 of `len` elements on loan.
fn before(story: &Story) -> [Asked; 7] {
    [
        story.client,
        story.server,
        Command::SendCopy(0, 123),
        Command::Receive(1),
        Command::SendCopy(3, 456),
        Command::SendCopy(0, 789),
        Command::LoanDefault(0, story.len),
    ]
}

/// The commands after each call, which assigns the number 7 if it assigns one, and the number 4 if it receives the
/// response. None of them takes memory: the call's port or handle can be queried and released, and so can those
/// before it.
const AFTER: [Asked; 14] = [
    Command::Header(7),
    Command::UserHeader(7),
    Command::MaxSliceLen(7),
    Command::Release(7),
    Command::Release(7),
    Command::HasEntries(1),
    Command::HasEntries(2),
    Command::Release(6),
    Command::Release(5),
    Command::Release(4),
    Command::Release(3),
    Command::Release(2),
    Command::Release(1),
    Command::Release(0),
];

/// A call, how the ports before it are created, and how many elements the request has that is on loan.
#[derive(Clone, Copy)]
struct Story {
    name: &'static str,
    client: Asked,
    server: Asked,
    len: usize,
    command: Asked,
}

/// A call after which the request on loan has one element.
fn plain(name: &'static str, command: Asked) -> Story {
    Story {
        name,
        client: CLIENT,
        server: SERVER,
        len: 1,
        command,
    }
}

/// A call of ports whose slots grow by the other strategies.
fn other(name: &'static str, command: Asked) -> Story {
    Story {
        client: BEST_FIT_CLIENT,
        server: POWER_OF_TWO_SERVER,
        ..plain(name, command)
    }
}

/// The calls of both families.
fn stories() -> [Story; 11] {
    [
        plain("CreateClient", CLIENT),
        plain("CreateServer", SERVER),
        plain("Loan-request", Command::Loan(0, 1)),
        plain("Loan-response", Command::Loan(3, 1)),
        plain("LoanDefault-request", Command::LoanDefault(0, 1)),
        plain("LoanDefault-response", Command::LoanDefault(3, 1)),
        plain("SendCopy-request", Command::SendCopy(0, 5)),
        plain("SendCopy-response", Command::SendCopy(3, 5)),
        plain("Receive-request", Command::Receive(1)),
        plain("Receive-response", Command::Receive(2)),
        plain("Payload", Command::Payload(3)),
    ]
}

/// The calls of the sliced family that ask for more elements than a slot has room for from the start, or that copy
/// several.
fn longer() -> [Story; 7] {
    [
        plain("Loan-request-PowerOfTwo", Command::Loan(0, 40)),
        plain("Loan-response-BestFit", Command::Loan(3, 40)),
        other("Loan-request-BestFit", Command::Loan(0, 40)),
        other("Loan-response-PowerOfTwo", Command::Loan(3, 40)),
        plain("LoanDefault-request-of-40", Command::LoanDefault(0, 40)),
        plain("LoanDefault-response-of-40", Command::LoanDefault(3, 40)),
        Story {
            len: 3,
            ..plain("Payload-of-3", Command::Payload(6))
        },
    ]
}

/// Returns whether a reply is want of memory.
pub(crate) fn is_want(reply: &Answer) -> bool {
    match reply {
        Reply::NoMemory
        | Reply::ClientError(ClientCreateError::UnableToCreateDataSegment)
        | Reply::ServerError(ServerCreateError::UnableToCreateDataSegment)
        | Reply::LoanError(LoanError::OutOfMemory)
        | Reply::RequestError(
            RequestSendError::SendError(SendError::LoanError(LoanError::OutOfMemory)),
        )
        | Reply::SendError(SendError::LoanError(LoanError::OutOfMemory)) => true,
        _ => false,
    }
}

/// Carries out commands. Returns whether no reply was want of memory.
pub(crate) fn prepare<B: WriteBody<Item = u64>>(
    runner: &mut Runner<u64, B, u64, NoHandler>,
    commands: &[Asked],
) -> bool {
    for command in commands {
        if is_want(&runner.apply(*command)) {
            return false;
        }
    }
    true
}

/// Makes a call, and makes it again if it found no memory; then carries out what comes after it.
fn play<B: WriteBody<Item = u64>, W: Write>(
    stage: &mut Stage<W>,
    runner: &mut Runner<u64, B, u64, NoHandler>,
    command: Asked,
) -> io::Result<()> {
    let reply = runner.apply(command);
    stage.show(&reply)?;
    if is_want(&reply) {
        stage.show(runner.apply(command))?;
    }
    for command in AFTER {
        stage.show(runner.apply(command))?;
    }
    Ok(())
}

/// Runs the stories of one family. Returns whether there was memory for everything before their calls.
fn tell_family<B: WriteBody<Item = u64>, W: Write>(
    alloc: Global,
    stage: &mut Stage<W>,
    group: &str,
    stories: &[Story],
) -> io::Result<bool> {
    for story in stories {
        if !stage.has(group, story.name) {
            continue;
        }
        let Ok(mut runner) = Runner::<u64, B, u64, NoHandler>::new(alloc, LIMITS, UniqueNodeId(7))
        else {
            return Ok(false);
        };
        if !prepare(&mut runner, before(story).as_slice()) {
            return Ok(false);
        }
        stage.call(group, story.name)?;
        play(stage, &mut runner, story.command)?;
    }
    Ok(true)
}

/// Runs the stories of the commands of both families. Returns whether there was memory for everything before them.
pub(crate) fn tell<W: Write>(alloc: Global, stage: &mut Stage<W>) -> io::Result<bool> {
    Ok(
        tell_family::<Option<u64>, W>(alloc, stage, "typed", stories().as_slice())?
            && tell_family::<SliceBody<u64>, W>(alloc, stage, "sliced", stories().as_slice())?
            && tell_family::<SliceBody<u64>, W>(alloc, stage, "sliced", longer().as_slice())?,
    )
}
