//! Calls of a runner that no script reaches: kinds, lists of commands, and handlers of full queues.
use rr_protocol::{
    BackpressureAction, BackpressureFn, BackpressureInfo, BackpressureStrategy, ClientSettings,
    Command, Kind, Limits, ReceiveError, Reply, RequestSendError, SendError, ServerSettings,
    UniqueNodeId,
};
use rr_run::{Runner, run};
use std::alloc::{AllocError, Global};
use std::test::Fail;

/// Returns its action at a full queue to port 2, and refuses at every other.
#[derive(Clone, Copy)]
struct AtPortTwo {
    action: BackpressureAction,
}

impl BackpressureFn for AtPortTwo {
    ghost use Rattle.std.specs.Prelude.{◌==◌, if◌then◌else◌};
    ghost use Rattle.rr_protocol.specs.declared.settings.BackpressureAction.TheVariants.{DiscardDataAndFail};

    ghost action = { λ handler _ receiver. if receiver == 2 then handler.action else DiscardDataAndFail };

    fn act(&self, info: &BackpressureInfo) -> BackpressureAction {
        if info.receiver == 2 {
            self.action
        } else {
            BackpressureAction::DiscardDataAndFail
        }
    }
}

type TypedRunner = Runner<u64, Option<u64>, u64, AtPortTwo>;

type TypedCommand = Command<u64, u64, AtPortTwo>;

/// Two of everything, and one borrowed response.
const LIMITS: Limits = Limits {
    max_clients: 2,
    max_servers: 2,
    max_loaned_requests: 2,
    max_active_requests_per_client: 2,
    max_response_buffer_size: 2,
    client_expired_connection_buffer: 1,
    server_expired_connection_buffer: 1,
    ..Limits::SMALLEST
};

/// How a client is created.
fn client(strategy: BackpressureStrategy, handler: Option<AtPortTwo>) -> ClientSettings<AtPortTwo> {
    ClientSettings {
        strategy,
        handler,
        ..ClientSettings::default()
    }
}

/// How a server is created.
fn server(handler: Option<AtPortTwo>) -> ServerSettings<AtPortTwo> {
    ServerSettings {
        handler,
        ..ServerSettings::default()
    }
}

/// Carries out commands on a new runner. Returns the last two replies.
fn last_replies(
    alloc: Global,
    commands: Vec<TypedCommand>,
) -> Result<(Option<Reply<u64, u64>>, Option<Reply<u64, u64>>), Fail> {
    let mut runner: TypedRunner = Runner::new(alloc, LIMITS, UniqueNodeId(7))?;
    let mut before = None;
    let mut last = None;
    for command in commands {
        before = last;
        last = Some(runner.apply(command));
    }
    Ok((before, last))
}

/// Carries out a list of commands on a new runner of these limits. Returns the replies, after one that was in the
/// list before.
fn replies_to(
    alloc: Global,
    limits: Limits,
    commands: Vec<TypedCommand>,
) -> Result<Vec<Reply<u64, u64>>, Fail> {
    let mut replies = vec![in alloc; Reply::Nothing]?;
    let mut runner: TypedRunner = Runner::new(alloc, limits, UniqueNodeId(7))?;
    run(&mut runner, commands.as_slice(), &mut replies)?;
    Ok(replies)
}

/// Creates a client on a new runner. Returns the reply, and what 0 and 1 name then.
fn named(alloc: Global) -> Result<(Reply<u64, u64>, Option<Kind>, Option<Kind>), Fail> {
    let mut runner: TypedRunner = Runner::new(alloc, LIMITS, UniqueNodeId(7))?;
    let settings = client(BackpressureStrategy::DiscardData, None);
    let created = runner.apply(Command::CreateClient(settings));
    Ok((created, runner.kind(0), runner.kind(1)))
}

#[test]
fn a_number_names_what_was_created(rt: HostRuntime) -> Result<(), Fail> {
    let client = Reply::Created(0);
    assert!(rt; named(rt.alloc())? == (client, Some(Kind::Client), None));
    Ok(())
}

/// A client sends a value, and a server receives it.
fn exchange(alloc: Global) -> Result<Vec<TypedCommand>, AllocError> {
    Ok(vec![in alloc;
        Command::CreateClient(client(BackpressureStrategy::DiscardData, None)),
        Command::CreateServer(server(None)),
        Command::SendCopy(0, 123),
        Command::Receive(1),
    ]?)
}

#[test]
fn commands_are_carried_out_in_turn(rt: HostRuntime) -> Result<(), Fail> {
    let replies = replies_to(rt.alloc(), LIMITS, exchange(rt.alloc())?)?;
    let wanted = [
        Reply::Nothing,
        Reply::Created(0),
        Reply::Created(1),
        Reply::Pending(2, 1),
        Reply::Active(3, 2),
    ];
    assert!(rt; replies.as_slice() == wanted.as_slice());
    Ok(())
}

/// Makes a client send a third request to two servers, of which the queue to port 2 is full. Returns the reply, and
/// the result of a receive by port 1, which is at its borrow limit.
fn third_request(
    alloc: Global,
    strategy: BackpressureStrategy,
    action: BackpressureAction,
) -> Result<(Option<Reply<u64, u64>>, Option<Reply<u64, u64>>), Fail> {
    let commands = vec![in alloc;
        Command::CreateClient(client(strategy, Some(AtPortTwo { action }))),
        Command::CreateServer(server(None)),
        Command::CreateServer(server(None)),
        Command::SendCopy(0, 1),
        Command::SendCopy(0, 2),
        Command::Receive(1),
        Command::Receive(1),
        Command::Release(3),
        Command::Release(4),
        Command::SendCopy(0, 3),
        Command::Receive(1),
    ]?;
    last_replies(alloc, commands)
}

/// Whether the third request was delivered to port 1 alone.
fn is_passed_over(
    alloc: Global,
    strategy: BackpressureStrategy,
    action: BackpressureAction,
) -> Result<bool, Fail> {
    let sent = Some(Reply::Pending(7, 1));
    let full = Some(Reply::ReceiveError(ReceiveError::ExceedsMaxBorrows));
    Ok(third_request(alloc, strategy, action)? == (sent, full))
}

/// Whether the third request was refused, and delivered to nobody.
fn is_refused(
    alloc: Global,
    strategy: BackpressureStrategy,
    action: BackpressureAction,
) -> Result<bool, Fail> {
    let error = RequestSendError::SendError(SendError::UnableToDeliver);
    let refused = Some(Reply::RequestError(error));
    Ok(third_request(alloc, strategy, action)? == (refused, Some(Reply::Nothing)))
}

#[test]
fn a_handler_that_discards_passes_a_full_queue_over(rt: HostRuntime) -> Result<(), Fail> {
    let waits = BackpressureStrategy::RetryUntilDelivered;
    assert!(rt; is_passed_over(rt.alloc(), waits, BackpressureAction::DiscardData)?);
    Ok(())
}

#[test]
fn a_handler_that_fails_or_retries_refuses(rt: HostRuntime) -> Result<(), Fail> {
    let waits = BackpressureStrategy::RetryUntilDelivered;
    assert!(rt; is_refused(rt.alloc(), waits, BackpressureAction::Retry)?);
    assert!(rt; is_refused(rt.alloc(), waits, BackpressureAction::DiscardDataAndFail)?);
    let discards = BackpressureStrategy::DiscardData;
    assert!(rt; is_refused(rt.alloc(), discards, BackpressureAction::Retry)?);
    Ok(())
}

#[test]
fn a_handler_that_follows_leaves_it_to_the_strategy(rt: HostRuntime) -> Result<(), Fail> {
    let follows = BackpressureAction::FollowBackpressureStrategy;
    assert!(rt;
        is_refused(
            rt.alloc(),
            BackpressureStrategy::RetryUntilDelivered,
            follows
        )?
    );
    assert!(rt; is_passed_over(rt.alloc(), BackpressureStrategy::DiscardData, follows)?);
    Ok(())
}

/// A server that discards, but whose handler refuses, sends a second response to a queue of one, from which the first
/// was not received.
fn second_response(alloc: Global) -> Result<Vec<TypedCommand>, AllocError> {
    let refuses = AtPortTwo {
        action: BackpressureAction::DiscardData,
    };
    Ok(vec![in alloc;
        Command::CreateClient(client(BackpressureStrategy::DiscardData, None)),
        Command::CreateServer(server(Some(refuses))),
        Command::SendCopy(0, 1),
        Command::Receive(1),
        Command::SendCopy(3, 10),
        Command::SendCopy(3, 11),
        Command::Header(5),
        Command::Loan(3, 1),
    ]?)
}

/// It is refused, its number then is unknown, and the next loan of its active request succeeds.
#[test]
fn a_servers_handler_refuses_a_response(rt: HostRuntime) -> Result<(), Fail> {
    let limits = Limits {
        max_response_buffer_size: 1,
        ..LIMITS
    };
    let replies = replies_to(rt.alloc(), limits, second_response(rt.alloc())?)?;
    let wanted = [
        Reply::Nothing,
        Reply::Created(0),
        Reply::Created(1),
        Reply::Pending(2, 1),
        Reply::Active(3, 2),
        Reply::Sent(4),
        Reply::SendError(SendError::UnableToDeliver),
        Reply::Unknown,
        Reply::Loaned(6),
    ];
    assert!(rt; replies.as_slice() == wanted.as_slice());
    Ok(())
}
