//! A runner of commands over a hub's core.
ghost use Rattle.std.specs.Prelude.{◌≡◌, ◌≢◌, IfSome, None, Some};
ghost use Rattle.rr_protocol.specs.Creation.{CreatesHub};
ghost use Rattle.rr_protocol.specs.Queries.{kind_at};
ghost use Rattle.rr_run.specs.Known.{Notes};
ghost use Rattle.rr_run.specs.Memory.{MayLackMemory, MayLackOrNeverDoes};
ghost use Rattle.rr_protocol.specs.Refusals.{number_in};
ghost use Rattle.rr_protocol.specs.Step.{Step};

use crate::places::{Places, SOMEWHERE};
use crate::runner::numbers::number_in;
use rr_hub::{Core, HandleId};
use rr_protocol::{BackpressureFn, Command, HubCreateError, Kind, Limits, Reply, UniqueNodeId};
use rr_slots::WriteBody;
use std::alloc::Global;
use std::marker::Model;

mod answers;
mod defaults;
mod loans;
mod numbers;
mod payload;
mod receives;
mod releases;
mod replies;
mod sends;

/// A hub whose ports and handles are named by numbers. Contracts see the state of the message machine.
///
/// It keeps a core, and the last known places of handles. Not in iceoryx2, which has the calls alone.
#[derive(Drop)]
pub struct Runner<T: Copy + Default, B: WriteBody<Item = T>, H: Copy + Default, K: BackpressureFn> {
    alloc: Global,
    core: Core<B, H, B, H, K>,
    places: Places,
}

impl<T: Copy + Default, B: WriteBody<Item = T>, H: Copy + Default, K: BackpressureFn> Model
    for Runner<T, B, H, K> {
    ghost use Rattle.rr_protocol.specs.State.{State};
    ghost use Rattle.rr_protocol.specs.Codes.{state_code};

    ghost Value = { State T H T H K };

    ghost coded = { state_code T.code H.code T.code H.code K.code };

    ghost use Rattle.rr_run.specs.Known.{KnowsHandles};

    ghost view = { λ r. r.core };

    ghost invariant = { λ r. KnowsHandles r.places r.core };
}

impl<T: Copy + Default, B: WriteBody<Item = T>, H: Copy + Default, K: BackpressureFn> Runner<
    T,
    B,
    H,
    K,
> {
    /// Makes a runner over a hub without ports. Takes no memory, so it never returns `OutOfMemory`. Not in iceoryx2.
    ///
    /// # Errors
    ///
    /// - `ZeroLimit` if a limit is below its least value.
    /// - `LimitsTooLarge` if a worst-case size overflows a `usize`.
    pub fn new(alloc: Global, limits: Limits, node_id: UniqueNodeId) -> Result<Self, HubCreateError>
        ensures { CreatesHub limits node_id.0 result }
    {
        let core = Core::new(alloc, limits, node_id)?;
        Ok(Runner {
            alloc,
            core,
            places: Places::new(alloc),
        })
    }

    /// Returns the kind of a number: a client or a server whose value lives, or a handle. Returns `None` if it names
    /// nothing.
    ///
    /// Tries one place for a handle and takes O(log ports) for a port, unless a place was lost for want of memory.
    /// Not in iceoryx2.
    pub fn kind(&self, number: u64) -> Option<Kind>
        ensures { result ≡ kind_at self.now number }
    {
        match self.places.find(number) {
            Some(id) => self.core.kind(&id),
            None => self.core.port_kind(number),
        }
    }

    /// Carries out a command, and returns its reply.
    ///
    /// A refusal leaves everything as it was; it is the first that holds, in this order: `Unknown`, `WrongKind`,
    /// `NumbersExhausted`, `Incomplete`. `NoMemory` leaves everything as it was too; only `Payload` returns it, if
    /// there was no memory for a copy of several elements, and so never in the typed family. In addition to the
    /// memory of the call itself, a command may take memory for a handle's place. Not in iceoryx2, which has the
    /// calls alone.
    pub fn apply(&mut self, command: Command<T, H, K>) -> Reply<T, H>
        ensures step { Step K.action T.is_default H.is_default B.family self.old command result self.new }
        ensures memory { result ≡ Reply.NoMemory → MayLackMemory B.family self.old command }
    {
        self.step(command)
    }

    /// Carries out a command.
    fn step(&mut self, command: Command<T, H, K>) -> Reply<T, H>
        ensures step { Step K.action T.is_default H.is_default B.family self.old command result self.new }
        ensures memory { result ≡ Reply.NoMemory → MayLackOrNeverDoes B.family self.old command }
    {
        let Some(number) = number_in(&command) else {
            return create(&mut self.core, command);
        };
        match self.find(number) {
            Some(id) => act(&mut self.core, self.alloc, &mut self.places, &id, command),
            None => Reply::Unknown,
        }
    }

    /// Returns the id for a number. Returns `None` if the number is known to name nothing without a search.
    fn find(&self, number: u64) -> Option<HandleId>
        ensures id { IfSome result (λ id. id ≡ number) }
        ensures none { result ≡ None → kind_at self.now number ≡ None }
    {
        match self.places.find(number) {
            Some(id) => Some(id),
            None if self.core.port_kind(number).is_some() => {
                Some(HandleId::new(number, SOMEWHERE))
            }
            None => None,
        }
    }
}

/// Creates a client or a server.
fn create<T: Copy + Default, B: WriteBody<Item = T>, H: Copy + Default, K: BackpressureFn>(
    core: &mut Core<B, H, B, H, K>,
    creation: Command<T, H, K>,
) -> Reply<T, H>
    requires { number_in creation ≡ None }
    ensures step { Step K.action T.is_default H.is_default B.family core.old creation result core.new }
    ensures memory { result ≢ Reply.NoMemory }
{
    match creation {
        Command::CreateClient(settings) => replies::created(rr_checked::create_client(
            core, settings,
        )),
        Command::CreateServer(settings) => replies::created(rr_checked::create_server(
            core, settings,
        )),
        _ => unreachable!(),
    }
}

/// Carries out a command on a port or a handle, and records the place of the handle that it makes.
#[inline(always)]
fn act<T: Copy + Default, B: WriteBody<Item = T>, H: Copy + Default, K: BackpressureFn>(
    core: &mut Core<B, H, B, H, K>,
    alloc: Global,
    places: &mut Places,
    id: &HandleId,
    command: Command<T, H, K>,
) -> Reply<T, H>
    requires { number_in command ≡ Some id.now }
    ensures step { Step K.action T.is_default H.is_default B.family core.old command result core.new }
    ensures memory { result ≡ Reply.NoMemory → MayLackOrNeverDoes B.family core.old command }
    ensures places { Notes places.old command result core.new places.new }
{
    match command {
        Command::Loan(_, len) => loans::loan(core, places, id, len),
        Command::LoanDefault(_, len) => defaults::loan_default(core, places, id, len),
        Command::SendCopy(_, item) => sends::send_copy(core, places, id, item),
        Command::Push(_, item) => replies::flag(rr_checked::push(core, id, item)),
        Command::Set(_, index, item) => replies::flag(rr_checked::set(core, id, index, item)),
        Command::SetUserHeader(_, header) => replies::done(rr_checked::set_user_header(
            core, id, header,
        )),
        Command::AssumeInit(_) => replies::done(rr_checked::assume_init(core, id)),
        Command::Send(_) => sends::send(core, places, id),
        Command::Receive(_) => receives::receive(core, places, id),
        Command::SetHint(_) => replies::done(rr_checked::set_hint(core, id)),
        Command::Release(_) => releases::release(core, places, id),
        Command::IsDeliverable(_)
        | Command::HasEntries(_)
        | Command::IsConnected(_)
        | Command::HasHint(_)
        | Command::Servers(_)
        | Command::Header(_)
        | Command::UserHeader(_)
        | Command::Payload(_)
        | Command::Origin(_)
        | Command::Strategy(_)
        | Command::MaxSliceLen(_)
        | Command::UpdateConnections(_) => answers::answer(core, alloc, id, command),
        Command::CreateClient(_) | Command::CreateServer(_) => unreachable!(),
    }
}
