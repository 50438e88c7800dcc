//! Filling a pool.
ghost use Rattle.std.specs.Prelude.{◌≡◌, ◌≢◌, ◌<◌, ◌+◌, ◌*◌, ◌↔◌, ℕ, false, Err, IfOk, None, OnOk, Ok, Some};
ghost use Rattle.rr_protocol.specs.Limits.{hub_refusal};
ghost use Rattle.rr_laws.specs.Filling.{IsSent, only_client};
ghost use Rattle.rr_laws.specs.Unreduced.{asked_in};
ghost use Rattle.rr_run.specs.declared.least.LeastPoolError.TheVariants as wrong;
ghost use Rattle.rr_run.specs.declared.least.outcome.Outcome.TheVariants as told;
ghost use Rattle.rr_run.specs.declared.least.stop.Stop.TheVariants as stop;
ghost use Rattle.rr_run.specs.Filled.{Does, HasAsked, HasGrown, HasQueued, IsFilled, IsFilledUp, IsFull, IsLater, IsNoted, IsSameHub, IsSpare, IsUnused, all_requests, server_requests};
ghost use Rattle.rr_run.specs.Least.{WantsMemory};

use crate::Runner;
use crate::least::outcome::{Outcome, outcome_of};
use crate::least::stop::Stop;
use crate::least::{LeastPoolError, PoolCommand, PoolReply};
use rr_protocol::{ClientSettings, Command, Limits, NoHandler, ServerSettings, UniqueNodeId};
use std::alloc::Global;

/// The number of the one client, which is the first port.
const CLIENT: u64 = 0;

/// A hub with one client, whose pool is being filled, and the commands and replies so far.
#[derive(Drop)]
pub(crate) struct Filling {
    pub(crate) limits: Limits,
    /// The result of the client's override.
    pub(crate) pool: usize,
    /// How many requests of the client are live.
    pub(crate) live: usize,
    pub(crate) runner: Runner<u64, Option<u64>, u64, NoHandler>,
    pub(crate) commands: Vec<PoolCommand>,
    pub(crate) replies: Vec<PoolReply>,
}

impl Filling {
    /// Makes a hub with one client, whose override returns `pool`.
    ///
    /// # Errors
    ///
    /// - `WrongLimits` exactly if the limits make no hub.
    /// - `OutOfMemory` if there was no memory.
    pub(crate) fn new(alloc: Global, limits: Limits, pool: usize) -> Result<Self, LeastPoolError>
        requires { limits.enable_safe_overflow_for_requests ≡ false }
        ensures filled { IfOk result (λ f. IsFilled f × (f.live ≡ 0) × (f.limits ≡ limits) × (f.pool ≡ pool)) }
        ensures makes_hub { IfOk result (λ f. hub_refusal limits ≡ None) }
        ensures wrong { (result ≡ Err wrong.WrongLimits) ↔ (hub_refusal limits ≢ None) }
    {
        let runner = match Runner::new(alloc, limits, UniqueNodeId(0)) {
            Ok(runner) => runner,
            Err(_) => return Err(LeastPoolError::WrongLimits),
        };
        let mut filling = Filling {
            limits,
            pool,
            live: 0,
            runner,
            commands: Vec::new(alloc),
            replies: Vec::new(alloc),
        };
        match filling.create_client() {
            Ok(()) => Ok(filling),
            Err(_) => Err(LeastPoolError::OutOfMemory),
        }
    }

    /// Creates the one client.
    fn create_client(&mut self) -> Result<(), Stop>
        requires { IsUnused self.old }
        ensures hub { IsSameHub self.old self.new }
        ensures filled { OnOk result (HasGrown 0 self.old self.new) }
    {
        let settings = ClientSettings {
            pool: Some(self.pool),
            ..ClientSettings::default()
        };
        match self.note(Command::CreateClient(settings))? {
            Outcome::Created(_) => Ok(()),
            _ => Err(Stop::NoMemory),
        }
    }

    /// Fills the pool, until all commands were carried out or a loan finds it full.
    ///
    /// # Errors
    ///
    /// - `OutOfMemory` if there was no memory, or no number is left.
    pub(crate) fn fill_up(&mut self) -> Result<(), LeastPoolError>
        requires { IsFilled self.old }
        ensures hub { IsSameHub self.old self.new }
        ensures filled { OnOk result (IsFilledUp self.old self.new) }
        ensures err { result ≢ Err wrong.WrongLimits }
    {
        match self.fill() {
            Ok(()) => Ok(()),
            Err(Stop::Full) => Ok(()),
            Err(Stop::NoMemory) => Err(LeastPoolError::OutOfMemory),
        }
    }

    /// Fills the pool: each server holds its maximum of requests and its queue is full; then the client has its
    /// maximum of pending responses, and of requests on loan.
    fn fill(&mut self) -> Result<(), Stop>
        requires { IsFilled self.old }
        ensures hub { IsSameHub self.old self.new }
        ensures filled { OnOk result (HasGrown (all_requests self.old.limits) self.old self.new) }
        ensures full { result ≡ Err stop.Full → IsFull self.new }
    {
        self.serve_all()?;
        self.send_all()?;
        self.loan_all()
    }

    /// Creates the maximum of servers, and gives each its maximum of requests, held and queued.
    fn serve_all(&mut self) -> Result<(), Stop>
        requires { IsFilled self.old }
        ensures hub { IsSameHub self.old self.new }
        ensures filled { OnOk result (HasGrown (self.old.limits.max_servers * server_requests self.old.limits)
            self.old self.new) }
        ensures full { result ≡ Err stop.Full → IsFull self.new }
    {
        for _ in 0..self.limits.max_servers {
            self.serve()?;
        }
        Ok(())
    }

    /// Sends requests until the client has its maximum of pending responses.
    fn send_all(&mut self) -> Result<(), Stop>
        requires { IsFilled self.old }
        ensures hub { IsSameHub self.old self.new }
        ensures filled { OnOk result (HasGrown self.old.limits.max_active_requests_per_client self.old self.new) }
        ensures full { result ≡ Err stop.Full → IsFull self.new }
    {
        for _ in 0..self.limits.max_active_requests_per_client {
            self.send()?;
        }
        Ok(())
    }

    /// Loans requests until the client has its maximum of them on loan.
    fn loan_all(&mut self) -> Result<(), Stop>
        requires { IsFilled self.old }
        ensures hub { IsSameHub self.old self.new }
        ensures filled { OnOk result (HasGrown self.old.limits.max_loaned_requests self.old self.new) }
        ensures full { result ≡ Err stop.Full → IsFull self.new }
    {
        for _ in 0..self.limits.max_loaned_requests {
            self.loan()?;
        }
        Ok(())
    }

    /// Creates a server that holds its maximum of requests, and fills the queue to it.
    fn serve(&mut self) -> Result<(), Stop>
        requires { IsFilled self.old }
        ensures hub { IsSameHub self.old self.new }
        ensures filled { OnOk result (HasGrown (server_requests self.old.limits) self.old self.new) }
        ensures full { result ≡ Err stop.Full → IsFull self.new }
    {
        let server = self.create_server()?;
        self.hold_all(server)?;
        self.queue_all(server)
    }

    /// Makes a server hold its maximum of requests.
    fn hold_all(&mut self, server: u64) -> Result<(), Stop>
        requires filled { IsFilled self.old }
        requires served { HasQueued self.old server 0 }
        ensures hub { IsSameHub self.old self.new }
        ensures filled { OnOk result (HasGrown self.old.limits.max_active_requests_per_client self.old self.new
            × HasQueued self.new server 0) }
        ensures full { result ≡ Err stop.Full → IsFull self.new }
    {
        for _ in 0..self.limits.max_active_requests_per_client {
            self.hold(server)?;
        }
        Ok(())
    }

    /// Fills the queue to a server.
    fn queue_all(&mut self, server: u64) -> Result<(), Stop>
        requires filled { IsFilled self.old }
        requires served { HasQueued self.old server 0 }
        ensures hub { IsSameHub self.old self.new }
        ensures filled { OnOk result (HasGrown self.old.limits.max_active_requests_per_client self.old self.new) }
        ensures full { result ≡ Err stop.Full → IsFull self.new }
    {
        for _ in 0..self.limits.max_active_requests_per_client {
            self.queue(server)?;
        }
        Ok(())
    }

    /// Makes a server hold one more request, whose pending response is released.
    fn hold(&mut self, server: u64) -> Result<(), Stop>
        requires filled { IsFilled self.old }
        requires served { HasQueued self.old server 0 }
        ensures hub { IsSameHub self.old self.new }
        ensures filled { OnOk result (HasGrown 1 self.old self.new × HasQueued self.new server 0) }
        ensures full { result ≡ Err stop.Full → IsFull self.new }
    {
        let request = self.send()?;
        self.receive(server, request)?;
        self.release(request)
    }

    /// Adds one request, whose pending response is released, to the queue to a server.
    fn queue(&mut self, server: u64) -> Result<(), Stop>
        requires filled { IsFilled self.old }
        requires served { (n : ℕ) × (n < self.old.limits.max_active_requests_per_client)
            × HasQueued self.old server n }
        ensures hub { IsSameHub self.old self.new }
        ensures filled { OnOk result (HasGrown 1 self.old self.new) }
        ensures served { OnOk result ((n : ℕ) → n < self.old.limits.max_active_requests_per_client
            → HasQueued self.old server n → HasQueued self.new server (n + 1)) }
        ensures full { result ≡ Err stop.Full → IsFull self.new }
    {
        let request = self.send()?;
        self.release(request)
    }

    /// Creates a server.
    fn create_server(&mut self) -> Result<u64, Stop>
        requires { IsFilled self.old }
        ensures hub { IsSameHub self.old self.new }
        ensures filled { IfOk result (λ server. HasGrown 0 self.old self.new × HasQueued self.new server 0) }
        ensures full { result ≢ Err stop.Full }
    {
        match self.carry_out(Command::CreateServer(ServerSettings::default()))? {
            Outcome::Created(server) => Ok(server),
            _ => Err(Stop::NoMemory),
        }
    }

    /// Sends a request of the client.
    fn send(&mut self) -> Result<u64, Stop>
        requires { IsFilled self.old }
        ensures hub { IsSameHub self.old self.new }
        ensures filled { IfOk result (λ request. HasGrown 1 self.old self.new
            × IsSent self.old.runner self.new.runner self.old.limits request) }
        ensures full { result ≡ Err stop.Full → IsFull self.new }
    {
        match self.carry_out(Command::SendCopy(CLIENT, 0))? {
            Outcome::Pending(request) => {
                self.live += 1;
                Ok(request)
            }
            Outcome::Full => Err(Stop::Full),
            _ => Err(Stop::NoMemory),
        }
    }

    /// Makes a server receive the only request in its queue.
    fn receive(&mut self, server: u64, request: u64) -> Result<(), Stop>
        requires filled { IsFilled self.old }
        requires asked { HasAsked self.old server request }
        ensures hub { IsSameHub self.old self.new }
        ensures filled { OnOk result (HasGrown 0 self.old self.new × HasQueued self.new server 0
            × IsSpare self.new request) }
        ensures full { result ≢ Err stop.Full }
    {
        // Only the contract uses `request`: the request that is queued.
        let _ = request;
        match self.carry_out(Command::Receive(server))? {
            Outcome::Active => Ok(()),
            _ => Err(Stop::NoMemory),
        }
    }

    /// Releases a pending response, whose request stays live.
    fn release(&mut self, request: u64) -> Result<(), Stop>
        requires filled { IsFilled self.old }
        requires spare { IsSpare self.old request }
        ensures hub { IsSameHub self.old self.new }
        ensures filled { OnOk result (HasGrown 0 self.old self.new) }
        ensures served { OnOk result ((server n : ℕ) → HasQueued self.old server n → HasQueued self.new server n) }
        ensures full { result ≢ Err stop.Full }
    {
        match self.carry_out(Command::Release(request))? {
            Outcome::Done => Ok(()),
            _ => Err(Stop::NoMemory),
        }
    }

    /// Loans a request of the client.
    fn loan(&mut self) -> Result<(), Stop>
        requires { IsFilled self.old }
        ensures hub { IsSameHub self.old self.new }
        ensures filled { OnOk result (HasGrown 1 self.old self.new) }
        ensures full { result ≡ Err stop.Full → IsFull self.new }
    {
        match self.carry_out(Command::Loan(CLIENT, 1))? {
            Outcome::Loaned => {
                self.live += 1;
                Ok(())
            }
            Outcome::Full => Err(Stop::Full),
            _ => Err(Stop::NoMemory),
        }
    }

    /// Carries out a command other than the first, and records it with its reply.
    fn carry_out(&mut self, command: PoolCommand) -> Result<Outcome, Stop>
        requires noted { IsNoted self.old }
        requires later { IsLater command }
        ensures hub { IsSameHub self.old self.new }
        ensures live { self.new.live ≡ self.old.live }
        ensures noted { OnOk result (IsNoted self.new) }
        ensures step { IfOk result (λ outcome. Does self.old self.new command outcome) }
        ensures full { result ≡ Ok told.Full → asked_in command ≡ Some (only_client, 1)
            → WantsMemory self.new.commands.items self.new.replies.items }
        ensures err { result ≢ Err stop.Full }
    {
        self.note(command)
    }

    /// Carries out a command, and records it with its reply.
    fn note(&mut self, command: PoolCommand) -> Result<Outcome, Stop>
        ensures hub { IsSameHub self.old self.new }
        ensures live { self.new.live ≡ self.old.live }
        ensures step { IfOk result (λ outcome. Does self.old self.new command outcome) }
        ensures err { result ≢ Err stop.Full }
    {
        self.commands.reserve(1)?;
        self.replies.reserve(1)?;
        let reply = self.runner.apply(command);
        let outcome = outcome_of(&reply);
        self.commands.push_reserved(command);
        self.replies.push_reserved(reply);
        Ok(outcome)
    }
}
