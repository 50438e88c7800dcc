//! Servers of a shared hub.
ghost use Rattle.std.specs.Prelude.{◌≡◌, ◌<◌, [], IfOk, IfSome, IsOk, ℕ, ◌↔◌, IsTrue};
ghost use Rattle.rr_shared_ports.specs.Words.{CreatesServerBy, server_defaults, ReceivesRequest, empty_hub, IsFree, Keeps, Names, numbers_left, Answered, MakesCall, HasRequests};
ghost use Rattle.rr_protocol.specs.declared.kind.Kind.TheVariants as kind;

use crate::waking::Change;
use crate::{CallError, Claimed, Header, Naming, Seat, SharedPorts};
use rr_ports::{
    ActiveRequest, BackpressureFn, Body, ConnectionFailure, Hub, PortFactoryServer, Preallocation,
    ReceiveError, Server, ServerCreateError, UniqueServerId, WriteBody,
};
use std::sync::Wait;

impl<N: Naming, QB: Body, QH: Header, PB: WriteBody, PH: Header, K: BackpressureFn> SharedPorts<
    N,
    Hub<QB, QH, PB, PH, K>,
> {
    /// Returns a factory of servers with the default settings. After `Hub::server_builder` of `rr_ports`.
    pub fn server_builder(&self, rt: &impl Wait) -> PortFactoryServer<PB, K>
        ensures { result ≡ record { settings = server_defaults; preallocation = tt } }
    {
        self.inside.lock(rt).ports.server_builder()
    }

    /// Creates a server as a factory says. After `PortFactoryServer::create` of `rr_ports`.
    ///
    /// # Errors
    ///
    /// As `PortFactoryServer::create`.
    pub fn create_server<P: Preallocation + Drop>(
        &self,
        rt: &impl Wait,
        seat: &mut Seat<N, Hub<QB, QH, PB, PH, K>>,
        factory: PortFactoryServer<PB, K, P>,
    ) -> Result<Claimed<N, Server<PB>>, ServerCreateError>
        requires { (worst_case : ℕ) → P.accepts factory.preallocation worst_case }
        ensures { MakesCall (empty_hub N.limits N.node_id)
            (λ before after. CreatesServerBy P.chooses before factory result after) seat.old seat.new }
    {
        self.created(
            rt,
            seat,
            |ports| -> Result<Server<PB>, ServerCreateError>
                requires { (worst_case : ℕ) → P.accepts factory.preallocation worst_case }
                ensures call { CreatesServerBy P.chooses ports.old factory result ports.new }
                ensures keeps { Keeps [] ports.old ports.new }
                ensures free { IfOk result (λ server. IsFree [] ports.old server) }
                ensures kind { IfOk result (λ server. Names ports.new server kind.Server) }
            { factory.create(ports) },
        )
    }
}

impl<N: Naming, PB: Body> Claimed<N, Server<PB>> {
    /// Returns the server's id. Takes no lock. After `Server::id` of `rr_ports`.
    pub fn id(&self) -> UniqueServerId
        ensures { result.0 ≡ self.now }
    {
        self.handle.id()
    }

    /// Receives a request, if one is queued. After `Server::receive` of `rr_ports`.
    ///
    /// # Errors
    ///
    /// - `Port` as `Server::receive`.
    /// - `NumbersExhausted` if no number is left for the active request. Nothing changes.
    pub fn receive<QB: Body, QH: Header, PH: Header, K: BackpressureFn>(
        &self,
        hub: &SharedPorts<N, Hub<QB, QH, PB, PH, K>>,
        rt: &impl Wait,
        seat: &mut Seat<N, Hub<QB, QH, PB, PH, K>>,
    ) -> Received<N, QB>
        ensures { MakesCall (empty_hub N.limits N.node_id)
            (Answered numbers_left (λ received before after. ReceivesRequest before self.now received after) result)
            seat.old seat.new }
    {
        let server = self.handle();
        hub.heard(
            rt,
            seat,
            self,
            &[Change::EntryTaken],
            |ports| -> Result<Option<ActiveRequest<QB>>, ReceiveError>
                requires kind { Names ports.old server.now kind.Server }
                requires number { 0 < numbers_left ports.old }
                ensures receives { ReceivesRequest ports.old server.entry.now result ports.new }
                ensures keeps { Keeps [] ports.old ports.new }
                ensures free { IfOk result (λ received. IfSome received (λ active. IsFree [] ports.old active)) }
                ensures kind { IfOk result (λ received. IfSome received
                    (λ active. Names ports.new active kind.ActiveRequest)) }
            { server.receive(ports) },
        )
    }
}

/// The result of a receive by a server.
type Received<N, QB> = Result<Option<Claimed<N, ActiveRequest<QB>>>, CallError<ReceiveError>>;

impl<N: Naming, PB: Body> Claimed<N, Server<PB>> {
    /// Returns whether a request is queued. After `Server::has_requests` of `rr_ports`.
    ///
    /// # Errors
    ///
    /// As `Server::has_requests`: never returns an error.
    pub fn has_requests<QB: Body, QH: Header, PH: Header, K: BackpressureFn>(
        &self,
        hub: &SharedPorts<N, Hub<QB, QH, PB, PH, K>>,
        rt: &impl Wait,
        seat: &mut Seat<N, Hub<QB, QH, PB, PH, K>>,
    ) -> Result<bool, ConnectionFailure>
        ensures { MakesCall (empty_hub N.limits N.node_id)
            (λ before after. (after ≡ before) × IsOk result
            × IfOk result (λ waits. IsTrue waits ↔ HasRequests before self.now)) seat.old seat.new }
    {
        let handle = self.handle();
        hub.looked(
            rt,
            seat,
            self,
            |ports| -> Result<bool, ConnectionFailure>
                requires { Names ports.now handle.now kind.Server }
                ensures { IsOk result × IfOk result (λ waits. IsTrue waits ↔ HasRequests ports.now handle.entry.now) }
            { handle.has_requests(ports) },
        )
    }
}
