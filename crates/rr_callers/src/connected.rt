//! A hub with one client and one server, with which most programs begin.
#![tactic(auto, using(rr_ports::proofs::Frames::callers), unfolding(rr_ports::specs::Facts::Keeps, rr_ports::specs::Facts::IsFree))]

ghost use Rattle.std.specs.Prelude.{◌+◌, ◌<◌, ◌≡◌, ◌≤◌, IfOk, None, ℕ};
ghost use Rattle.rr_protocol.specs.declared.kind.Kind.TheVariants as kind;
ghost use Rattle.rr_protocol.specs.declared.settings.BackpressureStrategy.TheVariants as strategy;
ghost use Rattle.rr_ports.specs.Factories.{room_of};
ghost use Rattle.rr_ports.specs.Facts.{Buffers, Discards, Has, Names, WholePool, numbers_left};
ghost use Rattle.rr_ports.specs.Owning.{Owns};
ghost use Rattle.rr_ports.specs.Queues.{HearsNothing};

use rr_ports::{
    BackpressureFn, Body, Client, Error, Hub, PortFactoryClient, PortFactoryServer, Server,
    UniqueNodeId, WriteBody,
};
use std::alloc::Global;

/// A hub with a client and a server. It is not dropped: `end` releases the ports.
#[must_use]
pub struct Connected<
    QB: Body,
    QH: Default + Drop,
    PB: Body,
    PH: Default + Drop,
    K: BackpressureFn,
> {
    /// The hub.
    pub hub: Hub<QB, QH, PB, PH, K>,
    /// Its client.
    pub client: Client<QB>,
    /// Its server.
    pub server: Server<PB>,
}

impl<
    QB: WriteBody,
    QH: Default + Drop,
    PB: WriteBody,
    PH: Default + Drop,
    K: BackpressureFn,
> Connected<QB, QH, PB, PH, K> {
    /// Makes a hub with default limits, and creates a client and a server with default settings.
    ///
    /// # Errors
    ///
    /// `ClientCreate` or `ServerCreate`, as `create` of the factories: here only if memory was refused.
    pub fn new(alloc: Global) -> Result<Self, Error>
        ensures client { IfOk result (λ c. Names c.hub c.client kind.Client) }
        ensures client_pool { IfOk result (λ c. Has c.hub c.client (WholePool (room_of QB.family 1))) }
        ensures client_owns { IfOk result (λ c. Owns c.hub c.client 0) }
        ensures discards { IfOk result (λ c. Has c.hub c.client Discards) }
        ensures room { IfOk result (λ c. Has c.hub c.client (Buffers 2)) }
        ensures server { IfOk result (λ c. Names c.hub c.server kind.Server) }
        ensures server_pool { IfOk result (λ c. Has c.hub c.server (WholePool (room_of PB.family 1))) }
        ensures server_owns { IfOk result (λ c. Owns c.hub c.server 0) }
        ensures quiet { IfOk result (λ c. HearsNothing c.hub c.server) }
        ensures numbers { IfOk result (λ c. 1000 < numbers_left c.hub) }
    {
        let hub = Hub::with_default_limits(alloc, UniqueNodeId(0));
        let clients = hub.client_builder();
        let servers = hub.server_builder();
        Connected::by(hub, clients, servers)
    }

    /// Creates a client and a server of a hub by factories.
    ///
    /// # Errors
    ///
    /// `ClientCreate` or `ServerCreate`, as `create` of the factories. The hub is dropped then.
    pub fn by(
        mut hub: Hub<QB, QH, PB, PH, K>,
        clients: PortFactoryClient<QB, K>,
        servers: PortFactoryServer<PB, K>,
    ) -> Result<Self, Error>
        ensures client { IfOk result (λ c. Names c.hub c.client kind.Client) }
        ensures client_pool { IfOk result (λ c. Has c.hub c.client
            (WholePool (room_of QB.family clients.settings.initial_max_slice_len))) }
        ensures client_owns { IfOk result (λ c. Owns c.hub c.client 0) }
        ensures discards { clients.settings.strategy ≡ strategy.DiscardData → clients.settings.handler ≡ None
            → IfOk result (λ c. Has c.hub c.client Discards) }
        ensures room { (room : ℕ) → room ≤ hub.limits.max_response_buffer_size
            → IfOk result (λ c. Has c.hub c.client (Buffers room)) }
        ensures server { IfOk result (λ c. Names c.hub c.server kind.Server) }
        ensures server_pool { IfOk result (λ c. Has c.hub c.server
            (WholePool (room_of PB.family servers.settings.initial_max_slice_len))) }
        ensures server_owns { IfOk result (λ c. Owns c.hub c.server 0) }
        ensures quiet { IfOk result (λ c. HearsNothing c.hub c.server) }
        ensures numbers { IfOk result (λ c. numbers_left hub ≤ numbers_left c.hub + 2) }
    {
        let client = clients.create(&mut hub)?;
        match servers.create(&mut hub) {
            Ok(server) => Ok(Connected {
                hub,
                client,
                server,
            }),
            Err(error) => {
                client.release(&mut hub);
                Err(Error::from(error))
            }
        }
    }
}

impl<QB: Body, QH: Default + Drop, PB: Body, PH: Default + Drop, K: BackpressureFn> Connected<
    QB,
    QH,
    PB,
    PH,
    K,
> {
    /// Releases the ports.
    pub fn end(self)
        requires client { Names self.hub self.client kind.Client }
        requires server { Names self.hub self.server kind.Server }
    {
        let Connected {
            mut hub,
            client,
            server,
        } = self;
        client.release(&mut hub);
        server.release(&mut hub);
    }
}
