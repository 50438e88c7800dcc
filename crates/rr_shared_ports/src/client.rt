//! Clients of a shared hub.
ghost use Rattle.std.specs.Prelude.{◌≡◌, [], IfOk, ℕ};
ghost use Rattle.rr_shared_ports.specs.Words.{IsFree, Keeps, Names, CreatesClientBy, client_defaults, empty_hub, MakesCall};
ghost use Rattle.rr_protocol.specs.declared.kind.Kind.TheVariants as kind;

use crate::{Claimed, Header, Naming, Seat, SharedPorts};
use rr_ports::{
    BackpressureFn, Body, Client, ClientCreateError, Hub, PortFactoryClient, Preallocation,
    UniqueClientId, WriteBody,
};
use std::sync::Wait;

impl<N: Naming, QB: WriteBody, QH: Header, PB: Body, PH: Header, K: BackpressureFn> SharedPorts<
    N,
    Hub<QB, QH, PB, PH, K>,
> {
    /// Returns a factory of clients with the default settings. After `Hub::client_builder` of `rr_ports`.
    pub fn client_builder(&self, rt: &impl Wait) -> PortFactoryClient<QB, K>
        ensures { result ≡ record { settings = client_defaults; preallocation = tt } }
    {
        self.inside.lock(rt).ports.client_builder()
    }

    /// Creates a client as a factory says. After `PortFactoryClient::create` of `rr_ports`.
    ///
    /// # Errors
    ///
    /// As `PortFactoryClient::create`.
    pub fn create_client<P: Preallocation + Drop>(
        &self,
        rt: &impl Wait,
        seat: &mut Seat<N, Hub<QB, QH, PB, PH, K>>,
        factory: PortFactoryClient<QB, K, P>,
    ) -> Result<Claimed<N, Client<QB>>, ClientCreateError>
        requires { (worst_case : ℕ) → P.accepts factory.preallocation worst_case }
        ensures { MakesCall (empty_hub N.limits N.node_id)
            (λ before after. CreatesClientBy P.chooses before factory result after) seat.old seat.new }
    {
        self.created(
            rt,
            seat,
            |ports| -> Result<Client<QB>, ClientCreateError>
                requires { (worst_case : ℕ) → P.accepts factory.preallocation worst_case }
                ensures call { CreatesClientBy P.chooses ports.old factory result ports.new }
                ensures keeps { Keeps [] ports.old ports.new }
                ensures free { IfOk result (λ client. IsFree [] ports.old client) }
                ensures kind { IfOk result (λ client. Names ports.new client kind.Client) }
            { factory.create(ports) },
        )
    }
}

impl<N: Naming, QB: Body> Claimed<N, Client<QB>> {
    /// Returns the client's id. Takes no lock. After `Client::id` of `rr_ports`.
    pub fn id(&self) -> UniqueClientId
        ensures { result.0 ≡ self.now }
    {
        self.handle.id()
    }
}
