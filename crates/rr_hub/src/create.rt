//! Creating ports.
ghost use Rattle.std.specs.Prelude.{◌≡◌, None, IfOk, IsTrue};
ghost use Rattle.rr_slots.specs.Families.{takes_len};
ghost use Rattle.rr_protocol.specs.Creation.{CreatesClient, CreatesServer};
ghost use Rattle.rr_protocol.specs.Queries.{kind_at};
ghost use Rattle.rr_protocol.specs.State.{client_at, server_at};

use crate::state::Core;
use rr_creating::{create_client, create_server};
use rr_protocol::{
    BackpressureFn, ClientCreateError, ClientSettings, ServerCreateError, ServerSettings,
};
use rr_slots::{Body, WriteBody};

impl<QB: WriteBody, QH: Default + Drop, PB: Body, PH: Default + Drop, K: BackpressureFn> Core<
    QB,
    QH,
    PB,
    PH,
    K,
> {
    /// Creates a client under the next number, which it returns. The initial length is one that the body's family
    /// takes. After iceoryx2's `PortFactoryClient::create`.
    ///
    /// # Errors
    ///
    /// An error leaves the hub as it was.
    /// - `UnableToCreatePortTag` if no number remains.
    /// - `ExceedsMaxSupportedClients` if the hub has its maximum of connected clients.
    /// - `UnableToCreateDataSegment` if memory was refused.
    pub fn create_client(&mut self, settings: ClientSettings<K>) -> Result<u64, ClientCreateError>
        requires { IsTrue (takes_len QB.family settings.initial_max_slice_len) }
        ensures creates { CreatesClient self.old settings result self.new }
        ensures unnamed { IfOk result (λ number. kind_at self.old number ≡ None) }
        ensures unmade { IfOk result (λ number. client_at self.old number ≡ None) }
    {
        create_client(&mut self.parts, self.alloc, settings)
    }
}

impl<QB: Body, QH: Default + Drop, PB: WriteBody, PH: Default + Drop, K: BackpressureFn> Core<
    QB,
    QH,
    PB,
    PH,
    K,
> {
    /// Creates a server under the next number, which it returns. The initial length is one that the body's family
    /// takes. After iceoryx2's `PortFactoryServer::create`.
    ///
    /// # Errors
    ///
    /// An error leaves the hub as it was.
    /// - `UnableToCreatePortTag` if no number remains.
    /// - `ExceedsMaxSupportedServers` if the hub has its maximum of connected servers.
    /// - `UnableToCreateDataSegment` if the worst-case number of responses overflows a `usize`, or memory was
    ///   refused.
    pub fn create_server(&mut self, settings: ServerSettings<K>) -> Result<u64, ServerCreateError>
        requires { IsTrue (takes_len PB.family settings.initial_max_slice_len) }
        ensures creates { CreatesServer self.old settings result self.new }
        ensures unnamed { IfOk result (λ number. kind_at self.old number ≡ None) }
        ensures unmade { IfOk result (λ number. server_at self.old number ≡ None) }
    {
        create_server(&mut self.parts, self.alloc, settings)
    }
}
