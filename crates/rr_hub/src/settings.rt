//! Queries of the settings of a core, and of its ports.
ghost use Rattle.std.specs.Prelude.{◌≡◌, Some, None, IsSomeAnd};
ghost use Rattle.rr_protocol.specs.Limits.{hub_refusal};
ghost use Rattle.rr_protocol.specs.Queries.{kind_at};
ghost use Rattle.rr_protocol.specs.State.{client_at, server_at};

use crate::state::Core;
use rr_protocol::{BackpressureFn, BackpressureStrategy, Kind, Limits, UniqueNodeId};
use rr_slots::Body;

impl<QB: Body, QH: Default + Drop, PB: Body, PH: Default + Drop, K: BackpressureFn> Core<
    QB,
    QH,
    PB,
    PH,
    K,
> {
    /// Returns the limits. Not in iceoryx2, which has one getter for each.
    #[inline(always)]
    pub fn limits(&self) -> Limits
        ensures limits { result ≡ self.now.limits }

        // They are limits that make a hub.
        ensures makes_hub { hub_refusal result ≡ None }
    {
        self.parts.limits
    }

    /// Returns the node that the core was made with. Not in iceoryx2.
    #[inline(always)]
    pub fn node_id(&self) -> UniqueNodeId
        ensures { result.0 ≡ self.now.node_id }
    {
        self.parts.node_id
    }

    /// Returns the backpressure strategy of a client whose value lives, in O(log clients). After iceoryx2's
    /// `Client::backpressure_strategy`.
    #[inline(always)]
    pub fn client_backpressure_strategy(&self, client: u64) -> BackpressureStrategy
        requires { kind_at self.now client ≡ Some Kind.Client }
        ensures { IsSomeAnd (client_at self.now client) (λ c. result ≡ c.port.strategy) }
    {
        let index = self.parts.clients.index_of(client);
        self.parts.clients.port(index).port.strategy
    }

    /// Returns for how many elements each slot of a client whose value lives has room from the start, in O(log
    /// clients). After iceoryx2's `Client::initial_max_slice_len`.
    #[inline(always)]
    pub fn client_initial_max_slice_len(&self, client: u64) -> usize
        requires { kind_at self.now client ≡ Some Kind.Client }
        ensures { IsSomeAnd (client_at self.now client) (λ c. result ≡ c.port.initial_max_slice_len) }
    {
        let index = self.parts.clients.index_of(client);
        self.parts.clients.port(index).port.initial_max_slice_len
    }

    /// Returns the backpressure strategy of a server whose value lives, in O(log servers). After iceoryx2's
    /// `Server::backpressure_strategy`.
    #[inline(always)]
    pub fn server_backpressure_strategy(&self, server: u64) -> BackpressureStrategy
        requires { kind_at self.now server ≡ Some Kind.Server }
        ensures strategy { IsSomeAnd (server_at self.now server) (λ s. result ≡ s.port.strategy) }

        // A server's number is no client's.
        ensures apart { client_at self.now server ≡ None }
    {
        let index = self.parts.servers.index_of(server);
        self.parts.servers.port(index).port.strategy
    }

    /// Returns for how many elements each slot of a server whose value lives has room from the start, in O(log
    /// servers). After iceoryx2's `Server::initial_max_slice_len`.
    #[inline(always)]
    pub fn server_initial_max_slice_len(&self, server: u64) -> usize
        requires { kind_at self.now server ≡ Some Kind.Server }
        ensures len { IsSomeAnd (server_at self.now server) (λ s. result ≡ s.port.initial_max_slice_len) }

        // A server's number is no client's.
        ensures apart { client_at self.now server ≡ None }
    {
        let index = self.parts.servers.index_of(server);
        self.parts.servers.port(index).port.initial_max_slice_len
    }
}
