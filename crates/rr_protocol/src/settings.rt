//! Settings of ports, and their behaviour at full queues.

/// The action of a send at a full queue that may not overflow. iceoryx2's `BackpressureStrategy`.
#[derive(Clone, Copy, Debug, PartialEq, Eq, Hash)]
pub enum BackpressureStrategy {
    /// The send is refused. It never blocks: the caller may retry.
    RetryUntilDelivered,
    /// The queue is skipped.
    DiscardData,
}

/// The answer of a handler about such a queue. iceoryx2's `BackpressureAction`.
#[derive(Clone, Copy, Debug, PartialEq, Eq, Hash)]
pub enum BackpressureAction {
    /// The send is refused.
    Retry,
    /// The queue is skipped.
    DiscardData,
    /// The send is refused.
    DiscardDataAndFail,
    /// The port's strategy decides.
    FollowBackpressureStrategy,
}

/// Whether a slot may grow for a slice that is longer than the initial length. iceoryx2's `AllocationStrategy`.
#[derive(Clone, Copy, Debug, PartialEq, Eq, Hash)]
pub enum AllocationStrategy {
    /// Slots don't grow: the loan of a longer slice is refused.
    Static,
    /// Slots grow.
    BestFit,
    /// Slots grow.
    PowerOfTwo,
}

/// The settings that a client is created with.
#[derive(Clone, Copy, Debug, PartialEq, Eq, Hash)]
pub struct ClientSettings<K> {
    /// How many elements each slot has room for from the start.
    pub initial_max_slice_len: usize,
    /// The override's result for the worst-case number of slots, if there is an override.
    pub pool: Option<usize>,
    /// The strategy of its sends at a full queue.
    pub strategy: BackpressureStrategy,
    /// Whether slots may grow for longer slices.
    pub allocation_strategy: AllocationStrategy,
    /// The handler that decides at a full queue before the strategy applies, if there is one.
    pub handler: Option<K>,
}

/// The default settings of a client: slots of one element, which do not grow, in a pool of the worst-case size; sends
/// skip full queues, and there is no handler. These are the defaults of iceoryx2's `PortFactoryClient`.
///
/// # Examples
///
/// A client whose sends are refused at a full queue:
///
/// ```
/// let settings = ClientSettings {
///     strategy: BackpressureStrategy::RetryUntilDelivered,
///     ..ClientSettings::default()
/// };
/// ```
impl<K> Default for ClientSettings<K> {
    ghost use Rattle.std.specs.Prelude.{◌≡◌};
    ghost use Rattle.rr_protocol.specs.Settings.{client_defaults};

    ghost is_default = { λ settings. settings ≡ client_defaults };

    fn default() -> Self {
        ClientSettings {
            initial_max_slice_len: 1,
            pool: None,
            strategy: BackpressureStrategy::DiscardData,
            allocation_strategy: AllocationStrategy::Static,
            handler: None,
        }
    }
}

/// The settings that a server is created with.
#[derive(Clone, Copy, Debug, PartialEq, Eq, Hash)]
pub struct ServerSettings<K> {
    /// How many elements each slot has room for from the start.
    pub initial_max_slice_len: usize,
    /// The override's result for the worst-case number of slots, if there is an override.
    pub pool: Option<usize>,
    /// Maximum of responses on loan at one time for each request. 0 counts as 1.
    pub loans: usize,
    /// The strategy of its sends at a full queue.
    pub strategy: BackpressureStrategy,
    /// Whether slots may grow for longer slices.
    pub allocation_strategy: AllocationStrategy,
    /// The handler that decides at a full queue before the strategy applies, if there is one.
    pub handler: Option<K>,
}

/// The default settings of a server: slots of one element, which do not grow, in a pool of the worst-case size, and
/// one response on loan at a time for each active request; sends skip full queues, and there is no handler. Except
/// for the loans these are the defaults of iceoryx2's `PortFactoryServer`.
impl<K> Default for ServerSettings<K> {
    ghost use Rattle.std.specs.Prelude.{◌≡◌};
    ghost use Rattle.rr_protocol.specs.Settings.{server_defaults};

    ghost is_default = { λ settings. settings ≡ server_defaults };

    fn default() -> Self {
        ServerSettings {
            initial_max_slice_len: 1,
            pool: None,
            loans: 1,
            strategy: BackpressureStrategy::DiscardData,
            allocation_strategy: AllocationStrategy::Static,
            handler: None,
        }
    }
}
