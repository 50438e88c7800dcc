//! The limits of a hub, and the pool sizes that follow from them.
ghost use Rattle.std.specs.Prelude.{◌≡◌, ◌<◌, ◌≤◌, ◌^◌, IfSome, IfNone};

use crate::error::HubCreateError;

/// The limits of a hub. The first six are at least 1.
///
/// The fields have the names of iceoryx2's service settings. The three pool sizes that follow from them aren't in
/// iceoryx2.
#[derive(Clone, Copy, Debug, PartialEq, Eq, Hash)]
pub struct Limits {
    /// Maximum of connected clients.
    pub max_clients: usize,
    /// Maximum of connected servers.
    pub max_servers: usize,
    /// Maximum of requests that a client may have on loan at one time.
    pub max_loaned_requests: usize,
    /// Maximum of live pending responses of a client. It is also the capacity of a request queue, and the borrow
    /// limit of a server for one client's requests.
    pub max_active_requests_per_client: usize,
    /// Capacity of a response queue. There is one queue for each server, client and channel.
    pub max_response_buffer_size: usize,
    /// Borrow limit of responses from one response queue.
    pub max_borrowed_responses_per_pending_response: usize,
    /// Whether a full request queue drops its oldest entry for a new one.
    pub enable_safe_overflow_for_requests: bool,
    /// Whether a full response queue drops its oldest entry for a new one.
    pub enable_safe_overflow_for_responses: bool,
    /// Whether servers receive requests whose pending response was released.
    pub enable_fire_and_forget_requests: bool,
    /// Maximum of servers that left whose responses a client keeps.
    pub client_expired_connection_buffer: usize,
    /// Maximum of clients that left whose requests a server keeps, with fire-and-forget.
    pub server_expired_connection_buffer: usize,
}

impl Limits {
    ghost use Rattle.rr_protocol.specs.Limits.{has_zero_limit, worst_case_requests, worst_case_responses, hub_refusal};

    /// The smallest limits of a hub: one of everything, queues that refuse, no fire-and-forget, and nothing kept of
    /// ports that left. Not in iceoryx2, whose limits have defaults.
    ///
    /// # Examples
    ///
    /// Two clients of one server, which sees one request of each:
    ///
    /// ```
    /// const LIMITS: Limits = Limits {
    ///     max_clients: 2,
    ///     ..Limits::SMALLEST
    /// };
    /// ```
    pub const SMALLEST: Limits = Limits {
        max_clients: 1,
        max_servers: 1,
        max_loaned_requests: 1,
        max_active_requests_per_client: 1,
        max_response_buffer_size: 1,
        max_borrowed_responses_per_pending_response: 1,
        enable_safe_overflow_for_requests: false,
        enable_safe_overflow_for_responses: false,
        enable_fire_and_forget_requests: false,
        client_expired_connection_buffer: 0,
        server_expired_connection_buffer: 0,
    };

    /// The limits of iceoryx2's default configuration: 8 clients and 2 servers; for each client 2 requests on loan
    /// and 4 active ones; response queues of 2 entries with a borrow limit of 2; both overflows; fire-and-forget; and
    /// 128 expired ports on either side.
    ///
    /// # Examples
    ///
    /// A service with these limits, but for one server whose full queues refuse:
    ///
    /// ```
    /// const LIMITS: Limits = Limits {
    ///     max_servers: 1,
    ///     enable_safe_overflow_for_requests: false,
    ///     ..Limits::DEFAULT
    /// };
    /// ```
    pub const DEFAULT: Limits = Limits {
        max_clients: 8,
        max_servers: 2,
        max_loaned_requests: 2,
        max_active_requests_per_client: 4,
        max_response_buffer_size: 2,
        max_borrowed_responses_per_pending_response: 2,
        enable_safe_overflow_for_requests: true,
        enable_safe_overflow_for_responses: true,
        enable_fire_and_forget_requests: true,
        client_expired_connection_buffer: 128,
        server_expired_connection_buffer: 128,
    };

    /// Returns whether a limit is below its least value.
    pub fn has_zero_limit(&self) -> bool
        ensures { result ≡ has_zero_limit self.now }
    {
        self.max_clients == 0
            || self.max_servers == 0
            || self.max_loaned_requests == 0
            || self.max_active_requests_per_client == 0
            || self.max_response_buffer_size == 0
            || self.max_borrowed_responses_per_pending_response == 0
    }

    /// Returns the size of an unreduced client's pool: the most requests of a client that can live at one time.
    /// Returns `None` on overflow.
    pub fn worst_case_requests(&self) -> Option<usize>
        requires { 0 < self.now.max_active_requests_per_client }
        ensures some { IfSome result (λ slots. slots ≡ worst_case_requests self.now) }
        ensures none { IfNone result (2 ^ 64 ≤ worst_case_requests self.now) }
    {
        let pairs = self.max_servers.checked_mul(2)?;
        let queued = pairs.checked_mul(self.max_active_requests_per_client)?;
        let own = self
            .max_loaned_requests
            .checked_add(self.max_active_requests_per_client)?;
        own.checked_add(queued)
    }

    /// Returns the size of the pool of an unreduced server with `loans` loaned responses for each request: the most
    /// responses of it that can live at one time. Returns `None` on overflow.
    pub fn worst_case_responses(&self, loans: usize) -> Option<usize>
        requires clients { 0 < self.now.max_clients }
        requires active { 0 < self.now.max_active_requests_per_client }
        requires borrowed { 0 < self.now.max_borrowed_responses_per_pending_response }
        ensures some { IfSome result (λ slots. slots ≡ worst_case_responses self.now loans) }
        ensures none { IfNone result (2 ^ 64 ≤ worst_case_responses self.now loans) }
    {
        let requests = self.worst_case_requests()?;
        let borrowed = requests.checked_mul(self.max_borrowed_responses_per_pending_response)?;
        let queued = self
            .max_active_requests_per_client
            .checked_mul(self.max_response_buffer_size)?;
        let received = queued.checked_add(borrowed)?;
        let per_request = loans.checked_mul(self.max_active_requests_per_client)?;
        let loaned = per_request.checked_mul(self.max_clients)?;
        let all = self.max_clients.checked_mul(received)?;
        loaned.checked_add(all)
    }

    /// Returns why no hub can have these limits, however much memory there is: `ZeroLimit` before `LimitsTooLarge`.
    /// The second covers the pool of a client and that of a server with one loan for each request. Returns `None` if
    /// a hub can have them.
    pub fn refusal(&self) -> Option<HubCreateError>
        ensures { result ≡ hub_refusal self.now }
    {
        if self.has_zero_limit() {
            return Some(HubCreateError::ZeroLimit);
        }
        if self.worst_case_requests().is_none() || self.worst_case_responses(1).is_none() {
            return Some(HubCreateError::LimitsTooLarge);
        }
        None
    }

    /// Sets how many clients may be connected. After iceoryx2's setting of this name.
    #[must_use]
    pub fn max_clients(self, value: usize) -> Self
        ensures { result ≡ record self { max_clients = value } }
    {
        Limits {
            max_clients: value,
            ..self
        }
    }

    /// Sets how many servers may be connected. After iceoryx2's setting of this name.
    #[must_use]
    pub fn max_servers(self, value: usize) -> Self
        ensures { result ≡ record self { max_servers = value } }
    {
        Limits {
            max_servers: value,
            ..self
        }
    }

    /// Sets how many requests a client may have on loan. After iceoryx2's setting of this name.
    #[must_use]
    pub fn max_loaned_requests(self, value: usize) -> Self
        ensures { result ≡ record self { max_loaned_requests = value } }
    {
        Limits {
            max_loaned_requests: value,
            ..self
        }
    }

    /// Sets how many pending responses a client may have. After iceoryx2's setting of this name.
    #[must_use]
    pub fn max_active_requests_per_client(self, value: usize) -> Self
        ensures { result ≡ record self { max_active_requests_per_client = value } }
    {
        Limits {
            max_active_requests_per_client: value,
            ..self
        }
    }

    /// Sets the capacity of a response queue. After iceoryx2's setting of this name.
    #[must_use]
    pub fn max_response_buffer_size(self, value: usize) -> Self
        ensures { result ≡ record self { max_response_buffer_size = value } }
    {
        Limits {
            max_response_buffer_size: value,
            ..self
        }
    }

    /// Sets the borrow limit of one response queue. After iceoryx2's setting of this name.
    #[must_use]
    pub fn max_borrowed_responses_per_pending_response(self, value: usize) -> Self
        ensures { result ≡ record self { max_borrowed_responses_per_pending_response = value } }
    {
        Limits {
            max_borrowed_responses_per_pending_response: value,
            ..self
        }
    }

    /// Sets whether a full request queue drops its oldest entry for a new one. After iceoryx2's setting of this name.
    #[must_use]
    pub fn enable_safe_overflow_for_requests(self, value: bool) -> Self
        ensures { result ≡ record self { enable_safe_overflow_for_requests = value } }
    {
        Limits {
            enable_safe_overflow_for_requests: value,
            ..self
        }
    }

    /// Sets whether a full response queue drops its oldest entry for a new one. After iceoryx2's setting of this
    /// name.
    #[must_use]
    pub fn enable_safe_overflow_for_responses(self, value: bool) -> Self
        ensures { result ≡ record self { enable_safe_overflow_for_responses = value } }
    {
        Limits {
            enable_safe_overflow_for_responses: value,
            ..self
        }
    }

    /// Sets whether servers receive requests that nobody waits for. After iceoryx2's setting of this name.
    #[must_use]
    pub fn enable_fire_and_forget_requests(self, value: bool) -> Self
        ensures { result ≡ record self { enable_fire_and_forget_requests = value } }
    {
        Limits {
            enable_fire_and_forget_requests: value,
            ..self
        }
    }

    /// Sets for how many servers that left a client keeps responses. After iceoryx2's setting of this name.
    #[must_use]
    pub fn client_expired_connection_buffer(self, value: usize) -> Self
        ensures { result ≡ record self { client_expired_connection_buffer = value } }
    {
        Limits {
            client_expired_connection_buffer: value,
            ..self
        }
    }

    /// Sets for how many clients that left a server keeps requests. After iceoryx2's setting of this name.
    #[must_use]
    pub fn server_expired_connection_buffer(self, value: usize) -> Self
        ensures { result ≡ record self { server_expired_connection_buffer = value } }
    {
        Limits {
            server_expired_connection_buffer: value,
            ..self
        }
    }
}

/// Returns `Limits::DEFAULT`, to be changed by its setters.
///
/// # Examples
///
/// ```
/// let limits = Limits::default().max_clients(20).enable_safe_overflow_for_requests(false);
/// ```
impl Default for Limits {
    ghost use Rattle.std.specs.Prelude.{◌≡◌};
    ghost use Rattle.rr_protocol.specs.Limits.{default_limits};

    ghost is_default = { λ limits. limits ≡ default_limits };

    fn default() -> Self {
        Limits::DEFAULT
    }
}
