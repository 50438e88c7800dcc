//! The settings of a hub and its ports, as a C program passes them.
ghost use Rattle.std.specs.Prelude.{◌≡◌, Some};
ghost use Rattle.rr_c.specs.Settings.{backpressure_in, allocation_in, client_settings_in, limits_in, pool_in, server_settings_in};

use rr_bytes::{AllocationStrategy, BackpressureStrategy, ClientSettings, Limits, ServerSettings};
use rr_protocol::NoHandler;

/// `rr_limits_t`.
#[repr(C)]
#[derive(Clone, Copy)]
pub struct HubLimits {
    pub max_clients: usize,
    pub max_servers: usize,
    pub max_loaned_requests: usize,
    pub max_active_requests_per_client: usize,
    pub max_response_buffer_size: usize,
    pub max_borrowed_responses_per_pending_response: usize,
    pub client_expired_connection_buffer: usize,
    pub server_expired_connection_buffer: usize,
    pub enable_safe_overflow_for_requests: bool,
    pub enable_safe_overflow_for_responses: bool,
    pub enable_fire_and_forget_requests: bool,
}

/// `rr_client_settings_t`.
#[repr(C)]
#[derive(Clone, Copy)]
pub struct ClientOptions {
    pub initial_max_slice_len: usize,
    pub preallocated_requests: usize,
    pub backpressure_strategy: u32,
    pub allocation_strategy: u32,
}

/// `rr_server_settings_t`.
#[repr(C)]
#[derive(Clone, Copy)]
pub struct ServerOptions {
    pub initial_max_slice_len: usize,
    pub preallocated_responses: usize,
    pub max_loaned_responses_per_request: usize,
    pub backpressure_strategy: u32,
    pub allocation_strategy: u32,
}

/// Returns the limits of a hub.
pub(crate) fn limits(asked: &HubLimits) -> Limits
    ensures { result ≡ limits_in asked.now }
{
    Limits {
        max_clients: asked.max_clients,
        max_servers: asked.max_servers,
        max_loaned_requests: asked.max_loaned_requests,
        max_active_requests_per_client: asked.max_active_requests_per_client,
        max_response_buffer_size: asked.max_response_buffer_size,
        max_borrowed_responses_per_pending_response: asked.max_borrowed_responses_per_pending_response,
        enable_safe_overflow_for_requests: asked.enable_safe_overflow_for_requests,
        enable_safe_overflow_for_responses: asked.enable_safe_overflow_for_responses,
        enable_fire_and_forget_requests: asked.enable_fire_and_forget_requests,
        client_expired_connection_buffer: asked.client_expired_connection_buffer,
        server_expired_connection_buffer: asked.server_expired_connection_buffer,
    }
}

/// Returns the settings of a client, or `None` if a number is not that of a strategy.
pub(crate) fn client(asked: &ClientOptions) -> Option<ClientSettings<NoHandler>>
    ensures { result ≡ client_settings_in asked.now }
{
    let strategy = backpressure(asked.backpressure_strategy)?;
    let allocation_strategy = allocation(asked.allocation_strategy)?;
    Some(ClientSettings {
        initial_max_slice_len: asked.initial_max_slice_len,
        pool: pool(asked.preallocated_requests),
        strategy,
        allocation_strategy,
        handler: None,
    })
}

/// Returns the settings of a server, or `None` if a number is not that of a strategy.
pub(crate) fn server(asked: &ServerOptions) -> Option<ServerSettings<NoHandler>>
    ensures { result ≡ server_settings_in asked.now }
{
    let strategy = backpressure(asked.backpressure_strategy)?;
    let allocation_strategy = allocation(asked.allocation_strategy)?;
    Some(ServerSettings {
        initial_max_slice_len: asked.initial_max_slice_len,
        pool: pool(asked.preallocated_responses),
        loans: asked.max_loaned_responses_per_request,
        strategy,
        allocation_strategy,
        handler: None,
    })
}

/// Returns the slots of a reduced pool, or `None` for 0, which reduces no pool.
fn pool(slots: usize) -> Option<usize>
    ensures { result ≡ pool_in slots }
{
    if slots == 0 { None } else { Some(slots) }
}

/// Returns the strategy with this number, if there is one.
fn backpressure(number: u32) -> Option<BackpressureStrategy>
    ensures { result ≡ backpressure_in number }
{
    match number {
        0 => Some(BackpressureStrategy::RetryUntilDelivered),
        1 => Some(BackpressureStrategy::DiscardData),
        _ => None,
    }
}

/// Returns the strategy with this number, if there is one.
fn allocation(number: u32) -> Option<AllocationStrategy>
    ensures { result ≡ allocation_in number }
{
    match number {
        0 => Some(AllocationStrategy::Static),
        1 => Some(AllocationStrategy::BestFit),
        2 => Some(AllocationStrategy::PowerOfTwo),
        _ => None,
    }
}

/// Returns the number of a strategy.
pub(crate) fn number_of(strategy: BackpressureStrategy) -> u32
    ensures { backpressure_in result ≡ Some strategy }
{
    match strategy {
        BackpressureStrategy::RetryUntilDelivered => 0,
        BackpressureStrategy::DiscardData => 1,
    }
}
