//! The sizes that follow from limits, and limits that are refused.
ghost use Rattle.std.specs.Prelude.{◌<◌};

use rr_protocol::{HubCreateError, Limits};

/// Two clients and one server; two loans, two active requests, two queued and one borrowed response.
const TWO_CLIENTS: Limits = Limits {
    max_clients: 2,
    max_loaned_requests: 2,
    max_active_requests_per_client: 2,
    max_response_buffer_size: 2,
    client_expired_connection_buffer: 1,
    server_expired_connection_buffer: 1,
    ..Limits::SMALLEST
};

#[test]
fn pools_of_two_clients_and_one_server(rt: HostRuntime) {
    let limits = TWO_CLIENTS;
    let refused = (limits.has_zero_limit(), limits.refusal());
    assert!(rt; refused == (false, None));
    let sizes = [
        limits.worst_case_requests(),
        limits.worst_case_responses(1),
        limits.worst_case_responses(2),
    ];
    assert!(rt; sizes == [Some(8), Some(28), Some(32)]);
}

#[test]
fn a_limit_of_zero_is_refused_before_one_that_is_too_large(rt: HostRuntime) {
    let mut limits = TWO_CLIENTS;
    limits.max_servers = usize::MAX;
    assert!(rt; limits.refusal() == Some(HubCreateError::LimitsTooLarge));
    limits.max_clients = 0;
    assert!(rt; limits.refusal() == Some(HubCreateError::ZeroLimit));
}

#[test]
fn default_limits_are_those_of_iceoryx2(rt: HostRuntime) {
    let limits = Limits::default();
    let sizes = [
        limits.max_clients,
        limits.max_servers,
        limits.max_loaned_requests,
        limits.max_active_requests_per_client,
        limits.max_response_buffer_size,
        limits.max_borrowed_responses_per_pending_response,
        limits.client_expired_connection_buffer,
        limits.server_expired_connection_buffer,
    ];
    let switches = [
        limits.enable_safe_overflow_for_requests,
        limits.enable_safe_overflow_for_responses,
        limits.enable_fire_and_forget_requests,
    ];
    let told = (sizes, switches, limits.refusal());
    assert!(rt; told == ([8, 2, 2, 4, 2, 2, 128, 128], [true, true, true], None));
}

#[test]
fn each_setter_sets_its_own_limit(rt: HostRuntime) {
    let set = Limits::default()
        .max_clients(11)
        .max_servers(12)
        .max_loaned_requests(13)
        .max_active_requests_per_client(14)
        .max_response_buffer_size(15)
        .max_borrowed_responses_per_pending_response(16)
        .enable_safe_overflow_for_requests(false)
        .enable_safe_overflow_for_responses(false)
        .enable_fire_and_forget_requests(false)
        .client_expired_connection_buffer(17)
        .server_expired_connection_buffer(18);
    let literal = Limits {
        max_clients: 11,
        max_servers: 12,
        max_loaned_requests: 13,
        max_active_requests_per_client: 14,
        max_response_buffer_size: 15,
        max_borrowed_responses_per_pending_response: 16,
        enable_safe_overflow_for_requests: false,
        enable_safe_overflow_for_responses: false,
        enable_fire_and_forget_requests: false,
        client_expired_connection_buffer: 17,
        server_expired_connection_buffer: 18,
    };
    assert!(rt; set == literal);
}

/// One of everything, but `max_loaned_requests` loans of requests.
fn one_of_each(max_loaned_requests: usize) -> Limits
    ensures { 0 < result.max_active_requests_per_client }
{
    Limits {
        max_loaned_requests,
        ..Limits::SMALLEST
    }
}

#[test]
fn the_largest_pool_is_one_that_a_usize_counts(rt: HostRuntime) {
    let refused = Some(HubCreateError::LimitsTooLarge);
    let cases = [
        (usize::MAX - 5, Some(usize::MAX - 2), None),
        (usize::MAX - 4, Some(usize::MAX - 1), refused),
        (usize::MAX - 3, Some(usize::MAX), refused),
        (usize::MAX - 2, None, refused),
    ];
    for (loaned, requests, refusal) in cases {
        let limits = one_of_each(loaned);
        let told = (limits.worst_case_requests(), limits.refusal());
        assert!(rt; told == (requests, refusal), "{loaned} loaned requests");
    }
}
