//! Scripts of the ports' behaviour.
use super::scripts::{BASE_PATH, CLIENT, HUB, PORTS, Row, ends, failing};

/// Requests that are answered, received, or wait for nobody.
pub(super) const REQUESTS: [Row; 7] = [
    Row {
        name: "the base path",
        start: PORTS,
        lines: BASE_PATH,
    },
    Row {
        name: "without a server nobody takes a request",
        start: CLIENT,
        lines: "\
copy 0 5 -> pending 1 0
conn 1 -> false
recv 1 -> none
",
    },
    Row {
        name: "nothing is received before it is sent",
        start: PORTS,
        lines: "\
recv 1 -> none
copy 0 123 -> pending 2 1
recv 1 -> active 3 2
recv 2 -> none
recv 1 -> none
",
    },
    Row {
        name: "a released response is gone",
        start: "hub typed 1 1 1 1 1 1 - 1 1 -> done\n",
        lines: "\
client retry 1 static - -> created 0
server retry 1 static - 1 -> created 1
copy 0 123 -> pending 2 1
recv 1 -> active 3 2
copy 3 456 -> sent 4
recv 2 -> response 4
data 4 -> data 456
recv 2 -> none
drop 4 -> done
drop 4 -> refused Unknown
",
    },
    Row {
        name: "a request comes to each server",
        start: "hub typed 2 2 2 2 2 1 - 1 1 -> done\n",
        lines: "\
client discard 1 static - -> created 0
server retry 1 static 3 1 -> created 1
server retry 1 static 3 1 -> created 2
loan 0 1 -> loaned 3
push 3 123 -> true
init 3 -> done
send 3 -> pending 3 2
send 3 -> refused WrongKind
recv 2 -> active 4 3
data 4 -> data 123
",
    },
    Row {
        name: "a request that nobody waits for is dropped",
        start: PORTS,
        lines: "\
copy 0 1 -> pending 2 1
drop 2 -> done
recv 1 -> none
copy 0 2 -> pending 3 1
recv 1 -> active 4 3
data 4 -> data 2
",
    },
    Row {
        name: "a request that nobody waits for is received with fire-and-forget",
        start: "hub typed 2 1 2 2 2 1 f 1 1 -> done\n",
        lines: "\
client discard 1 static - -> created 0
server discard 1 static - 1 -> created 1
copy 0 7 -> pending 2 1
drop 2 -> done
recv 1 -> active 3 2
conn 3 -> false
data 3 -> data 7
",
    },
];

/// Messages that are written before they are sent.
pub(super) const WRITING: [Row; 3] = [
    Row {
        name: "an active request has one response on loan",
        start: PORTS,
        lines: "\
copy 0 1 -> pending 2 1
recv 1 -> active 3 2
loan 3 1 -> loaned 4
loan 3 1 -> error ExceedsMaxLoans
push 4 1234 -> true
set 4 0 456 -> true
init 4 -> done
send 4 -> sent 4
loan 3 1 -> loaned 5
recv 2 -> response 4
data 4 -> data 456
head 4 -> response-header 1 0 1 0
",
    },
    Row {
        name: "a request is loaned, written and sent",
        start: "hub typed 1 1 1 1 1 1 - 1 1 -> done\n",
        lines: "\
client retry 1 static - -> created 0
server retry 1 static - 1 -> created 1
loan 0 1 -> loaned 2
loan 0 1 -> error ExceedsMaxLoans
init 2 -> refused Incomplete
push 2 123 -> true
push 2 456 -> false
send 2 -> refused WrongKind
init 2 -> done
send 2 -> pending 2 1
conn 2 -> true
recv 1 -> active 3 2
data 3 -> data 123
drop 3 -> done
conn 2 -> false
",
    },
    Row {
        name: "a response is loaned, written and sent",
        start: PORTS,
        lines: "\
copy 0 1 -> pending 2 1
recv 1 -> active 3 2
loan 3 1 -> loaned 4
loan 3 1 -> error ExceedsMaxLoans
init 4 -> refused Incomplete
push 4 5 -> true
push 4 6 -> false
data 4 -> data 5
init 4 -> done
send 4 -> sent 4
send 4 -> refused Unknown
recv 2 -> response 4
data 4 -> data 5
",
    },
];

/// Limits on loans, pending responses and borrows.
pub(super) const LIMITS: [Row; 6] = [
    Row {
        name: "a client loans no more than it may",
        start: CLIENT,
        lines: "\
loan 0 1 -> loaned 1
loan 0 1 -> loaned 2
loan 0 1 -> error ExceedsMaxLoans
drop 1 -> done
loan 0 1 -> loaned 3
",
    },
    Row {
        name: "a refused copy is a release",
        start: PORTS,
        lines: "\
copy 0 1 -> pending 2 1
copy 0 2 -> pending 3 1
copy 0 3 -> error ExceedsMaxActiveRequests
loan 0 1 -> loaned 5
loan 0 1 -> loaned 6
",
    },
    Row {
        name: "a refused send is a release",
        start: PORTS,
        lines: "\
copy 0 1 -> pending 2 1
copy 0 2 -> pending 3 1
loan 0 1 -> loaned 4
push 4 3 -> true
init 4 -> done
send 4 -> error ExceedsMaxActiveRequests
conn 4 -> refused Unknown
",
    },
    Row {
        name: "a client borrows no more responses than it may",
        start: PORTS,
        lines: "\
copy 0 1 -> pending 2 1
recv 1 -> active 3 2
copy 3 10 -> sent 4
copy 3 11 -> sent 5
recv 2 -> response 4
recv 2 -> error ExceedsMaxBorrows
data 4 -> data 10
drop 4 -> done
recv 2 -> response 5
data 5 -> data 11
",
    },
    Row {
        name: "what is too much in a small hub is refused",
        start: "hub typed 1 1 1 1 1 1 - 1 1 -> done\n",
        lines: "\
client retry 1 static - -> created 0
server retry 1 static - 1 -> created 1
client retry 1 static - -> error ExceedsMaxSupportedClients
server retry 1 static - 1 -> error ExceedsMaxSupportedServers
copy 0 123 -> pending 2 1
copy 0 456 -> error ExceedsMaxActiveRequests
conn 3 -> refused Unknown
recv 1 -> active 4 2
copy 4 5 -> sent 5
copy 4 6 -> error UnableToDeliver
recv 2 -> response 5
copy 4 7 -> sent 7
recv 2 -> error ExceedsMaxBorrows
",
    },
    Row {
        name: "a refused creation takes no number",
        start: HUB,
        lines: "\
server retry 1 static 3 18446744073709551615 -> error UnableToCreateDataSegment
client discard 1 static - -> created 0
server retry 1 static 3 1 -> created 1
client discard 1 static 2 -> created 2
client discard 1 static - -> error ExceedsMaxSupportedClients
server retry 1 static 3 1 -> error ExceedsMaxSupportedServers
loan 2 1 -> loaned 3
",
    },
];

/// Commands that are refused before they act.
pub(super) const STRANGERS: [Row; 3] = [
    Row {
        name: "a number that names nothing is unknown",
        start: PORTS,
        lines: "\
loan 9 1 -> refused Unknown
copy 9 1 -> refused Unknown
push 9 1 -> refused Unknown
init 9 -> refused Unknown
send 9 -> refused Unknown
recv 9 -> refused Unknown
data 9 -> refused Unknown
conn 9 -> refused Unknown
drop 9 -> refused Unknown
",
    },
    Row {
        name: "a port without the call is of the wrong kind",
        start: PORTS,
        lines: "\
loan 1 1 -> refused WrongKind
loan 0 2 -> refused WrongKind
copy 1 1 -> refused WrongKind
push 0 1 -> refused WrongKind
init 0 -> refused WrongKind
send 0 -> refused WrongKind
recv 0 -> refused WrongKind
data 0 -> refused WrongKind
conn 0 -> refused WrongKind
",
    },
    Row {
        name: "a loan without the call is of the wrong kind",
        start: CLIENT,
        lines: "\
send 7 -> refused Unknown
loan 0 1 -> loaned 1
send 1 -> refused WrongKind
init 1 -> refused Incomplete
push 1 4 -> true
push 1 5 -> false
init 1 -> done
recv 1 -> refused WrongKind
loan 0 2 -> refused WrongKind
",
    },
];

/// Limits that make no hub.
pub(super) const NO_HUBS: [Row; 2] = [
    Row {
        name: "a limit of 0",
        start: "",
        lines: "hub typed 0 1 2 2 2 1 - 1 1 -> error ZeroLimit\n",
    },
    Row {
        name: "limits whose pools can't be counted",
        start: "",
        lines: "hub typed 2 18446744073709551615 2 2 2 1 - 1 1 -> error LimitsTooLarge\n",
    },
];

#[test]
fn limits_make_no_hub(rt: HostRuntime) {
    for row in NO_HUBS {
        assert!(rt;
            ends(rt.alloc(), &row, 4, "refused\n") == Ok(true),
            "{}",
            row.name
        );
    }
}

#[test]
fn a_request_is_received_and_answered(rt: HostRuntime) {
    assert_eq!(rt; failing(rt.alloc(), &REQUESTS), Ok(None));
}

#[test]
fn a_message_is_sent_once_it_is_written(rt: HostRuntime) {
    assert_eq!(rt; failing(rt.alloc(), &WRITING), Ok(None));
}

#[test]
fn what_is_above_a_limit_is_refused(rt: HostRuntime) {
    assert_eq!(rt; failing(rt.alloc(), &LIMITS), Ok(None));
}

#[test]
fn strangers_are_refused(rt: HostRuntime) {
    assert_eq!(rt; failing(rt.alloc(), &STRANGERS), Ok(None));
}
