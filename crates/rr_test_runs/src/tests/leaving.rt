//! Scripts in which ports leave.
use super::scripts::{PORTS, Row, failing};

/// Ports that are kept by a handle, and places that are taken again.
pub(super) const PLACES: [Row; 4] = [
    Row {
        name: "a server is kept by its active request, and leaves with it",
        start: PORTS,
        lines: "\
copy 0 1 -> pending 2 1
recv 1 -> active 3 2
drop 1 -> done
recv 1 -> refused Unknown
server discard 1 static - 1 -> error ExceedsMaxSupportedServers
conn 2 -> true
drop 3 -> done
conn 2 -> false
server discard 1 static - 1 -> created 4
conn 2 -> false
recv 4 -> none
",
    },
    Row {
        name: "an answer to a client that left does not reach the one in its place",
        start: "hub typed 1 1 2 2 2 1 - 1 1 -> done\n",
        lines: "\
client discard 1 static - -> created 0
server discard 1 static - 1 -> created 1
copy 0 1 -> pending 2 1
recv 1 -> active 3 2
drop 2 -> done
drop 0 -> done
client discard 1 static - -> created 4
copy 4 2 -> pending 5 1
conn 3 -> false
copy 3 9 -> sent 6
recv 5 -> none
recv 1 -> active 7 5
copy 7 8 -> sent 8
recv 5 -> response 8
data 8 -> data 8
",
    },
    Row {
        name: "a response on loan outlives its active request, its client and what the client sent from",
        start: "hub typed 1 1 2 2 2 1 - 1 1 -> done\n",
        lines: "\
client discard 1 static - -> created 0
server discard 1 static - 1 -> created 1
copy 0 1 -> pending 2 1
recv 1 -> active 3 2
loan 3 1 -> loaned 4
drop 3 -> done
drop 2 -> done
drop 0 -> done
client discard 1 static - -> created 5
copy 5 2 -> pending 6 1
push 4 9 -> true
init 4 -> done
send 4 -> sent 4
recv 6 -> none
recv 1 -> active 7 6
copy 7 8 -> sent 8
recv 6 -> response 8
data 8 -> data 8
",
    },
    Row {
        name: "a client is kept by a response that it received",
        start: "hub typed 1 1 2 2 2 1 - 1 1 -> done\n",
        lines: "\
client discard 1 static - -> created 0
server discard 1 static - 1 -> created 1
copy 0 1 -> pending 2 1
recv 1 -> active 3 2
copy 3 9 -> sent 4
recv 2 -> response 4
drop 0 -> done
drop 2 -> done
client discard 1 static - -> error ExceedsMaxSupportedClients
data 4 -> data 9
drop 4 -> done
client discard 1 static - -> created 5
",
    },
];

/// Servers that left, whose responses were not received.
pub(super) const SERVERS: [Row; 8] = [
    Row {
        name: "what a server sent before it left is received",
        start: PORTS,
        lines: "\
copy 0 1 -> pending 2 1
recv 1 -> active 3 2
copy 3 10 -> sent 4
copy 3 11 -> sent 5
drop 3 -> done
drop 1 -> done
recv 2 -> response 4
drop 4 -> done
recv 2 -> response 5
drop 5 -> done
recv 2 -> none
",
    },
    Row {
        name: "a server's last handle is the response that it sends",
        start: PORTS,
        lines: "\
copy 0 1 -> pending 2 1
recv 1 -> active 3 2
loan 3 1 -> loaned 4
push 4 5 -> true
init 4 -> done
drop 3 -> done
drop 1 -> done
send 4 -> sent 4
server discard 1 static - 1 -> created 5
recv 2 -> response 4
data 4 -> data 5
",
    },
    Row {
        name: "a client without room for expired connections keeps nothing",
        start: "hub typed 2 1 2 2 2 1 - 0 1 -> done\n",
        lines: "\
client discard 1 static - -> created 0
server discard 1 static - 1 -> created 1
copy 0 1 -> pending 2 1
recv 1 -> active 3 2
copy 3 10 -> sent 4
copy 3 11 -> sent 5
drop 3 -> done
drop 1 -> done
recv 2 -> none
",
    },
    Row {
        name: "the oldest expired connection gives way",
        start: "hub typed 2 2 2 2 2 1 - 1 1 -> done\n",
        lines: "\
client discard 1 static - -> created 0
server discard 1 static - 1 -> created 1
server discard 1 static - 1 -> created 2
copy 0 1 -> pending 3 2
recv 1 -> active 4 3
recv 2 -> active 5 3
copy 4 10 -> sent 6
copy 5 20 -> sent 7
drop 4 -> done
drop 1 -> done
drop 5 -> done
drop 2 -> done
conn 3 -> false
recv 3 -> response 7
data 7 -> data 20
drop 7 -> done
recv 3 -> none
",
    },
    Row {
        name: "of three expired connections the oldest gives way, whatever the order of creation",
        start: "hub typed 2 3 2 2 2 1 - 2 1 -> done\n",
        lines: "\
client discard 1 static - -> created 0
server discard 1 static - 1 -> created 1
server discard 1 static - 1 -> created 2
server discard 1 static - 1 -> created 3
copy 0 1 -> pending 4 3
recv 1 -> active 5 4
recv 2 -> active 6 4
recv 3 -> active 7 4
copy 5 10 -> sent 8
copy 6 20 -> sent 9
copy 7 30 -> sent 10
drop 2 -> done
drop 6 -> done
drop 3 -> done
drop 7 -> done
drop 1 -> done
drop 5 -> done
recv 4 -> response 8
recv 4 -> response 10
recv 4 -> none
",
    },
    Row {
        name: "an expired connection that was emptied takes no place in the list",
        start: "hub typed 2 3 2 2 2 1 - 2 1 -> done\n",
        lines: "\
client discard 1 static - -> created 0
server discard 1 static - 1 -> created 1
server discard 1 static - 1 -> created 2
copy 0 1 -> pending 3 2
recv 1 -> active 4 3
recv 2 -> active 5 3
copy 4 10 -> sent 6
copy 4 11 -> sent 7
copy 5 20 -> sent 8
drop 4 -> done
drop 1 -> done
drop 5 -> done
drop 2 -> done
recv 3 -> response 6
recv 3 -> response 8
server discard 1 static - 1 -> created 9
copy 0 2 -> pending 10 1
recv 9 -> active 11 10
copy 11 30 -> sent 12
drop 11 -> done
drop 9 -> done
drop 6 -> done
recv 3 -> response 7
recv 10 -> response 12
",
    },
    Row {
        name: "a list of expired connections may be longer than any memory",
        start: "hub typed 1 1 2 2 2 1 - 18446744073709551615 18446744073709551615 -> done\n",
        lines: "\
client discard 1 static - -> created 0
server discard 1 static - 1 -> created 1
copy 0 1 -> pending 2 1
recv 1 -> active 3 2
copy 3 10 -> sent 4
drop 3 -> done
drop 1 -> done
recv 2 -> response 4
recv 2 -> none
",
    },
    Row {
        name: "a released pending response empties its channel, that of a server that left too",
        start: "hub typed 2 1 2 2 2 1 - 1 1 -> done\n",
        lines: "\
client discard 1 static 1 -> created 0
server discard 1 static - 1 -> created 1
copy 0 1 -> pending 2 1
recv 1 -> active 3 2
copy 3 9 -> sent 4
drop 3 -> done
drop 1 -> done
drop 2 -> done
copy 0 5 -> pending 5 0
recv 5 -> none
",
    },
];

/// Clients that left, whose requests were not received.
pub(super) const CLIENTS: [Row; 6] = [
    Row {
        name: "a request outlives its client with fire-and-forget",
        start: "hub typed 2 1 2 2 2 1 f 1 1 -> done\n",
        lines: "\
client discard 1 static - -> created 0
server discard 1 static - 1 -> created 1
copy 0 7 -> pending 2 1
drop 2 -> done
drop 0 -> done
has 1 -> true
recv 1 -> active 3 2
conn 3 -> false
origin 3 -> id 0
data 3 -> data 7
copy 3 9 -> sent 4
drop 3 -> done
has 1 -> false
",
    },
    Row {
        name: "without fire-and-forget it does not",
        start: PORTS,
        lines: "\
copy 0 7 -> pending 2 1
drop 2 -> done
drop 0 -> done
has 1 -> false
recv 1 -> none
",
    },
    Row {
        name: "of two clients that left a server keeps the requests of the newer one",
        start: "hub typed 2 1 2 2 2 2 f 1 1 -> done\n",
        lines: "\
client discard 1 static - -> created 0
server discard 1 static - 1 -> created 1
client discard 1 static - -> created 2
copy 0 7 -> pending 3 1
copy 2 8 -> pending 4 1
drop 2 -> done
drop 4 -> done
drop 0 -> done
drop 3 -> done
recv 1 -> active 5 3
data 5 -> data 7
recv 1 -> none
",
    },
    Row {
        name: "a server without room for expired connections keeps nothing",
        start: "hub typed 2 1 2 2 2 1 f 1 0 -> done\n",
        lines: "\
client discard 1 static - -> created 0
server discard 1 static - 1 -> created 1
copy 0 7 -> pending 2 1
drop 2 -> done
drop 0 -> done
recv 1 -> none
",
    },
    Row {
        name: "a client's last handle is a request on loan",
        start: "hub typed 1 1 2 2 2 1 f 1 1 -> done\n",
        lines: "\
client discard 1 static - -> created 0
server discard 1 static - 1 -> created 1
loan 0 1 -> loaned 2
drop 0 -> done
push 2 5 -> true
init 2 -> done
send 2 -> pending 2 1
client discard 1 static - -> error ExceedsMaxSupportedClients
drop 2 -> done
client discard 1 static - -> created 3
recv 1 -> active 4 2
data 4 -> data 5
",
    },
    Row {
        name: "a refused send lets a client leave",
        start: "hub typed 1 1 1 1 1 1 f 1 1 -> done\n",
        lines: "\
client retry 1 static - -> created 0
server discard 1 static - 1 -> created 1
copy 0 7 -> pending 2 1
drop 2 -> done
loan 0 1 -> loaned 3
push 3 8 -> true
init 3 -> done
drop 0 -> done
client retry 1 static - -> error ExceedsMaxSupportedClients
send 3 -> error SendError UnableToDeliver
client retry 1 static - -> created 4
recv 1 -> active 5 2
data 5 -> data 7
",
    },
];

#[test]
fn a_port_leaves_with_its_last_handle(rt: HostRuntime) {
    assert_eq!(rt; failing(rt.alloc(), &PLACES), Ok(None));
}

#[test]
fn responses_of_a_server_that_left_are_kept_to_a_length(rt: HostRuntime) {
    assert_eq!(rt; failing(rt.alloc(), &SERVERS), Ok(None));
}

#[test]
fn requests_of_a_client_that_left_are_kept_with_fire_and_forget(rt: HostRuntime) {
    assert_eq!(rt; failing(rt.alloc(), &CLIENTS), Ok(None));
}
