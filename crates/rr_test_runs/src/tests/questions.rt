//! Scripts that ask ports and handles.
use super::scripts::{CLIENT, HUB, PORTS, Row, failing};

/// Questions of handles.
pub(super) const HANDLES: [Row; 7] = [
    Row {
        name: "a request has its client's next id, and a loan that is not sent uses one up",
        start: CLIENT,
        lines: "\
loan 0 1 -> loaned 1
loan 0 1 -> loaned 2
loan 0 1 -> error ExceedsMaxLoans
head 1 -> request-header 0 0 1 0
drop 1 -> done
loan 0 1 -> loaned 3
head 3 -> request-header 0 2 1 0
user 3 -> user 0
",
    },
    Row {
        name: "a refused send uses an id up",
        start: PORTS,
        lines: "\
copy 0 1 -> pending 2 1
copy 0 2 -> pending 3 1
copy 0 3 -> error ExceedsMaxActiveRequests
loan 0 1 -> loaned 5
head 5 -> request-header 0 3 1 0
loan 0 1 -> loaned 6
",
    },
    Row {
        name: "a message keeps its header, and names where it came from",
        start: PORTS,
        lines: "\
copy 0 1 -> pending 2 1
count 2 -> count 1
recv 1 -> active 3 2
head 2 -> request-header 0 0 1 0
head 3 -> request-header 0 0 1 0
user 3 -> user 0
origin 3 -> id 0
loan 3 1 -> loaned 4
head 4 -> response-header 1 0 1 0
push 4 5 -> true
init 4 -> done
ready 4 -> true
head 4 -> response-header 1 0 1 0
send 4 -> sent 4
head 4 -> refused Unknown
recv 2 -> response 4
head 4 -> response-header 1 0 1 0
user 4 -> user 0
origin 4 -> id 1
",
    },
    Row {
        name: "a hint isn't a close",
        start: PORTS,
        lines: "\
copy 0 1 -> pending 2 1
recv 1 -> active 3 2
hinted 3 -> false
hint 2 -> done
hinted 3 -> true
conn 3 -> true
drop 2 -> done
hinted 3 -> false
conn 3 -> false
",
    },
    Row {
        name: "the place of a client that left is another client's",
        start: "hub typed 1 1 2 2 2 1 - 1 1 -> done\n",
        lines: "\
client discard 1 static - -> created 0
server discard 1 static - 1 -> created 1
copy 0 1 -> pending 2 1
recv 1 -> active 3 2
drop 2 -> done
drop 0 -> done
client discard 1 static - -> created 4
copy 4 2 -> pending 5 1
hint 5 -> done
head 5 -> request-header 4 0 1 0
conn 3 -> false
hinted 3 -> false
origin 3 -> id 0
copy 3 9 -> sent 6
has 5 -> false
",
    },
    Row {
        name: "a late answer takes no place, and a send tells of a full queue before",
        start: "hub typed 2 1 2 2 1 1 - 1 1 -> done\n",
        lines: "\
client discard 1 static 1 -> created 0
server retry 1 static - 1 -> created 1
copy 0 10 -> pending 2 1
recv 1 -> active 3 2
loan 3 1 -> loaned 4
push 4 77 -> true
init 4 -> done
drop 2 -> done
drop 3 -> done
copy 0 11 -> pending 5 1
ready 4 -> true
send 4 -> sent 4
has 5 -> false
recv 1 -> active 6 5
loan 6 1 -> loaned 7
push 7 78 -> true
init 7 -> done
ready 7 -> true
send 7 -> sent 7
has 5 -> true
loan 6 1 -> loaned 8
push 8 79 -> true
init 8 -> done
ready 8 -> false
recv 5 -> response 7
has 5 -> false
ready 8 -> true
",
    },
    Row {
        name: "a question of another kind is refused",
        start: PORTS,
        lines: "\
copy 0 1 -> pending 2 1
ready 2 -> refused WrongKind
has 0 -> refused WrongKind
hint 0 -> refused WrongKind
hinted 2 -> refused WrongKind
count 0 -> refused WrongKind
head 0 -> refused WrongKind
user 1 -> refused WrongKind
origin 2 -> refused WrongKind
strategy 2 -> refused WrongKind
maxlen 2 -> refused WrongKind
update 2 -> refused WrongKind
ready 9 -> refused Unknown
has 9 -> refused Unknown
hint 9 -> refused Unknown
hinted 9 -> refused Unknown
count 9 -> refused Unknown
head 9 -> refused Unknown
user 9 -> refused Unknown
origin 9 -> refused Unknown
strategy 9 -> refused Unknown
maxlen 9 -> refused Unknown
update 9 -> refused Unknown
",
    },
];

/// Questions of ports and of queues.
pub(super) const QUEUES: [Row; 5] = [
    Row {
        name: "a port has its settings",
        start: HUB,
        lines: "\
client retry 1 static - -> created 0
server discard 1 static - 1 -> created 1
strategy 0 -> retry
strategy 1 -> discard
maxlen 0 -> count 1
maxlen 1 -> count 1
update 0 -> done
update 1 -> done
",
    },
    Row {
        name: "a dead request is an entry until it is skimmed",
        start: PORTS,
        lines: "\
copy 0 7 -> pending 2 1
has 1 -> true
drop 2 -> done
has 1 -> true
recv 1 -> none
has 1 -> false
",
    },
    Row {
        name: "a refused request came to no queue, and is not deliverable before",
        start: "hub typed 2 2 2 2 2 1 - 1 1 -> done\n",
        lines: "\
client retry 1 static - -> created 0
server discard 1 static - 1 -> created 1
server discard 1 static - 1 -> created 2
copy 0 1 -> pending 3 2
copy 0 2 -> pending 4 2
recv 1 -> active 5 3
recv 1 -> active 6 4
drop 3 -> done
drop 4 -> done
loan 0 1 -> loaned 7
push 7 3 -> true
init 7 -> done
ready 7 -> false
send 7 -> error SendError UnableToDeliver
has 1 -> false
has 2 -> true
",
    },
    Row {
        name: "a request that outlives its client waits for the server",
        start: "hub typed 2 1 2 2 2 1 f 1 1 -> done\n",
        lines: "\
client discard 1 static - -> created 0
server discard 1 static - 1 -> created 1
copy 0 7 -> pending 2 1
drop 2 -> done
drop 0 -> done
has 1 -> true
recv 1 -> active 3 2
conn 3 -> false
origin 3 -> id 0
data 3 -> data 7
copy 3 9 -> sent 4
drop 3 -> done
has 1 -> false
",
    },
    Row {
        name: "a released pending response leaves nothing of a server that left",
        start: HUB,
        lines: "\
client discard 1 static 1 -> created 0
server discard 1 static - 1 -> created 1
copy 0 1 -> pending 2 1
recv 1 -> active 3 2
copy 3 9 -> sent 4
has 2 -> true
drop 3 -> done
drop 1 -> done
has 2 -> true
drop 2 -> done
copy 0 5 -> pending 5 0
has 5 -> false
recv 5 -> none
",
    },
];

#[test]
fn a_handle_is_asked(rt: HostRuntime) {
    assert_eq!(rt; failing(rt.alloc(), &HANDLES), Ok(None));
}

#[test]
fn a_port_and_its_queues_are_asked(rt: HostRuntime) {
    assert_eq!(rt; failing(rt.alloc(), &QUEUES), Ok(None));
}
