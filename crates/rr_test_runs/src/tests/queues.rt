//! Scripts of full queues, and of answers that come late.
use super::scripts::{HUB, PORTS, Row, failing};

/// Queues that are full.
pub(super) const FULL_QUEUES: [Row; 6] = [
    Row {
        name: "a refused request was delivered to nobody",
        start: "hub typed 2 2 2 2 2 1 - 1 1 -> done\n",
        lines: "\
client retry 1 static - -> created 0
server discard 1 static - 1 -> created 1
server discard 1 static - 1 -> created 2
copy 0 1 -> pending 3 2
copy 0 2 -> pending 4 2
recv 1 -> active 5 3
recv 1 -> active 6 4
drop 3 -> done
drop 4 -> done
copy 0 3 -> error SendError UnableToDeliver
has 1 -> false
has 2 -> true
",
    },
    Row {
        name: "a client that discards passes a full queue over",
        start: PORTS,
        lines: "\
copy 0 1 -> pending 2 1
copy 0 2 -> pending 3 1
drop 2 -> done
drop 3 -> done
copy 0 3 -> pending 4 0
",
    },
    Row {
        name: "the oldest request gives way",
        start: "hub typed 2 1 2 2 2 1 qf 1 1 -> done\n",
        lines: "\
client discard 1 static - -> created 0
server discard 1 static - 1 -> created 1
copy 0 1 -> pending 2 1
drop 2 -> done
copy 0 2 -> pending 3 1
drop 3 -> done
copy 0 3 -> pending 4 1
drop 4 -> done
recv 1 -> active 5 3
data 5 -> data 2
recv 1 -> active 6 4
data 6 -> data 3
recv 1 -> none
",
    },
    Row {
        name: "the oldest response gives way",
        start: "hub typed 2 1 2 2 2 1 p 1 1 -> done\n",
        lines: "\
client discard 1 static - -> created 0
server discard 1 static - 1 -> created 1
copy 0 1 -> pending 2 1
recv 1 -> active 3 2
copy 3 10 -> sent 4
copy 3 11 -> sent 5
copy 3 12 -> sent 6
recv 2 -> response 5
data 5 -> data 11
drop 5 -> done
recv 2 -> response 6
drop 6 -> done
recv 2 -> none
",
    },
    Row {
        name: "a server that discards passes a full queue over",
        start: PORTS,
        lines: "\
copy 0 1 -> pending 2 1
recv 1 -> active 3 2
copy 3 10 -> sent 4
copy 3 11 -> sent 5
copy 3 12 -> sent 6
recv 2 -> response 4
data 4 -> data 10
drop 4 -> done
recv 2 -> response 5
drop 5 -> done
recv 2 -> none
",
    },
    Row {
        name: "a server that waits is refused at a full queue",
        start: HUB,
        lines: "\
client discard 1 static - -> created 0
server retry 1 static - 1 -> created 1
copy 0 123 -> pending 2 1
recv 1 -> active 3 2
copy 3 1 -> sent 4
copy 3 2 -> sent 5
loan 3 1 -> loaned 6
push 6 3 -> true
init 6 -> done
send 6 -> error UnableToDeliver
data 6 -> refused Unknown
recv 2 -> response 4
data 4 -> data 1
",
    },
];

/// Answers to requests that were released, or whose active request was.
pub(super) const LATE_ANSWERS: [Row; 5] = [
    Row {
        name: "an answer to a released request is lost",
        start: PORTS,
        lines: "\
copy 0 123 -> pending 2 1
recv 1 -> active 3 2
copy 3 1 -> sent 4
drop 2 -> done
copy 3 2 -> sent 5
copy 0 123 -> pending 6 1
recv 1 -> active 7 6
recv 6 -> none
",
    },
    Row {
        name: "an answer does not reach the next request on its channel",
        start: HUB,
        lines: "\
client discard 1 static 1 -> created 0
server discard 1 static - 1 -> created 1
copy 0 10 -> pending 2 1
recv 1 -> active 3 2
loan 3 1 -> loaned 4
push 4 77 -> true
init 4 -> done
drop 2 -> done
drop 3 -> done
copy 0 11 -> pending 5 1
send 4 -> sent 4
has 5 -> false
recv 5 -> none
has 5 -> false
",
    },
    Row {
        name: "an answer does not take the place of the next request's",
        start: "hub typed 2 1 2 2 1 1 - 1 1 -> done\n",
        lines: "\
client discard 1 static 1 -> created 0
server retry 1 static - 1 -> created 1
copy 0 10 -> pending 2 1
recv 1 -> active 3 2
loan 3 1 -> loaned 4
push 4 77 -> true
init 4 -> done
drop 2 -> done
drop 3 -> done
copy 0 11 -> pending 5 1
send 4 -> sent 4
recv 1 -> active 6 5
loan 6 1 -> loaned 7
push 7 78 -> true
init 7 -> done
ready 7 -> true
send 7 -> sent 7
recv 5 -> response 7
data 7 -> data 78
copy 6 79 -> sent 8
recv 5 -> error ExceedsMaxBorrows
drop 7 -> done
recv 5 -> response 8
data 8 -> data 79
",
    },
    Row {
        name: "an answer outlives its active request",
        start: PORTS,
        lines: "\
copy 0 1 -> pending 2 1
recv 1 -> active 3 2
loan 3 1 -> loaned 4
push 4 5 -> true
init 4 -> done
drop 3 -> done
conn 2 -> false
send 4 -> sent 4
recv 2 -> response 4
data 4 -> data 5
",
    },
    Row {
        name: "late answers of two servers on one channel, and a response that outlives its request",
        start: "hub typed 2 2 2 2 2 1 - 1 1 -> done\n",
        lines: "\
client discard 1 static 1 -> created 0
server discard 1 static - 1 -> created 1
server discard 1 static - 1 -> created 2
copy 0 10 -> pending 3 2
recv 1 -> active 4 3
recv 2 -> active 5 3
loan 4 1 -> loaned 6
push 6 1 -> true
init 6 -> done
loan 5 1 -> loaned 7
push 7 2 -> true
init 7 -> done
drop 3 -> done
drop 4 -> done
drop 5 -> done
copy 0 11 -> pending 8 2
send 6 -> sent 6
send 7 -> sent 7
recv 1 -> active 9 8
copy 9 12 -> sent 10
recv 8 -> response 10
head 10 -> response-header 1 1 1 0
data 10 -> data 12
recv 8 -> none
has 8 -> false
drop 8 -> done
drop 9 -> done
recv 2 -> none
copy 0 13 -> pending 11 2
recv 1 -> active 12 11
copy 12 14 -> sent 13
recv 11 -> error ExceedsMaxBorrows
drop 10 -> done
recv 11 -> response 13
data 13 -> data 14
",
    },
];

#[test]
fn a_full_queue_gives_way_or_refuses(rt: HostRuntime) {
    assert_eq!(rt; failing(rt.alloc(), &FULL_QUEUES), Ok(None));
}

#[test]
fn a_late_answer_reaches_no_other_request(rt: HostRuntime) {
    assert_eq!(rt; failing(rt.alloc(), &LATE_ANSWERS), Ok(None));
}
