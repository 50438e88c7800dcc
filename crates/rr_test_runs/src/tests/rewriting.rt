//! Scripts that write a message again before it is sent.
use super::scripts::{PORTS, Row, failing};

/// Elements that are replaced.
pub(super) const ELEMENTS: [Row; 2] = [
    Row {
        name: "an element of a request is replaced where one stands, until it is sent",
        start: PORTS,
        lines: "\
loan 0 1 -> loaned 2
set 2 0 5 -> false
data 2 -> data
push 2 123 -> true
set 2 0 456 -> true
set 2 1 5 -> false
set 2 18446744073709551615 5 -> false
data 2 -> data 456
init 2 -> done
set 2 0 457 -> true
send 2 -> pending 2 1
set 2 0 458 -> refused WrongKind
recv 1 -> active 3 2
data 3 -> data 457
set 3 0 458 -> refused WrongKind
",
    },
    Row {
        name: "an element of a response is replaced where one stands, until it is sent",
        start: PORTS,
        lines: "\
copy 0 1 -> pending 2 1
recv 1 -> active 3 2
loan 3 1 -> loaned 4
set 4 0 456 -> false
data 4 -> data
push 4 123 -> true
set 4 0 456 -> true
set 4 1 5 -> false
data 4 -> data 456
init 4 -> done
set 4 1 5 -> false
set 4 0 457 -> true
data 3 -> data 1
send 4 -> sent 4
set 4 0 458 -> refused Unknown
recv 2 -> response 4
data 4 -> data 457
set 4 0 458 -> refused WrongKind
",
    },
];

/// User headers that are replaced.
pub(super) const HEADERS: [Row; 3] = [
    Row {
        name: "a user header is of one request, until it is sent",
        start: PORTS,
        lines: "\
loan 0 1 -> loaned 2
loan 0 1 -> loaned 3
uset 3 9 -> done
user 2 -> user 0
user 3 -> user 9
push 3 5 -> true
init 3 -> done
uset 3 10 -> done
uset 2 11 -> done
data 3 -> data 5
head 3 -> request-header 0 1 1 0
send 3 -> pending 3 1
uset 3 12 -> refused WrongKind
user 3 -> user 10
recv 1 -> active 4 3
user 4 -> user 10
uset 4 12 -> refused WrongKind
user 2 -> user 11
",
    },
    Row {
        name: "a user header is of one response, until it is sent",
        start: PORTS,
        lines: "\
copy 0 1 -> pending 2 1
recv 1 -> active 3 2
loan 3 1 -> loaned 4
uset 4 9 -> done
user 4 -> user 9
push 4 5 -> true
init 4 -> done
uset 4 8 -> done
user 3 -> user 0
send 4 -> sent 4
uset 4 7 -> refused Unknown
recv 2 -> response 4
user 4 -> user 8
data 4 -> data 5
user 2 -> user 0
uset 4 7 -> refused WrongKind
",
    },
    Row {
        name: "the next message in a slot begins anew",
        start: "hub typed 2 1 2 2 2 1 - 1 1 -> done\n",
        lines: "\
client discard 1 static 1 -> created 0
loan 0 1 -> loaned 1
uset 1 9 -> done
push 1 5 -> true
set 1 0 6 -> true
drop 1 -> done
loan 0 1 -> loaned 2
user 2 -> user 0
data 2 -> data
",
    },
];

#[test]
fn a_port_or_nothing_is_not_written(rt: HostRuntime) {
    let strangers = Row {
        name: "a port, a pending response and nothing",
        start: PORTS,
        lines: "\
copy 0 1 -> pending 2 1
set 0 0 1 -> refused WrongKind
set 1 0 1 -> refused WrongKind
set 2 0 1 -> refused WrongKind
set 9 0 1 -> refused Unknown
uset 0 1 -> refused WrongKind
uset 1 1 -> refused WrongKind
uset 2 1 -> refused WrongKind
uset 9 1 -> refused Unknown
",
    };
    assert_eq!(rt; failing(rt.alloc(), &[strangers]), Ok(None));
}

#[test]
fn an_element_is_replaced(rt: HostRuntime) {
    assert_eq!(rt; failing(rt.alloc(), &ELEMENTS), Ok(None));
}

#[test]
fn a_user_header_is_replaced(rt: HostRuntime) {
    assert_eq!(rt; failing(rt.alloc(), &HEADERS), Ok(None));
}
