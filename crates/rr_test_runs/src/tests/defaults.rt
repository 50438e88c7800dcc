//! Loans of default elements.
use super::scripts::{CLIENT, PORTS, Row, failing};

/// Messages that can be sent at once.
pub(super) const WRITTEN: [Row; 3] = [
    Row {
        name: "a request of a default element is sent and received",
        start: PORTS,
        lines: "\
default 0 1 -> loaned 2
data 2 -> data 0
user 2 -> user 0
ready 2 -> true
send 2 -> pending 2 1
recv 1 -> active 3 2
data 3 -> data 0
",
    },
    Row {
        name: "a response of a default element is sent and received",
        start: PORTS,
        lines: "\
copy 0 7 -> pending 2 1
recv 1 -> active 3 2
default 3 1 -> loaned 4
data 4 -> data 0
ready 4 -> true
send 4 -> sent 4
recv 2 -> response 4
data 4 -> data 0
origin 4 -> id 1
",
    },
    Row {
        name: "what a released message said is gone",
        start: CLIENT,
        lines: "\
loan 0 1 -> loaned 1
push 1 123 -> true
drop 1 -> done
default 0 1 -> loaned 2
data 2 -> data 0
push 2 5 -> refused WrongKind
init 2 -> refused WrongKind
",
    },
];

/// Loans that are refused.
pub(super) const REFUSED: [Row; 4] = [
    Row {
        name: "a client and an active request loan, and nothing else",
        start: PORTS,
        lines: "\
default 1 1 -> refused WrongKind
default 2 1 -> refused Unknown
default 0 1 -> loaned 2
default 2 1 -> refused WrongKind
send 2 -> pending 2 1
default 2 1 -> refused WrongKind
recv 1 -> active 3 2
default 3 1 -> loaned 4
default 4 1 -> refused WrongKind
send 4 -> sent 4
default 4 1 -> refused Unknown
recv 2 -> response 4
default 4 1 -> refused WrongKind
drop 3 -> done
default 3 1 -> refused Unknown
",
    },
    Row {
        name: "a typed message has one element",
        start: PORTS,
        lines: "\
default 0 0 -> refused WrongKind
default 0 2 -> refused WrongKind
default 0 18446744073709551615 -> refused WrongKind
copy 0 7 -> pending 2 1
recv 1 -> active 3 2
default 3 0 -> refused WrongKind
default 3 2 -> refused WrongKind
default 9 2 -> refused Unknown
default 3 1 -> loaned 4
",
    },
    Row {
        name: "a client loans no more than it may",
        start: CLIENT,
        lines: "\
default 0 1 -> loaned 1
default 0 1 -> loaned 2
default 0 1 -> error ExceedsMaxLoans
drop 1 -> done
default 0 1 -> loaned 3
",
    },
    Row {
        name: "so does an active request",
        start: PORTS,
        lines: "\
copy 0 7 -> pending 2 1
recv 1 -> active 3 2
default 3 1 -> loaned 4
default 3 1 -> error ExceedsMaxLoans
send 4 -> sent 4
default 3 1 -> loaned 5
",
    },
];

/// Slices of default elements, of none, and of more than memory holds.
pub(super) const SLICES: [Row; 3] = [
    Row {
        name: "each element of a slice is a default",
        start: "hub sliced 1 1 2 1 1 1 - 1 1 -> done\n",
        lines: "\
client discard 3 static - -> created 0
server discard 3 static - 1 -> created 1
default 0 3 -> loaned 2
send 2 -> pending 2 1
recv 1 -> active 3 2
data 3 -> data 0 0 0
default 3 2 -> loaned 4
send 4 -> sent 4
recv 2 -> response 4
data 4 -> data 0 0
",
    },
    Row {
        name: "a slice can be empty, and is not longer than a static pool has room for",
        start: "hub sliced 1 1 2 1 1 1 - 1 1 -> done\n",
        lines: "\
client discard 3 static - -> created 0
default 0 0 -> loaned 1
data 1 -> data
default 0 18446744073709551615 -> error ExceedsMaxLoanSize
default 0 3 -> loaned 2
",
    },
    Row {
        name: "a slice that no memory holds is refused, and nothing has changed",
        start: "hub sliced 1 1 2 1 1 1 - 1 1 -> done\n",
        lines: "\
client discard 3 best - -> created 0
default 0 0 -> loaned 1
data 1 -> data
default 0 18446744073709551615 -> error OutOfMemory
default 0 3 -> loaned 2
",
    },
];

#[test]
fn a_message_of_default_elements_can_be_sent_at_once(rt: HostRuntime) {
    assert_eq!(rt; failing(rt.alloc(), &WRITTEN), Ok(None));
}

#[test]
fn a_loan_of_default_elements_can_be_refused(rt: HostRuntime) {
    assert_eq!(rt; failing(rt.alloc(), &REFUSED), Ok(None));
}

#[test]
fn slices_of_default_elements_are_loaned(rt: HostRuntime) {
    assert_eq!(rt; failing(rt.alloc(), &SLICES), Ok(None));
}
