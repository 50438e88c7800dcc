//! Scripts of the sliced family.
use super::scripts::{Row, failing};

/// Slices of a static pool with room for 32 elements, of a pool without room, and of pools that grow.
pub(super) const SLICES: [Row; 9] = [
    Row {
        name: "a slice is not longer than a static pool has room for",
        start: "hub sliced 2 1 2 2 2 1 - 1 1 -> done\n",
        lines: "\
client discard 32 static - -> created 0
loan 0 33 -> error ExceedsMaxLoanSize
loan 0 32 -> loaned 1
head 1 -> request-header 0 0 32 0
",
    },
    Row {
        name: "slices of no element and of 13",
        start: "hub sliced 2 1 2 2 2 1 - 1 1 -> done\n",
        lines: "\
client discard 32 static - -> created 0
server discard 1 static - 1 -> created 1
loan 0 0 -> loaned 2
init 2 -> done
send 2 -> pending 2 1
head 2 -> request-header 0 0 0 0
recv 1 -> active 3 2
data 3 -> data
loan 0 13 -> loaned 4
push 4 123 -> true
push 4 124 -> true
push 4 125 -> true
push 4 126 -> true
push 4 127 -> true
push 4 128 -> true
push 4 129 -> true
push 4 130 -> true
push 4 131 -> true
push 4 132 -> true
push 4 133 -> true
push 4 134 -> true
push 4 135 -> true
push 4 136 -> false
init 4 -> done
send 4 -> pending 4 1
recv 1 -> active 5 4
data 5 -> data 123 124 125 126 127 128 129 130 131 132 133 134 135
",
    },
    Row {
        name: "a client's longer slice grows its slot",
        start: "hub sliced 2 1 2 2 2 1 - 1 1 -> done\n",
        lines: "\
client discard 1 pow2 - -> created 0
server discard 1 static - 1 -> created 1
loan 0 40 -> loaned 2
head 2 -> request-header 0 0 40 0
",
    },
    Row {
        name: "a server's longer slice grows its slot",
        start: "hub sliced 2 1 2 2 2 1 - 1 1 -> done\n",
        lines: "\
client discard 1 static - -> created 0
server discard 1 best - 1 -> created 1
copy 0 1 -> pending 2 1
recv 1 -> active 3 2
loan 3 40 -> loaned 4
head 4 -> response-header 1 0 40 0
",
    },
    Row {
        name: "a pool without room for an element",
        start: "hub sliced 2 1 2 2 2 1 - 1 1 -> done\n",
        lines: "\
client discard 0 static - -> created 0
copy 0 5 -> error SendError LoanError ExceedsMaxLoanSize
loan 0 0 -> loaned 1
maxlen 0 -> count 0
",
    },
    Row {
        name: "a length that no memory holds is refused, and nothing has changed",
        start: "hub sliced 2 1 2 2 2 1 - 1 1 -> done\n",
        lines: "\
client discard 1 pow2 - -> created 0
server discard 1 static - 1 -> created 1
loan 0 18446744073709551615 -> error OutOfMemory
loan 0 1 -> loaned 2
head 2 -> request-header 0 0 1 0
",
    },
    Row {
        name: "the greatest length is too long for a static pool",
        start: "hub sliced 2 1 2 2 2 1 - 1 1 -> done\n",
        lines: "\
client discard 32 static - -> created 0
loan 0 18446744073709551615 -> error ExceedsMaxLoanSize
loan 0 1 -> loaned 1
",
    },
    Row {
        name: "a response of several elements, read while it is written and after it came",
        start: "hub sliced 2 1 2 2 2 1 - 1 1 -> done\n",
        lines: "\
client retry 2 static - -> created 0
server retry 3 static - 1 -> created 1
copy 0 7 -> pending 2 1
recv 1 -> active 3 2
data 3 -> data 7
loan 3 3 -> loaned 4
push 4 10 -> true
push 4 11 -> true
data 4 -> data 10 11
init 4 -> refused Incomplete
push 4 12 -> true
init 4 -> done
send 4 -> sent 4
recv 2 -> response 4
data 4 -> data 10 11 12
head 4 -> response-header 1 0 3 0
",
    },
    Row {
        name: "a released slice leaves its slot empty for the next one",
        start: "hub sliced 2 1 2 2 2 1 - 1 1 -> done\n",
        lines: "\
client discard 4 static 1 -> created 0
loan 0 3 -> loaned 1
push 1 5 -> true
push 1 6 -> true
drop 1 -> done
loan 0 2 -> loaned 2
data 2 -> data
head 2 -> request-header 0 1 2 0
",
    },
];

#[test]
fn slices_are_loaned_written_and_sent(rt: HostRuntime) {
    assert_eq!(rt; failing(rt.alloc(), &SLICES), Ok(None));
}
