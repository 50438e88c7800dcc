//! Scripts of pools whose sizes were overridden.
use super::scripts::{CLIENT, HUB, Row, failing};

/// Overrides of the sizes of pools.
pub(super) const POOLS: [Row; 8] = [
    Row {
        name: "an override of 0 makes a pool of 1",
        start: "hub typed 2 1 5 1 2 1 - 1 1 -> done\n",
        lines: "\
client discard 1 static 0 -> created 0
copy 0 9 -> pending 1 0
loan 0 1 -> error OutOfMemory
",
    },
    Row {
        name: "an override below the worst case makes the pool",
        start: "hub typed 2 1 5 1 2 1 - 1 1 -> done\n",
        lines: "\
client discard 1 static 5 -> created 0
copy 0 9 -> pending 1 0
loan 0 1 -> loaned 2
loan 0 1 -> loaned 3
loan 0 1 -> loaned 4
loan 0 1 -> loaned 5
loan 0 1 -> error OutOfMemory
",
    },
    Row {
        name: "an override above the worst case makes a pool of the worst case",
        start: "hub typed 2 1 5 1 2 1 - 1 1 -> done\n",
        lines: "\
client discard 1 static 9 -> created 0
copy 0 9 -> pending 1 0
loan 0 1 -> loaned 2
loan 0 1 -> loaned 3
loan 0 1 -> loaned 4
loan 0 1 -> loaned 5
loan 0 1 -> loaned 6
loan 0 1 -> error ExceedsMaxLoans
",
    },
    Row {
        name: "an override is of one client alone",
        start: HUB,
        lines: "\
client discard 1 static - -> created 0
client discard 1 static 1 -> created 1
loan 0 1 -> loaned 2
loan 0 1 -> loaned 3
loan 0 1 -> error ExceedsMaxLoans
loan 1 1 -> loaned 4
loan 1 1 -> error OutOfMemory
drop 4 -> done
loan 1 1 -> loaned 5
",
    },
    Row {
        name: "a slot of a server is free once its response was released",
        start: CLIENT,
        lines: "\
server discard 1 static 1 1 -> created 1
copy 0 1 -> pending 2 1
copy 0 2 -> pending 3 1
recv 1 -> active 4 2
recv 1 -> active 5 3
copy 4 9 -> sent 6
loan 5 1 -> error OutOfMemory
recv 2 -> response 6
loan 5 1 -> error OutOfMemory
drop 6 -> done
loan 5 1 -> loaned 7
",
    },
    Row {
        name: "a slot of a server is free once its response's request was released",
        start: CLIENT,
        lines: "\
server discard 1 static 1 1 -> created 1
copy 0 1 -> pending 2 1
recv 1 -> active 3 2
copy 3 9 -> sent 4
loan 3 1 -> error OutOfMemory
drop 2 -> done
loan 3 1 -> loaned 5
",
    },
    Row {
        name: "one slot less than the worst case can be too few",
        start: "hub typed 1 1 1 1 1 1 - 0 0 -> done\n",
        lines: "\
client discard 1 static 3 -> created 0
server discard 1 static - 1 -> created 1
copy 0 1 -> pending 2 1
recv 1 -> active 3 2
drop 2 -> done
copy 0 2 -> pending 4 1
drop 4 -> done
copy 0 3 -> pending 5 0
loan 0 1 -> error OutOfMemory
",
    },
    Row {
        name: "the worst case is enough there",
        start: "hub typed 1 1 1 1 1 1 - 0 0 -> done\n",
        lines: "\
client discard 1 static 4 -> created 0
server discard 1 static - 1 -> created 1
copy 0 1 -> pending 2 1
recv 1 -> active 3 2
drop 2 -> done
copy 0 2 -> pending 4 1
drop 4 -> done
copy 0 3 -> pending 5 0
loan 0 1 -> loaned 6
",
    },
];

#[test]
fn an_override_makes_the_pool(rt: HostRuntime) {
    assert_eq!(rt; failing(rt.alloc(), &POOLS), Ok(None));
}
