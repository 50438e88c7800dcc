//! Scripts of round-robin receives.
use super::scripts::{Row, failing};

/// Receives of a server from several clients, and of a client from several servers.
pub(super) const TURNS: [Row; 5] = [
    Row {
        name: "a server hears each client once in as many turns",
        start: "hub typed 3 1 1 2 1 1 f 1 1 -> done\n",
        lines: "\
client discard 1 static - -> created 0
client discard 1 static - -> created 1
client discard 1 static - -> created 2
server discard 1 static - 1 -> created 3
copy 0 10 -> pending 4 1
copy 0 11 -> pending 5 1
copy 1 20 -> pending 6 1
copy 2 30 -> pending 7 1
recv 3 -> active 8 4
recv 3 -> active 9 6
recv 3 -> active 10 7
recv 3 -> active 11 5
recv 3 -> none
",
    },
    Row {
        name: "a client whose first request died is heard in its turn",
        start: "hub typed 3 1 1 2 1 1 - 1 1 -> done\n",
        lines: "\
client discard 1 static - -> created 0
client discard 1 static - -> created 1
client discard 1 static - -> created 2
server discard 1 static - 1 -> created 3
copy 0 10 -> pending 4 1
copy 0 11 -> pending 5 1
copy 1 20 -> pending 6 1
copy 1 21 -> pending 7 1
copy 2 30 -> pending 8 1
recv 3 -> active 9 4
drop 6 -> done
recv 3 -> active 10 7
recv 3 -> active 11 8
recv 3 -> active 12 5
recv 3 -> none
",
    },
    Row {
        name: "a client that left is heard in its turn",
        start: "hub typed 2 1 1 2 1 1 f 1 1 -> done\n",
        lines: "\
client discard 1 static - -> created 0
client discard 1 static - -> created 1
server discard 1 static - 1 -> created 2
copy 0 10 -> pending 3 1
copy 0 11 -> pending 4 1
copy 1 20 -> pending 5 1
copy 1 21 -> pending 6 1
drop 5 -> done
drop 6 -> done
drop 1 -> done
recv 2 -> active 7 3
recv 2 -> active 8 5
recv 2 -> active 9 4
recv 2 -> active 10 6
recv 2 -> none
",
    },
    Row {
        name: "a pending response hears each server once in as many turns",
        start: "hub typed 1 2 1 1 2 2 - 1 1 -> done\n",
        lines: "\
client discard 1 static - -> created 0
server discard 1 static - 1 -> created 1
server discard 1 static - 1 -> created 2
copy 0 1 -> pending 3 2
recv 1 -> active 4 3
recv 2 -> active 5 3
copy 4 10 -> sent 6
copy 4 11 -> sent 7
copy 5 20 -> sent 8
copy 5 21 -> sent 9
recv 3 -> response 6
recv 3 -> response 8
recv 3 -> response 7
recv 3 -> response 9
recv 3 -> none
",
    },
    Row {
        name: "each pending response goes round on its own",
        start: "hub typed 1 2 1 2 2 2 - 1 1 -> done\n",
        lines: "\
client discard 1 static - -> created 0
server discard 1 static - 1 -> created 1
server discard 1 static - 1 -> created 2
copy 0 1 -> pending 3 2
copy 0 2 -> pending 4 2
recv 1 -> active 5 3
recv 1 -> active 6 4
recv 2 -> active 7 3
recv 2 -> active 8 4
copy 5 10 -> sent 9
copy 5 11 -> sent 10
copy 7 20 -> sent 11
copy 6 30 -> sent 12
copy 6 31 -> sent 13
copy 8 40 -> sent 14
recv 3 -> response 9
recv 4 -> response 12
recv 3 -> response 11
recv 4 -> response 14
recv 3 -> response 10
recv 4 -> response 13
",
    },
];

#[test]
fn receives_go_round(rt: HostRuntime) {
    assert_eq!(rt; failing(rt.alloc(), &TURNS), Ok(None));
}
