//! The least pool of a client, as the program prints it.
use super::scripts::served;
use std::alloc::{AllocError, Global};

/// A pool of a hub: the words after the program's name, the input, and how the program ends.
#[derive(Clone, Copy)]
pub(super) struct PoolRow {
    pub(super) words: &'static str,
    pub(super) input: &'static str,
    pub(super) status: u8,
    pub(super) output: &'static str,
    pub(super) fault: &'static str,
}

const SMALL: &str = "hub typed 1 1 1 1 1 1 - 0 0";

const TWO_SERVERS: &str = "hub typed 1 2 1 1 1 1 - 0 0";

const USAGE: &str = "usage: rr script or rr threads K or rr least N\n";

/// Pools below the worst case, of it and above.
pub(super) const POOLS: [PoolRow; 7] = [
    PoolRow {
        words: "least 0",
        input: SMALL,
        status: 0,
        output: "\
created 0
created 1
pending 2 1
active 3 2
done
error SendError LoanError OutOfMemory
",
        fault: "",
    },
    PoolRow {
        words: "least 3",
        input: SMALL,
        status: 0,
        output: "\
created 0
created 1
pending 2 1
active 3 2
done
pending 4 1
done
pending 5 0
error OutOfMemory
",
        fault: "",
    },
    PoolRow {
        words: "least 4",
        input: SMALL,
        status: 0,
        output: "\
created 0
created 1
pending 2 1
active 3 2
done
pending 4 1
done
pending 5 0
loaned 6
",
        fault: "",
    },
    PoolRow {
        words: "least 6",
        input: TWO_SERVERS,
        status: 0,
        output: "\
created 0
created 1
pending 2 1
active 3 2
done
pending 4 1
done
created 5
pending 6 1
active 7 6
done
pending 8 1
done
pending 9 0
loaned 10
",
        fault: "",
    },
    PoolRow {
        words: "least 5",
        input: TWO_SERVERS,
        status: 0,
        output: "\
created 0
created 1
pending 2 1
active 3 2
done
pending 4 1
done
created 5
pending 6 1
active 7 6
done
pending 8 1
done
pending 9 0
error OutOfMemory
",
        fault: "",
    },
    PoolRow {
        words: "least 3",
        input: "hub typed 1 1 1 1 1 1 f 0 0",
        status: 0,
        output: "\
created 0
created 1
pending 2 1
active 3 2
done
pending 4 1
done
pending 5 0
error OutOfMemory
",
        fault: "",
    },
    PoolRow {
        words: "least 4",
        input: "hub typed 1 1 1 1 1 1 q 0 0",
        status: 4,
        output: "error WrongLimits\n",
        fault: "refused\n",
    },
];

/// Invalid arguments and inputs, a hub that isn't made, and lines that are not read.
pub(super) const EDGES: [PoolRow; 9] = [
    PoolRow {
        words: "least",
        input: SMALL,
        status: 3,
        output: "",
        fault: USAGE,
    },
    PoolRow {
        words: "least +1",
        input: "",
        status: 3,
        output: "",
        fault: USAGE,
    },
    PoolRow {
        words: "least 18446744073709551616",
        input: SMALL,
        status: 3,
        output: "",
        fault: USAGE,
    },
    PoolRow {
        words: "least 1 1",
        input: SMALL,
        status: 3,
        output: "",
        fault: USAGE,
    },
    PoolRow {
        words: "least 1",
        input: "",
        status: 1,
        output: "",
        fault: "bad line 1\n",
    },
    PoolRow {
        words: "least 1",
        input: "\n\n",
        status: 1,
        output: "",
        fault: "bad line 3\n",
    },
    PoolRow {
        words: "least 1",
        input: "\ncopy 0 1\n",
        status: 1,
        output: "",
        fault: "bad line 2\n",
    },
    PoolRow {
        words: "least 1",
        input: "hub sliced 1 1 0 1 1 1 - 0 0\n",
        status: 4,
        output: "error WrongLimits\n",
        fault: "refused\n",
    },
    PoolRow {
        words: "least 0001",
        input: "\nhub sliced 1 1 1 1 1 1 - 0 0\nno line\n",
        status: 0,
        output: "\
created 0
created 1
pending 2 1
active 3 2
done
error SendError LoanError OutOfMemory
",
        fault: "",
    },
];

/// Returns the place of the first row that the program doesn't end so.
fn failing(alloc: Global, rows: &[PoolRow]) -> Result<Option<usize>, AllocError> {
    for place in 0..rows.len() {
        let row = rows[place];
        let ended = served(alloc, row.words, row.input.as_bytes())?;
        let is_as_wanted = ended.status == row.status
            && ended.output.as_slice() == row.output.as_bytes()
            && ended.fault.as_slice() == row.fault.as_bytes();
        if !is_as_wanted {
            return Ok(Some(place));
        }
    }
    Ok(None)
}

#[test]
fn a_pool_is_enough_from_the_worst_case_on(rt: HostRuntime) {
    assert_eq!(rt; failing(rt.alloc(), POOLS.as_slice()), Ok(None));
}

#[test]
fn what_is_no_pool_is_refused(rt: HostRuntime) {
    assert_eq!(rt; failing(rt.alloc(), EDGES.as_slice()), Ok(None));
}
