//! Each command with a number, asked of a port or handle of each kind, and of a number that was never given.
use super::scripts::{PORTS, served, told};
use std::alloc::{AllocError, Global};

/// A port or handle: the name of its kind in `CALLS`, its number, and the lines that make it.
#[derive(Clone, Copy)]
struct Named {
    kind: &'static str,
    number: &'static str,
    lines: &'static str,
}

/// One of each of the nine kinds.
const NAMED: [Named; 9] = [
    Named {
        kind: "client",
        number: "0",
        lines: "",
    },
    Named {
        kind: "server",
        number: "1",
        lines: "",
    },
    Named {
        kind: "uninit-request",
        number: "2",
        lines: "loan 0 1 -> loaned 2\n",
    },
    Named {
        kind: "request",
        number: "2",
        lines: "loan 0 1 -> loaned 2\npush 2 5 -> true\ninit 2 -> done\n",
    },
    Named {
        kind: "pending",
        number: "2",
        lines: "copy 0 1 -> pending 2 1\n",
    },
    Named {
        kind: "active",
        number: "3",
        lines: "copy 0 1 -> pending 2 1\nrecv 1 -> active 3 2\n",
    },
    Named {
        kind: "uninit-response",
        number: "4",
        lines: "copy 0 1 -> pending 2 1\nrecv 1 -> active 3 2\nloan 3 1 -> loaned 4\n",
    },
    Named {
        kind: "response-mut",
        number: "4",
        lines: "\
copy 0 1 -> pending 2 1
recv 1 -> active 3 2
loan 3 1 -> loaned 4
push 4 5 -> true
init 4 -> done
",
    },
    Named {
        kind: "received",
        number: "4",
        lines: "\
copy 0 1 -> pending 2 1
recv 1 -> active 3 2
copy 3 9 -> sent 4
recv 2 -> response 4
",
    },
];

/// The commands with a number `N`, and the kinds that have their calls.
const CALLS: &str = "\
loan N 1: client active
default N 1: client active
copy N 7: client active
push N 7: uninit-request uninit-response
set N 0 7: uninit-request request uninit-response response-mut
uset N 7: uninit-request request uninit-response response-mut
init N: uninit-request uninit-response
ready N: request response-mut
send N: request response-mut
recv N: server pending
has N: server pending
conn N: pending active
hint N: pending
hinted N: active
count N: pending
head N: uninit-request request pending active uninit-response response-mut received
user N: uninit-request request pending active uninit-response response-mut received
data N: uninit-request request pending active uninit-response response-mut received
origin N: active received
strategy N: client server
maxlen N: client server
update N: client server
drop N: client server uninit-request request pending active uninit-response response-mut received
";

/// A line of `CALLS`: the text before and after the number, and the kinds that have the call.
#[derive(Clone, Copy)]
struct Call<'a> {
    word: &'a str,
    rest: &'a str,
    kinds: &'a str,
}

/// Parses a line of `CALLS`. Returns `None` if it is none.
fn call_of(line: &str) -> Option<Call> {
    let (command, kinds) = line.split_once(": ")?;
    let (word, rest) = command.split_once(" N")?;
    Some(Call { word, rest, kinds })
}

/// Returns whether the reply to a call of a number, after these lines, is this one.
fn is_replied(
    alloc: Global,
    lines: &str,
    call: Call,
    number: &str,
    reply: &str,
) -> Result<bool, AllocError> {
    let mut input = told(alloc, PORTS, lines)?.input;
    input.push_str(format!(in alloc; "{} {number}{}\n", call.word, call.rest)?.as_str())?;
    let ended = served(alloc, "script", input.as_bytes())?;
    Ok(ended.status == 0 && ended.output.as_slice().ends_with(reply.as_bytes()))
}

/// Returns whether a call is refused as of another kind by just the kinds that don't have it.
fn is_of_its_kinds(alloc: Global, call: Call) -> Result<bool, AllocError> {
    for named in NAMED {
        let has_call = call.kinds.split(' ').any(|kind| kind == named.kind);
        let refused = is_replied(
            alloc,
            named.lines,
            call,
            named.number,
            "refused WrongKind\n",
        )?;
        if has_call == refused {
            return Ok(false);
        }
    }
    is_replied(alloc, "", call, "9", "refused Unknown\n")
}

/// Returns the first line of `CALLS` that is none, or whose call other kinds have than it says, or a number that was
/// never given.
fn failing_call(alloc: Global) -> Result<Option<&'static str>, AllocError> {
    for line in CALLS.lines() {
        match call_of(line) {
            Some(call) if is_of_its_kinds(alloc, call)? => {}
            _ => return Ok(Some(line)),
        }
    }
    Ok(None)
}

#[test]
fn each_kind_has_its_calls(rt: HostRuntime) {
    assert_eq!(rt; failing_call(rt.alloc()), Ok(None));
    assert_eq!(rt; CALLS.lines().count(), 23);
}
