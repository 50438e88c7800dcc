//! The ports and handles of one exchange, released in every order.
use super::scripts::{PORTS, Story, served, told};
use std::alloc::{AllocError, Global};

/// The commands after the creation of a client 0 and a server 1: they make a pending response 2, an active request 3,
/// a response 4 that was received, and a response 5 on loan.
const HANDLES: &str = "\
copy 0 1 -> pending 2 1
recv 1 -> active 3 2
copy 3 10 -> sent 4
recv 2 -> response 4
loan 3 1 -> loaned 5
";

/// The commands after the last release, which show that nothing is left, and every place is free.
const AFTERWARDS: &str = "\
drop 0 -> refused Unknown
drop 1 -> refused Unknown
drop 2 -> refused Unknown
drop 3 -> refused Unknown
drop 4 -> refused Unknown
drop 5 -> refused Unknown
client discard 1 static - -> created 6
client discard 1 static - -> created 7
server discard 1 static - 1 -> created 8
client discard 1 static - -> error ExceedsMaxSupportedClients
server discard 1 static - 1 -> error ExceedsMaxSupportedServers
copy 7 3 -> pending 9 1
recv 8 -> active 10 9
";

/// How many orders six numbers have.
const ORDERS: usize = 720;

/// Returns one of the orders of the numbers from 0 to 5, another for each index below their count.
fn order(index: usize) -> [u64; 6] {
    let mut numbers = [0, 1, 2, 3, 4, 5];
    let mut rest = index;
    for place in 0..6 {
        let left = 6 - place;
        numbers.swap(place, place + rest % left);
        rest /= left;
    }
    numbers
}

/// Adds a line and its reply to a story.
fn add(
    alloc: Global,
    story: &mut Story,
    command: &str,
    number: u64,
    reply: &str,
) -> Result<(), AllocError> {
    story
        .input
        .push_str(format!(in alloc; "{command} {number}\n")?.as_str())?;
    story
        .wanted
        .push_str(format!(in alloc; "{reply}\n")?.as_str())
}

/// Adds a question whether one of the handles 2 and 3 is connected, which it is while the other lives.
fn ask(
    alloc: Global,
    story: &mut Story,
    living: &[u64],
    number: u64,
    other: u64,
) -> Result<(), AllocError> {
    let reply = if !living.contains(&number) {
        "refused Unknown"
    } else if living.contains(&other) {
        "true"
    } else {
        "false"
    };
    add(alloc, story, "conn", number, reply)
}

/// Returns whether every release in this order is done, 2 and 3 are connected while both live, and nothing is left.
fn is_released(alloc: Global, order: &[u64]) -> Result<bool, AllocError> {
    let mut story = told(alloc, PORTS, HANDLES)?;
    let mut living = order;
    for number in order {
        living = living.get(1..).unwrap_or(&[]);
        add(alloc, &mut story, "drop", *number, "done")?;
        ask(alloc, &mut story, living, 2, 3)?;
        ask(alloc, &mut story, living, 3, 2)?;
    }
    let end = told(alloc, "", AFTERWARDS)?;
    story.input.push_str(end.input.as_str())?;
    story.wanted.push_str(end.wanted.as_str())?;
    let ended = served(alloc, "script", story.input.as_bytes())?;
    Ok(ended.status == 0 && ended.output.as_slice() == story.wanted.as_bytes())
}

/// Returns the index of an order in which something is not released as it should be.
fn failing_order(alloc: Global) -> Result<Option<usize>, AllocError> {
    for index in 0..ORDERS {
        if !is_released(alloc, order(index).as_slice())? {
            return Ok(Some(index));
        }
    }
    Ok(None)
}

#[test]
fn six_handles_are_released_in_every_order(rt: HostRuntime) {
    assert_eq!(rt; failing_order(rt.alloc()), Ok(None));
}

#[test]
fn the_orders_begin_and_end_apart(rt: HostRuntime) {
    assert_eq!(rt; order(0), [0, 1, 2, 3, 4, 5]);
    assert_eq!(rt; order(719), [5, 0, 1, 2, 3, 4]);
}
