//! Locked hubs and books: the examples in their documents, their records of two seats' calls, and workers in two
//! threads.
ghost use Rattle.std.specs.Prelude.{◌≡◌};

use super::rows::{NODE, ONE_CLIENT, TWO_CLIENTS, Who, in_its_place};
use rr_locked::{
    Bell, Bells, Book, CREATE_CLIENT, CREATE_SERVER, LockedHub, MOST_SEATS, PARTS, Plan, Receipt,
    Seat, Submit, WorkerError, answer_all, ask_all, send_copy, take_response,
};
use rr_protocol::{HubCreateError, Limits, Reply, UniqueNodeId};
use std::alloc::Global;
use std::marker::Brand;
use std::process::Abort;
use std::sync::Wait;
use std::sync::ledger::{Blank, Ledger};
use std::test::Fail;
use std::thread;
use std::thread::Threads;

/// 1,000 rounds, in which each of two threads waits until the other one has done its part.
const PATIENT: Plan = Plan {
    rounds: 1000,
    turns: 1_000_000_000,
};

/// A round in which nobody comes.
const IN_VAIN: Plan = Plan {
    rounds: 1,
    turns: 1000,
};

/// Rings a bell. Returns whether a wait at it ends.
fn is_heard(bell: &Bell) -> bool {
    let rings = bell.rings();
    bell.ring();
    bell.wait(rings, 1).is_some()
}

/// Creates a client. Returns its number, or `None` if it was refused.
fn client<L: Ledger, S: Submit<L>, R: Wait>(rt: &R, hub: &S, seat: &mut Seat<L>) -> Option<u64> {
    match hub.submit(rt, seat, CREATE_CLIENT) {
        Reply::Created(number) => Some(number),
        _ => None,
    }
}

/// Returns the place of a seat's last call in the history.
fn last_place<L: Ledger>(seat: &Seat<L>) -> Option<u64> {
    match seat.receipts().last() {
        Some(Receipt { place, .. }) => Some(*place),
        None => None,
    }
}

/// Sends a number, and returns the number that came as a response.
fn ask<L: Ledger, S: Submit<L>, R: Wait>(
    rt: &R,
    hub: &S,
    seat: &mut Seat<L>,
    bells: &Bells,
    client: u64,
) -> Result<u64, WorkerError> {
    let pending = send_copy(rt, hub, seat, client, 41)?;
    bells.server.ring();
    take_response(rt, hub, seat, &bells.client, pending, 1000)
}

/// Sends the numbers from 0 to 9, each after the response to the one before. Returns the sum of the responses.
fn ask_ten<L: Ledger, S: Submit<L>, R: Wait>(
    rt: &R,
    hub: &S,
    seat: &mut Seat<L>,
    client: u64,
) -> Result<u64, WorkerError> {
    let plan = Plan {
        rounds: 10,
        turns: 1000,
    };
    ask_all(rt, hub, seat, &Bells::new(), client, plan)
}

/// Makes a hub, creates a client, and ends the sharing. Returns how many calls the history has.
fn told<L: Ledger, R: Wait>(rt: &R, alloc: Global, blank: Blank) -> Result<usize, Fail>
    requires name { blank.name ≡ L.name }
    requires parts { blank.parts ≡ L.parts }
    requires many { blank.parts ≡ 1048578 }
{
    let hub = LockedHub::<L>::new(alloc, Limits::SMALLEST, UniqueNodeId(0), blank)?;
    let mut seat = hub.seat(rt).ok_or("no seat")?;
    let _ = hub.submit(rt, &mut seat, CREATE_CLIENT);
    let book = hub.finish(Vec::from_array(alloc, [seat])?);
    Ok(book.history().len())
}

/// Makes a book with a client. Returns the number of calls in its history.
fn noted<L: Ledger>(alloc: Global, blank: Blank) -> Result<usize, Fail>
    requires name { blank.name ≡ L.name }
    requires parts { blank.parts ≡ L.parts }
    requires many { blank.parts ≡ 1048578 }
{
    let mut book = Book::<L>::new(alloc, Limits::SMALLEST, UniqueNodeId(0), blank)?;
    let mut seat = book.seat().ok_or("no seat")?;
    let _ = book.apply(&mut seat, CREATE_CLIENT);
    Ok(book.history().len())
}

/// Makes a book, and then seats for as long as it does. Returns how many it made.
fn seated<L: Ledger>(alloc: Global, blank: Blank, limits: Limits) -> Result<u64, HubCreateError>
    requires name { blank.name ≡ L.name }
    requires parts { blank.parts ≡ L.parts }
    requires many { blank.parts ≡ 1048578 }
{
    let mut book = Book::<L>::new(alloc, limits, NODE, blank)?;
    for _ in 0..=MOST_SEATS {
        if book.seat().is_none() {
            break;
        }
    }
    Ok(book.seats_made())
}

#[test]
fn books_note_calls(rt: HostRuntime) -> Result<(), Fail> {
    assert!(rt; is_heard(&Bell::new()));
    let calls = told::<Brand, _>(&rt, rt.alloc(), Blank::new(PARTS))?;
    assert!(rt; calls == 1);
    let calls = noted::<Brand>(rt.alloc(), Blank::new(PARTS))?;
    assert!(rt; calls == 1);
    Ok(())
}

#[test]
fn a_book_makes_so_many_seats(rt: HostRuntime) {
    let none = Limits {
        max_clients: 0,
        ..ONE_CLIENT
    };
    let made = seated::<Brand>(rt.alloc(), Blank::new(PARTS), ONE_CLIENT);
    assert!(rt; made == Ok(1_048_576));
    let refused = seated::<Brand>(rt.alloc(), Blank::new(PARTS), none);
    assert!(rt; refused == Err(HubCreateError::ZeroLimit));
}

/// Has two seats submit commands in turn. Returns whether all replies are as they have to be.
fn replies<L: Ledger, R: Wait>(
    rt: &R,
    hub: &LockedHub<L>,
    one: &mut Seat<L>,
    other: &mut Seat<L>,
) -> bool {
    for (who, command, reply) in in_its_place() {
        let seat = match who {
            Who::One => &mut *one,
            Who::Other => &mut *other,
        };
        if hub.submit(rt, seat, command) != reply {
            return false;
        }
    }
    true
}

/// Returns whether a seat has a receipt of each of its calls, with its place among all calls, and no other.
fn has_receipts<L: Ledger>(seat: &Seat<L>, who: Who) -> bool {
    let mut receipts = seat.receipts().iter();
    for (place, (by, command, reply)) in in_its_place().iter().enumerate() {
        if *by == who {
            match receipts.next() {
                Some(receipt)
                    if receipt.place == place as u64
                        && receipt.command == *command
                        && receipt.reply == *reply => {}
                _ => return false,
            }
        }
    }
    receipts.next().is_none()
}

/// Has two seats submit commands, and ends the sharing.
fn keep_all<L: Ledger, R: Abort + Wait>(rt: &R, alloc: Global, blank: Blank)
    requires name { blank.name ≡ L.name }
    requires parts { blank.parts ≡ L.parts }
    requires many { blank.parts ≡ 1048578 }
{
    let hub = LockedHub::<L>::new(alloc, ONE_CLIENT, NODE, blank).expect(rt, "a hub");
    assert!(rt; hub.limits() == ONE_CLIENT && hub.node_id() == NODE);
    let mut one = hub.seat(rt).expect(rt, "a seat");
    let mut other = hub.seat(rt).expect(rt, "a seat");
    assert!(rt; replies(rt, &hub, &mut one, &mut other));
    assert!(rt; has_receipts(&one, Who::One) && has_receipts(&other, Who::Other));
    let seats = Vec::from_array(alloc, [one, other]).expect(rt, "memory");
    assert!(rt; is_whole(&hub.finish(seats)));
}

/// Returns whether a book has all calls of two seats, and is of a hub of this test.
fn is_whole<L: Ledger>(book: &Book<L>) -> bool {
    book.history().len() == in_its_place().len()
        && book.seats_made() == 2
        && book.limits() == ONE_CLIENT
        && book.node_id() == NODE
}

#[test]
fn seats_and_book_keep_what_two_seats_call(rt: HostRuntime) {
    keep_all::<Brand, _>(&rt, rt.alloc(), Blank::new(PARTS));
}

/// Works for a client 0 or for a server 1. Returns the sum of the answers, which is 0 for a server.
fn ended<L: Ledger, R: Wait>(
    rt: &R,
    hub: &LockedHub<L>,
    bells: &Bells,
    seat: Seat<L>,
    port: u64,
) -> Result<u64, WorkerError> {
    let mut own = seat;
    if port == 0 {
        return ask_all(rt, hub, &mut own, bells, port, PATIENT);
    }
    answer_all(rt, hub, &mut own, bells, port, PATIENT)?;
    Ok(0)
}

/// Lets a client's and a server's worker work, each in its own thread. Returns how they ended.
fn work<L: Ledger + Send + Sync, R: Threads + Wait + Sync>(
    rt: &R,
    hub: &LockedHub<L>,
    asking: Seat<L>,
    answering: Seat<L>,
) -> (Result<u64, WorkerError>, Result<u64, WorkerError>) {
    let bells = Bells::new();
    let rung = &bells;
    thread::join(
        rt,
        move || ended(rt, hub, rung, asking, 0),
        move || ended(rt, hub, rung, answering, 1),
    )
}

/// Creates a client 0 and a server 1, lets their workers work, and then each worker alone. Returns how the two ended,
/// and whether all others give up.
fn worked<L: Ledger + Send + Sync, R: Abort + Threads + Wait + Sync>(
    rt: &R,
    alloc: Global,
    blank: Blank,
) -> ([Result<u64, WorkerError>; 2], bool)
    requires name { blank.name ≡ L.name }
    requires parts { blank.parts ≡ L.parts }
    requires many { blank.parts ≡ 1048578 }
{
    let hub = LockedHub::<L>::new(alloc, TWO_CLIENTS, NODE, blank).expect(rt, "a hub");
    let mut seat = hub.seat(rt).expect(rt, "a seat");
    let _ = hub.submit(rt, &mut seat, CREATE_CLIENT);
    let _ = hub.submit(rt, &mut seat, CREATE_SERVER);
    assert!(rt; last_place(&seat) == Some(1));
    let asking = hub.seat(rt).expect(rt, "a seat");
    let answering = hub.seat(rt).expect(rt, "a seat");
    let (sum, end) = work(rt, &hub, asking, answering);
    ([sum, end], is_left_alone(rt, &hub, &mut seat))
}

/// Returns whether a later client has the number after three in each round, and workers give up at a hub where nobody
/// asks or answers.
fn is_left_alone<L: Ledger, R: Wait>(rt: &R, hub: &LockedHub<L>, seat: &mut Seat<L>) -> bool {
    let bells = Bells::new();
    client(rt, hub, seat) == Some(3_002)
        && answer_all(rt, hub, seat, &bells, 1, IN_VAIN) == Err(WorkerError::GaveUp)
        && ask(rt, hub, seat, &bells, 0) == Err(WorkerError::GaveUp)
        && ask_ten(rt, hub, seat, 0) == Err(WorkerError::GaveUp)
}

#[test]
fn two_workers_sum_the_answers_and_each_gives_up_alone(rt: HostRuntime) {
    let ended = worked::<Brand, _>(&rt, rt.alloc(), Blank::new(PARTS));
    assert!(rt; ended == ([Ok(500_500), Ok(0)], true));
}
