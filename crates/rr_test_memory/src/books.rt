//! Calls of a book, and of a book that threads share.
ghost use Rattle.std.specs.Prelude.{◌≡◌};

use crate::commands::{Asked, CLIENT, SERVER, is_want};
use crate::stage::{LIMITS, Stage};
use rr_locked::{Book, LockedHub, PARTS, Seat, Submit};
use rr_protocol::{Command, UniqueNodeId};
use std::alloc::Global;
use std::io::{self, Write};
use std::marker::Brand;
use std::sync::Wait;
use std::sync::ledger::{Blank, Ledger};

/// The four entries before a call that finds no room in the history or the seat.
const FOUR: [Asked; 4] = [
    CLIENT,
    SERVER,
    Command::SendCopy(0, 123),
    Command::Receive(1),
];

/// A call, after the first `before` of these entries.
#[derive(Clone, Copy)]
struct Story {
    name: &'static str,
    before: usize,
    command: Asked,
}

const STORIES: [Story; 4] = [
    Story {
        name: "first-CreateClient",
        before: 0,
        command: CLIENT,
    },
    Story {
        name: "first-Release",
        before: 0,
        command: Command::Release(9),
    },
    Story {
        name: "fifth-Payload",
        before: 4,
        command: Command::Payload(3),
    },
    Story {
        name: "fifth-SendCopy",
        before: 4,
        command: Command::SendCopy(3, 456),
    },
];

/// Applies a command by a seat, and shows the reply and how many entries and receipts there are.
fn apply<L: Ledger, W: Write>(
    stage: &mut Stage<W>,
    book: &mut Book<L>,
    seat: &mut Seat<L>,
    command: Asked,
) -> io::Result<bool> {
    let reply = book.apply(seat, command);
    stage.show(&reply)?;
    stage.show((book.history().len(), seat.receipts().len()))?;
    Ok(is_want(&reply))
}

/// Runs the story of a book's call. Returns whether there was memory for everything before it.
fn tell_book<L: Ledger, W: Write>(
    alloc: Global,
    stage: &mut Stage<W>,
    blank: Blank,
    story: Story,
) -> io::Result<bool>
    requires name { blank.name ≡ L.name }
    requires parts { blank.parts ≡ L.parts }
    requires many { blank.parts ≡ 1048578 }
{
    let Ok(mut book) = Book::<L>::new(alloc, LIMITS, UniqueNodeId(7), blank) else {
        return Ok(false);
    };
    let Some(mut seat) = book.seat() else {
        return Ok(false);
    };
    for command in FOUR.iter().take(story.before) {
        if is_want(&book.apply(&mut seat, *command)) {
            return Ok(false);
        }
    }
    stage.call("book", story.name)?;
    if apply(stage, &mut book, &mut seat, story.command)? {
        apply(stage, &mut book, &mut seat, story.command)?;
    }
    Ok(true)
}

/// Runs the story of a submission. Returns whether there was memory for everything before it.
fn tell_hub<L: Ledger, R: Wait, W: Write>(
    rt: &R,
    alloc: Global,
    stage: &mut Stage<W>,
    blank: Blank,
    story: Story,
) -> io::Result<bool>
    requires name { blank.name ≡ L.name }
    requires parts { blank.parts ≡ L.parts }
    requires many { blank.parts ≡ 1048578 }
{
    let Ok(mut seats) = Vec::with_capacity(alloc, 1) else {
        return Ok(false);
    };
    let Ok(hub) = LockedHub::<L>::new(alloc, LIMITS, UniqueNodeId(7), blank) else {
        return Ok(false);
    };
    let Some(mut seat) = hub.seat(rt) else {
        return Ok(false);
    };
    for command in FOUR.iter().take(story.before) {
        if is_want(&hub.submit(rt, &mut seat, *command)) {
            return Ok(false);
        }
    }
    stage.call("hub", story.name)?;
    let reply = hub.submit(rt, &mut seat, story.command);
    stage.show(&reply)?;
    if is_want(&reply) {
        stage.show(hub.submit(rt, &mut seat, story.command))?;
    }
    let receipts = seat.receipts().len();
    seats.push_reserved(seat);
    let book = hub.finish(seats);
    stage.show((book.history().len(), receipts))?;
    Ok(true)
}

/// Makes a book, which takes no memory.
fn new_book<L: Ledger, W: Write>(
    alloc: Global,
    stage: &mut Stage<W>,
    blank: Blank,
) -> io::Result<()>
    requires name { blank.name ≡ L.name }
    requires parts { blank.parts ≡ L.parts }
    requires many { blank.parts ≡ 1048578 }
{
    stage.call("book", "new")?;
    match Book::<L>::new(alloc, LIMITS, UniqueNodeId(7), blank) {
        Ok(book) => stage.show(book.node_id()),
        Err(error) => stage.show(error),
    }
}

/// Makes a hub that threads share, which takes no memory.
fn new_hub<L: Ledger, W: Write>(alloc: Global, stage: &mut Stage<W>, blank: Blank) -> io::Result<()>
    requires name { blank.name ≡ L.name }
    requires parts { blank.parts ≡ L.parts }
    requires many { blank.parts ≡ 1048578 }
{
    stage.call("hub", "new")?;
    match LockedHub::<L>::new(alloc, LIMITS, UniqueNodeId(7), blank) {
        Ok(hub) => stage.show(hub.node_id()),
        Err(error) => stage.show(error),
    }
}

/// Runs the stories of books and of those that threads share. Returns whether there was memory for everything before
/// the calls.
pub(crate) fn tell<R: Wait, W: Write>(
    rt: &R,
    alloc: Global,
    stage: &mut Stage<W>,
) -> io::Result<bool> {
    if stage.has("book", "new") {
        new_book::<Brand, W>(alloc, stage, Blank::new(PARTS))?;
    }
    if stage.has("hub", "new") {
        new_hub::<Brand, W>(alloc, stage, Blank::new(PARTS))?;
    }
    for story in STORIES {
        if stage.has("book", story.name)
            && !tell_book::<Brand, W>(alloc, stage, Blank::new(PARTS), story)?
        {
            return Ok(false);
        }
        if stage.has("hub", story.name)
            && !tell_hub::<Brand, R, W>(rt, alloc, stage, Blank::new(PARTS), story)?
        {
            return Ok(false);
        }
    }
    Ok(true)
}
