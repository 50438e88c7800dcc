//! Copies of elements and of replies.
use crate::commands::Answer;
use crate::stage::Stage;
use rr_protocol::{Elements, Reply};
use std::alloc::Global;
use std::io::{self, Write};

/// The names of the stories.
const NAMES: [&str; 2] = ["copied-of-one", "copied-of-three"];

/// Returns the elements that the story of this name copies, if there was memory for them.
fn elements(alloc: Global, name: &str) -> Option<Elements<u64>> {
    if name == "copied-of-one" {
        return Some(Elements::from([7]));
    }
    match Vec::from_array(alloc, [7, 8, 9]) {
        Ok(items) => Some(Elements::from(items)),
        Err(_) => None,
    }
}

/// Copies elements, and copies them again if there was no memory.
fn copy<W: Write>(alloc: Global, stage: &mut Stage<W>, elements: &Elements<u64>) -> io::Result<()> {
    for _ in 0..2 {
        match elements.copied(alloc) {
            Ok(copy) => return stage.show(copy),
            Err(_) => stage.show("AllocError")?,
        }
    }
    Ok(())
}

/// Copies a reply, and copies it again if there was no memory.
fn copy_reply<W: Write>(alloc: Global, stage: &mut Stage<W>, reply: &Answer) -> io::Result<()> {
    for _ in 0..2 {
        match reply.copied(alloc) {
            Ok(copy) => return stage.show(copy),
            Err(_) => stage.show("AllocError")?,
        }
    }
    Ok(())
}

/// Runs the stories of copies. Returns whether there was memory for the originals.
pub(crate) fn tell<W: Write>(alloc: Global, stage: &mut Stage<W>) -> io::Result<bool> {
    for name in NAMES {
        if stage.has("elements", name) {
            let Some(elements) = elements(alloc, name) else {
                return Ok(false);
            };
            stage.call("elements", name)?;
            copy(alloc, stage, &elements)?;
        }
        if stage.has("reply", name) {
            let Some(elements) = elements(alloc, name) else {
                return Ok(false);
            };
            stage.call("reply", name)?;
            copy_reply(alloc, stage, &Reply::Payload(elements))?;
        }
    }
    Ok(true)
}
