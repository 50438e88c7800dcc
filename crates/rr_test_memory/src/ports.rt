//! Ports that are created directly, in both families: the first of a hub, and one in the place of another that left.
#![tactic(auto, using(rr_ports::proofs::Frames::callers), unfolding(rr_ports::specs::Facts::Keeps, rr_ports::specs::Facts::IsFree))]

use crate::stage::{LIMITS, Stage};
use rr_ports::{ClientCreateError, Hub, NoHandler, ServerCreateError, UniqueNodeId};
use rr_slots::{SliceBody, WriteBody};
use std::alloc::Global;
use std::io::{self, Write};

/// A hub of numbers in one family.
type Ports<B> = Hub<B, u64, B, u64, NoHandler>;

/// Which port is created.
#[derive(Clone, Copy)]
enum Side {
    Client,
    Server,
}

/// Why a port was not created.
#[derive(Clone, Copy, Debug)]
enum Refused {
    Client(ClientCreateError),
    Server(ServerCreateError),
}

/// Creates a port, and releases it. Returns its number.
fn create<B: WriteBody<Item = u64>>(hub: &mut Ports<B>, side: Side) -> Result<u64, Refused> {
    match side {
        Side::Client => match hub.client_builder().create(hub) {
            Ok(client) => {
                let number = client.id().0;
                client.release(hub);
                Ok(number)
            }
            Err(error) => Err(Refused::Client(error)),
        },
        Side::Server => match hub.server_builder().create(hub) {
            Ok(server) => {
                let number = server.id().0;
                server.release(hub);
                Ok(number)
            }
            Err(error) => Err(Refused::Server(error)),
        },
    }
}

/// Creates a port, and creates it again if memory was refused; then shows how many numbers are left.
fn play<B: WriteBody<Item = u64>, W: Write>(
    stage: &mut Stage<W>,
    hub: &mut Ports<B>,
    side: Side,
) -> io::Result<()> {
    for _ in 0..2 {
        match create(hub, side) {
            Ok(number) => {
                stage.show(number)?;
                break;
            }
            Err(error) => stage.show(error)?,
        }
    }
    stage.show(hub.numbers_left())
}

/// A creation, after `before` ports of the same kind were created and left.
#[derive(Clone, Copy)]
struct Story {
    name: &'static str,
    side: Side,
    before: usize,
}

const STORIES: [Story; 4] = [
    Story {
        name: "create-client",
        side: Side::Client,
        before: 0,
    },
    Story {
        name: "create-client-again",
        side: Side::Client,
        before: 1,
    },
    Story {
        name: "create-server",
        side: Side::Server,
        before: 0,
    },
    Story {
        name: "create-server-again",
        side: Side::Server,
        before: 1,
    },
];

/// Runs the stories of creations in one family. Returns whether there was memory for everything before them.
fn tell_family<B: WriteBody<Item = u64>, W: Write>(
    alloc: Global,
    stage: &mut Stage<W>,
    group: &str,
) -> io::Result<bool> {
    for story in STORIES {
        if !stage.has(group, story.name) {
            continue;
        }
        let Ok(mut hub) = Ports::<B>::new(alloc, LIMITS, UniqueNodeId(7)) else {
            return Ok(false);
        };
        for _ in 0..story.before {
            if create(&mut hub, story.side).is_err() {
                return Ok(false);
            }
        }
        stage.call(group, story.name)?;
        play(stage, &mut hub, story.side)?;
    }
    Ok(true)
}

/// Makes a hub, which takes no memory.
fn make<W: Write>(alloc: Global, stage: &mut Stage<W>) -> io::Result<()> {
    if !stage.has("ports", "new") {
        return Ok(());
    }
    stage.call("ports", "new")?;
    match Ports::<Option<u64>>::new(alloc, LIMITS, UniqueNodeId(7)) {
        Ok(hub) => stage.show(hub.numbers_left()),
        Err(error) => stage.show(error),
    }
}

/// Runs the stories of hubs and ports. Returns whether there was memory for everything before the calls.
pub(crate) fn tell<W: Write>(alloc: Global, stage: &mut Stage<W>) -> io::Result<bool> {
    make(alloc, stage)?;
    Ok(
        tell_family::<Option<u64>, W>(alloc, stage, "typed-ports")?
            && tell_family::<SliceBody<u64>, W>(alloc, stage, "sliced-ports")?,
    )
}
