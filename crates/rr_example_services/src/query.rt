//! A streaming query: a client takes as many responses as it wants, and sets its hint; the server sees the hint, and
//! stops.
//!
//! ```text
//! wanted 1: 1 came of 2 that were sent
//! wanted 5: 5 came of 6 that were sent
//! ```
//!
//! `rr_callers::streaming::stream` sends the request, makes the server send two responses and the client receive
//! them, in turn, and releases both handles. Both ports must belong to this hub; its contract says that no more
//! responses come than are wanted.
#![tactic(auto, using(rr_ports::proofs::Frames::callers), unfolding(rr_ports::specs::Facts::Keeps, rr_ports::specs::Facts::IsFree))]

use rr_callers::connected::Connected;
use rr_callers::streaming::stream;

/// Runs two queries, and prints how many responses came of those that were sent.
pub(crate) fn show(rt: &HostRuntime) -> anyhow::Result<()> {
    let mut ports = Connected::new(rt.alloc())?;
    let one = stream(&mut ports.hub, &ports.client, &ports.server, 1);
    let five = stream(&mut ports.hub, &ports.client, &ports.server, 5);
    ports.end();
    for (wanted, streamed) in [(1, one?), (5, five?)] {
        println!(rt;
            "wanted {wanted}: {} came of {} that were sent",
            streamed.came, streamed.sent
        )?;
    }
    Ok(())
}
