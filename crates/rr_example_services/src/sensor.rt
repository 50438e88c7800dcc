//! A sensor: a client names channels, and a server streams frames, slices with a sample of each channel, which it
//! writes in place.
//!
//! ```text
//! frame 0: from 100 to 700
//! frame 1: from 101 to 701
//! frame 2: from 102 to 702
//! ```
//!
//! `rr_callers::sensing::sense` sends the request, makes the server send each frame and the client read it in place,
//! and releases all handles. The ports must belong to this hub; its contract gives the extremes.
#![tactic(auto, using(rr_ports::proofs::Frames::callers), unfolding(rr_ports::specs::Facts::Keeps, rr_ports::specs::Facts::IsFree))]

use rr_callers::connected::Connected;
use rr_callers::sensing::{Service, sense};
use rr_ports::UniqueNodeId;

/// The channels that are measured.
const CHANNELS: [u64; 3] = [2, 7, 1];

/// Reads three frames, and prints the extremes of each.
pub(crate) fn show(rt: &HostRuntime) -> anyhow::Result<()> {
    let hub = Service::with_default_limits(rt.alloc(), UniqueNodeId(0));
    let clients = hub.client_builder().initial_max_slice_len(CHANNELS.len());
    let servers = hub.server_builder().initial_max_slice_len(CHANNELS.len());
    let mut ports = Connected::by(hub, clients, servers)?;
    let frames = sense(
        rt.alloc(),
        &mut ports.hub,
        &ports.client,
        &ports.server,
        &CHANNELS,
        3,
    );
    ports.end();
    for (time, frame) in frames?.iter().enumerate() {
        println!(rt; "frame {time}: from {} to {}", frame.least, frame.most)?;
    }
    Ok(())
}
