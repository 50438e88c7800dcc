//! Hubs: the values that they hold, and moves of hubs.
#![tactic(auto, using(rr_ports::proofs::Frames::callers), unfolding(rr_ports::specs::Facts::Keeps, rr_ports::specs::Facts::IsFree))]

use super::fixtures::{LIMITS, SETUP, connect};
use rr_callers::frames::Service;
use rr_ports::{UniqueNodeId, UpdateConnections};
use std::thread;

/// A port is printed by its type and number, and so is its id. A port of another hub that has its number equals it.
#[test]
fn a_port_is_told_by_its_number(rt: HostRuntime) {
    let ports = connect(&rt, rt.alloc(), SETUP);
    let other = connect(&rt, rt.alloc(), SETUP);
    let shown = format!(in rt.alloc(); "{:?} {}", ports.server, ports.server.id());
    let is_same = ports.server == other.server;
    ports.end();
    other.end();
    let shown = shown.expect(&rt, "a text");
    assert_eq!(rt; (shown.as_str(), is_same), ("Server(1) 1", true));
}

/// A hub has the limits and the node id that it was made with, and holds the ports that it lists; an empty hub holds
/// none of them.
#[test]
fn a_hub_holds_its_own_ports(rt: HostRuntime) {
    let ports = connect(&rt, rt.alloc(), SETUP);
    let other = Service::new(rt.alloc(), LIMITS, UniqueNodeId(8)).expect(&rt, "a hub");
    let held = (
        ports.hub.holds(&ports.client),
        ports.hub.holds(&ports.server),
        other.holds(&ports.client),
    );
    let made = (other.limits() == LIMITS, other.node_id());
    let updated = ports.client.update_connections(&ports.hub);
    drop(other);
    ports.end();
    assert_eq!(rt;
        (held, made, updated),
        ((true, true, false), (true, UniqueNodeId(8)), Ok(()))
    );
}

/// A hub can be moved into a thread.
#[test]
fn a_hub_goes_to_another_thread(rt: HostRuntime) {
    let hub = Service::new(rt.alloc(), LIMITS, UniqueNodeId(7)).expect(&rt, "a hub");
    let left = match thread::spawn(&rt, move || hub.numbers_left()) {
        Ok(child) => child.join(&rt),
        Err(_) => 0,
    };
    assert!(rt; left == 4611686018427387904);
}
