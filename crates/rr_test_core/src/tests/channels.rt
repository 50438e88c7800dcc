//! States of channels, and a table of them.
use rr_slots::{ChannelState, ChannelTable};
use std::alloc::{AllocError, Global};

#[test]
fn a_state_is_below_the_number_of_values(rt: HostRuntime) {
    let last = ChannelState::new(4611686018427387903).map(|state| state.value());
    assert!(rt; last == Some(4611686018427387903));
    assert!(rt; ChannelState::new(ChannelState::max_value()).is_none());
    assert!(rt; ChannelState::max_value() == 4611686018427387904);
}

/// The states of two requests.
fn states() -> Result<(ChannelState, ChannelState), AllocError> {
    let first = ChannelState::new(7).ok_or(AllocError)?;
    let other = ChannelState::new(8).ok_or(AllocError)?;
    Ok((first, other))
}

/// Returns whether a channel is open for its request before it is opened, and then; whether it has a hint after one
/// for another request, and after one for its own; and whether it is open after a close by another request, after one
/// by its own, and once all were closed.
fn used(alloc: Global) -> Result<[bool; 7], AllocError> {
    let (own, other) = states()?;
    let mut table = ChannelTable::new(alloc, 2)?;
    let closed = table.has_state(0, own);
    table.open(0, own);
    let opened = table.has_state(0, own) && !table.has_state(0, other);
    table.hint(0, other);
    let by_other = table.has_hint(0, own);
    table.hint(0, own);
    let hinted = table.has_hint(0, own) && table.has_state(0, own);
    table.close(0, other);
    let kept = table.has_state(0, own);
    table.close(0, own);
    let ended = table.has_state(0, own) || table.has_hint(0, own);
    table.open(1, own);
    table.close_all();
    Ok([
        closed,
        opened,
        by_other,
        hinted,
        kept,
        ended,
        table.has_state(1, own),
    ])
}

#[test]
fn a_channel_is_used_by_its_request_alone(rt: HostRuntime) {
    let wanted = [false, true, false, true, true, false, false];
    assert!(rt; used(rt.alloc()) == Ok(wanted));
}
