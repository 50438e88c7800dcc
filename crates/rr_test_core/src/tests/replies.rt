//! That replies can be made and compared.
use rr_protocol::{Elements, Reply};
use std::alloc::{AllocError, Global};

/// A reply with two elements.
fn payload(alloc: Global, first: u64, second: u64) -> Result<Reply<u64, u64>, AllocError> {
    Ok(Reply::Payload(Elements::from(vec![in alloc; first, second]?)))
}

/// Returns whether a payload equals the same, one turned, a shorter one, and nothing.
fn compared(alloc: Global) -> Result<[bool; 4], AllocError> {
    let two = payload(alloc, 1, 2)?;
    let same = payload(alloc, 1, 2)?;
    let turned = payload(alloc, 2, 1)?;
    let shorter = Reply::Payload(Elements::from(vec![in alloc; 1]?));
    Ok([
        two == same,
        two == turned,
        two == shorter,
        two == Reply::Nothing,
    ])
}

#[test]
fn payloads_are_equal_where_their_elements_are(rt: HostRuntime) {
    assert!(rt; compared(rt.alloc()) == Ok([true, false, false, false]));
}

/// Returns whether copies of a payload of two elements, of one of one element, and of another reply are equal to
/// them, and whether one element alone equals a vector of it.
fn copied(alloc: Global) -> Result<[bool; 4], AllocError> {
    let two = payload(alloc, 1, 2)?;
    let one: Reply<u64, u64> = Reply::Payload(Elements::from([1]));
    let in_vector = Reply::Payload(Elements::from(vec![in alloc; 1]?));
    let pending: Reply<u64, u64> = Reply::Pending(2, 1);
    Ok([
        two.copied(alloc)? == two,
        one.copied(alloc)? == one,
        pending.copied(alloc)? == pending,
        one == in_vector,
    ])
}

#[test]
fn copies_are_equal(rt: HostRuntime) {
    assert!(rt; copied(rt.alloc()) == Ok([true, true, true, true]));
}
