//! The hub.
ghost use Rattle.std.specs.Prelude.{◌≡◌, max};
ghost use Rattle.std.specs.Option.{option_map_or};
ghost use Rattle.rr_protocol.specs.Limits.{worst_case_requests, worst_case_responses};
ghost use Rattle.rr_protocol.specs.Queries.{kind_at};
ghost use Rattle.rr_protocol.specs.Refusals.{kind_index};
ghost use Rattle.rr_c.specs.Answers.{CreatesHeld, WritesPool};
ghost use Rattle.rr_c.specs.Settings.{limits_in};

use crate::answers::{OK, UNKNOWN, code_of_create};
use crate::held::{Held, Hub};
use crate::opening::{address_of, box_of, hub_in};
use crate::settings::{self, HubLimits};
use rr_bytes::{Bytes, HubCreateError, Id, Kind, UniqueNodeId};
use std::alloc::Global;

/// Makes a hub, and hands it over.
#[unsafe(no_mangle)]
pub extern "C" fn rr_hub_create(
    alloc: Global,
    limits: &HubLimits,
    node_id: u64,
    at: &mut *mut u8,
) -> u32
    ensures { CreatesHeld (limits_in limits.now) node_id result }
{
    let bytes = match Bytes::new(alloc, settings::limits(limits), UniqueNodeId(node_id)) {
        Ok(bytes) => bytes,
        Err(error) => return code_of_create(error),
    };
    match Box::new(alloc, Hub { bytes }) {
        Ok(hub) => {
            *at = address_of(hub);
            OK
        }
        Err(_) => code_of_create(HubCreateError::OutOfMemory),
    }
}

/// Takes a hub back, and drops it.
#[unsafe(no_mangle)]
pub extern "C" fn rr_hub_drop(alloc: Global, held: Held) {
    drop(box_of(held, alloc));
}

/// Writes the slots of a client's unreduced pool.
#[unsafe(no_mangle)]
pub extern "C" fn rr_worst_case_requests(limits: &HubLimits, slots: &mut usize) -> u32
    ensures { WritesPool (limits_in limits.now) (worst_case_requests (limits_in limits.now)) result slots.old
        slots.new }
{
    let limits = settings::limits(limits);
    if limits.has_zero_limit() {
        return code_of_create(HubCreateError::ZeroLimit);
    }
    match limits.worst_case_requests() {
        Some(worst_case) => {
            *slots = worst_case;
            OK
        }
        None => code_of_create(HubCreateError::LimitsTooLarge),
    }
}

/// Writes the slots of a server's unreduced pool. 0 loaned responses count as 1.
#[unsafe(no_mangle)]
pub extern "C" fn rr_worst_case_responses(
    limits: &HubLimits,
    max_loaned_responses_per_request: usize,
    slots: &mut usize,
) -> u32
    ensures { WritesPool (limits_in limits.now) (worst_case_responses (limits_in limits.now)
        (max 1 max_loaned_responses_per_request)) result slots.old slots.new }
{
    let limits = settings::limits(limits);
    if limits.has_zero_limit() {
        return code_of_create(HubCreateError::ZeroLimit);
    }
    match limits.worst_case_responses(max_loaned_responses_per_request.max(1)) {
        Some(worst_case) => {
            *slots = worst_case;
            OK
        }
        None => code_of_create(HubCreateError::LimitsTooLarge),
    }
}

/// Writes the kind of an id.
#[unsafe(no_mangle)]
pub extern "C" fn rr_kind(hub: &mut Held, id: &Id, kind: &mut u32) -> u32
    ensures code { result ≡ option_map_or (λ named. 0) (kind_at hub.old.hub.bytes id.now.number) 1 }
    ensures kind { kind.new ≡ option_map_or kind_index (kind_at hub.old.hub.bytes id.now.number) kind.old }
    ensures hub { hub.new.hub ≡ hub.old.hub }
{
    match hub_in(hub).bytes.kind(id) {
        Some(named) => {
            *kind = index_of(named);
            OK
        }
        None => UNKNOWN,
    }
}

/// Returns the number of a kind.
fn index_of(kind: Kind) -> u32
    ensures { result ≡ kind_index kind }
{
    match kind {
        Kind::Client => 0,
        Kind::Server => 1,
        Kind::RequestMutUninit => 2,
        Kind::RequestMut => 3,
        Kind::PendingResponse => 4,
        Kind::ActiveRequest => 5,
        Kind::ResponseMutUninit => 6,
        Kind::ResponseMut => 7,
        Kind::Response => 8,
    }
}
