//! The kinds of numbers, as calls on messages see them.
ghost use Rattle.rr_checked.specs.Naming.{NamesMessage, NamesUnsent};

use rr_hub::{Core, HandleId};
use rr_protocol::{BackpressureFn, Kind};
use rr_slots::Body;

/// The kind of a number, for a call that some kinds of messages have.
#[derive(Clone, Copy)]
pub(crate) enum Named {
    /// Neither a port nor a handle.
    Nothing,
    /// A kind without the call.
    Other,
    /// A request that has it.
    Request,
    /// A response that has it.
    Response,
}

/// Returns the kind of a number, for calls that every message has.
pub(crate) fn message<T: Copy + Default, B: Body<Item = T>, H: Copy + Default, K: BackpressureFn>(
    core: &Core<B, H, B, H, K>,
    id: &HandleId,
) -> Named
    ensures { NamesMessage core.now id.now result }
{
    match core.kind(id) {
        None => Named::Nothing,
        Some(Kind::Client | Kind::Server) => Named::Other,
        Some(
            Kind::RequestMutUninit | Kind::RequestMut | Kind::PendingResponse | Kind::ActiveRequest,
        ) => Named::Request,
        Some(Kind::ResponseMutUninit | Kind::ResponseMut | Kind::Response) => Named::Response,
    }
}

/// Returns the kind of a number, for calls that messages have before they are sent.
pub(crate) fn unsent<T: Copy + Default, B: Body<Item = T>, H: Copy + Default, K: BackpressureFn>(
    core: &Core<B, H, B, H, K>,
    id: &HandleId,
) -> Named
    ensures { NamesUnsent core.now id.now result }
{
    match core.kind(id) {
        None => Named::Nothing,
        Some(Kind::RequestMutUninit | Kind::RequestMut) => Named::Request,
        Some(Kind::ResponseMutUninit | Kind::ResponseMut) => Named::Response,
        Some(_) => Named::Other,
    }
}
