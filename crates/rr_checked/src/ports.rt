//! Queries of ports and of queues. None changes the core.
ghost use Rattle.rr_protocol.specs.declared.command.Command.{Command};
ghost use Rattle.rr_protocol.specs.declared.reply.Reply.{Reply};
ghost use Rattle.rr_protocol.specs.Step.{Step};
ghost use Rattle.rr_checked.specs.Answers.{replied};

use crate::refusal::Refusal;
use rr_hub::{Core, HandleId};
use rr_protocol::{BackpressureFn, BackpressureStrategy, Kind};
use rr_slots::Body;

/// Returns whether a queue that a server, or a pending response, receives from has an entry. Not in iceoryx2 for any
/// number: `Server::has_requests`, `PendingResponse::has_response`.
///
/// # Errors
///
/// `Unknown` and `WrongKind`.
pub fn has_entries<T: Copy + Default, B: Body<Item = T>, H: Copy + Default, K: BackpressureFn>(
    core: &Core<B, H, B, H, K>,
    id: &HandleId,
) -> Result<bool, Refusal>
    ensures { Step K.action T.is_default H.is_default B.family core.now (Command.HasEntries id.now)
        (replied Reply.Flag result) core.now }
{
    match core.kind(id) {
        Some(Kind::Server) => Ok(core.has_requests(id.number())),
        Some(Kind::PendingResponse) => Ok(core.has_response(id)),
        Some(_) => Err(Refusal::WrongKind),
        None => Err(Refusal::Unknown),
    }
}

/// Returns whether no queue that a send would reach is full without overflow. Not in iceoryx2.
///
/// # Errors
///
/// `Unknown` and `WrongKind`.
pub fn is_deliverable<T: Copy + Default, B: Body<Item = T>, H: Copy + Default, K: BackpressureFn>(
    core: &Core<B, H, B, H, K>,
    id: &HandleId,
) -> Result<bool, Refusal>
    ensures { Step K.action T.is_default H.is_default B.family core.now (Command.IsDeliverable id.now)
        (replied Reply.Flag result) core.now }
{
    match core.kind(id) {
        Some(Kind::RequestMut) => Ok(core.is_request_deliverable(id)),
        Some(Kind::ResponseMut) => Ok(core.is_response_deliverable(id)),
        Some(_) => Err(Refusal::WrongKind),
        None => Err(Refusal::Unknown),
    }
}

/// Returns a port's backpressure strategy. After iceoryx2's `backpressure_strategy` of `Client` and `Server`.
///
/// # Errors
///
/// `Unknown` and `WrongKind`.
pub fn strategy<T: Copy + Default, B: Body<Item = T>, H: Copy + Default, K: BackpressureFn>(
    core: &Core<B, H, B, H, K>,
    id: &HandleId,
) -> Result<BackpressureStrategy, Refusal>
    ensures { Step K.action T.is_default H.is_default B.family core.now (Command.Strategy id.now)
        (replied Reply.Strategy result) core.now }
{
    match core.kind(id) {
        Some(Kind::Client) => Ok(core.client_backpressure_strategy(id.number())),
        Some(Kind::Server) => Ok(core.server_backpressure_strategy(id.number())),
        Some(_) => Err(Refusal::WrongKind),
        None => Err(Refusal::Unknown),
    }
}

/// Returns how many elements each of a port's slots has room for from the start. After iceoryx2's
/// `initial_max_slice_len` of `Client` and `Server`.
///
/// # Errors
///
/// `Unknown` and `WrongKind`.
pub fn max_slice_len<T: Copy + Default, B: Body<Item = T>, H: Copy + Default, K: BackpressureFn>(
    core: &Core<B, H, B, H, K>,
    id: &HandleId,
) -> Result<usize, Refusal>
    ensures { Step K.action T.is_default H.is_default B.family core.now (Command.MaxSliceLen id.now)
        (replied Reply.Count result) core.now }
{
    match core.kind(id) {
        Some(Kind::Client) => Ok(core.client_initial_max_slice_len(id.number())),
        Some(Kind::Server) => Ok(core.server_initial_max_slice_len(id.number())),
        Some(_) => Err(Refusal::WrongKind),
        None => Err(Refusal::Unknown),
    }
}

/// Changes nothing: a port is connected with all ports of the other side as soon as both are created. After
/// iceoryx2's `UpdateConnections::update_connections`.
///
/// # Errors
///
/// `Unknown` and `WrongKind`.
pub fn update_connections<
    T: Copy + Default,
    B: Body<Item = T>,
    H: Copy + Default,
    K: BackpressureFn,
>(core: &Core<B, H, B, H, K>, id: &HandleId) -> Result<(), Refusal>
    ensures { Step K.action T.is_default H.is_default B.family core.now (Command.UpdateConnections id.now)
        (replied (λ done. Reply.Done) result) core.now }
{
    match core.kind(id) {
        Some(Kind::Client | Kind::Server) => Ok(()),
        Some(_) => Err(Refusal::WrongKind),
        None => Err(Refusal::Unknown),
    }
}
