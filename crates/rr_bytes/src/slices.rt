//! The hub.
ghost use Rattle.std.specs.Prelude.{◌≡◌};
ghost use Rattle.rr_protocol.specs.Creation.{CreatesHub};
ghost use Rattle.rr_protocol.specs.Queries.{kind_at};

use crate::id::Id;
use rr_hub::{BackpressureFn, Core, HubCreateError, Kind, Limits, UniqueNodeId};
use rr_slots::PlainBody;
use std::alloc::Global;
use std::marker::Model;

mod copies;
mod creation;
mod in_place;
mod messages;
mod questions;
mod writes;

pub use copies::SentCopy;
pub use writes::WriteRefusal;

/// A hub of slices, of any element and user header that can be copied. Contracts see the state of the message
/// machine. Not in iceoryx2.
///
/// # Examples
///
/// Receives a response, and adds up its bytes:
///
/// ```
/// use rr_bytes::{Bytes, Id};
///
/// fn heard(hub: &mut Bytes, pending: &Id) -> Option<u64> {
///     let response = hub.receive(pending).ok()??;
///     let came = sum(hub.payload(&response).ok()?);
///     hub.release(&response).ok()?;
///     Some(came)
/// }
/// ```
#[derive(Drop)]
pub struct Slices<T: Copy + Default, H: Copy + Default, K: BackpressureFn> {
    core: Core<PlainBody<T>, H, PlainBody<T>, H, K>,
}

impl<T: Copy + Default, H: Copy + Default, K: BackpressureFn> Model for Slices<T, H, K> {
    ghost use Rattle.rr_protocol.specs.State.{State};
    ghost use Rattle.rr_protocol.specs.Codes.{state_code};

    ghost Value = { State T H T H K };

    ghost coded = { state_code T.code H.code T.code H.code K.code };

    ghost view = { λ hub. hub.core };
}

impl<T: Copy + Default, H: Copy + Default, K: BackpressureFn> Slices<T, H, K> {
    /// Makes a hub without ports. Takes no memory, so it never returns `OutOfMemory`. Not in iceoryx2.
    ///
    /// # Errors
    ///
    /// - `ZeroLimit` if a limit is below its least value.
    /// - `LimitsTooLarge` if a worst-case size overflows a `usize`.
    pub fn new(alloc: Global, limits: Limits, node_id: UniqueNodeId) -> Result<Self, HubCreateError>
        ensures { CreatesHub limits node_id.0 result }
    {
        let core = Core::new(alloc, limits, node_id)?;
        Ok(Slices { core })
    }

    /// Returns the kind of an id: a client or a server whose value lives, or a handle. Returns `None` if it names
    /// nothing. Not in iceoryx2.
    pub fn kind(&self, id: &Id) -> Option<Kind>
        ensures { result ≡ kind_at self.now id.now.number }
    {
        self.core.kind(&id.handle())
    }
}
