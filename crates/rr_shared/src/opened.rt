//! A hub that has no name yet.
ghost use Rattle.std.specs.Prelude.{◌≡◌};
ghost use Rattle.rr_shared.specs.Hubs.{OpensHub};

use crate::call::Call;
use crate::desk::Desk;
use crate::naming::Naming;
use crate::shared_hub::SharedHub;
use rr_log::{Log, Pen};
use rr_protocol::{BackpressureFn, HubCreateError, Limits, UniqueNodeId};
use rr_run::Runner;
use rr_slots::WriteBody;
use std::alloc::Global;
use std::marker::{Model, PhantomData};
use std::sync::Mutex;

/// A hub without ports and with an empty history, which has no name yet. Contracts see its log, its limits and its
/// node id. Not in iceoryx2.
#[derive(Drop)]
pub struct Opened<T: Copy + Default, B: WriteBody<Item = T>, H: Copy + Default, K: BackpressureFn> {
    limits: Limits,
    node_id: UniqueNodeId,
    runner: Runner<T, B, H, K>,
    log: Log<Call<T, H, K>>,
    pen: Pen<Call<T, H, K>>,
}

impl<T: Copy + Default, B: WriteBody<Item = T>, H: Copy + Default, K: BackpressureFn> Model
    for Opened<T, B, H, K> {
    ghost use Rattle.std.specs.Prelude.{◌≡◌, [], None};
    ghost use Rattle.rr_protocol.specs.Limits.{hub_refusal};
    ghost use Rattle.rr_protocol.specs.State.{empty_hub};
    ghost use Rattle.rr_log.specs.Entries.{whole};
    ghost use Rattle.rr_shared.specs.Hubs.{Name, name, name_code};

    ghost Value = { Name };

    ghost coded = { name_code };

    ghost view = { λ o. name o.log o.limits o.node_id.0 };

    ghost invariant = { λ o. (hub_refusal o.limits ≡ None) × (o.runner ≡ empty_hub o.limits o.node_id.0)
        × (o.pen ≡ whole o.log []) };
}

impl<T: Copy + Default, B: WriteBody<Item = T>, H: Copy + Default, K: BackpressureFn> Opened<
    T,
    B,
    H,
    K,
> {
    /// Makes a hub without ports, with an empty history. Takes no memory, so it never returns `OutOfMemory`. Not in
    /// iceoryx2.
    ///
    /// # Errors
    ///
    /// - `ZeroLimit` if a limit is below its least value.
    /// - `LimitsTooLarge` if a worst-case size overflows a `usize`.
    pub fn new(alloc: Global, limits: Limits, node_id: UniqueNodeId) -> Result<Self, HubCreateError>
        ensures { OpensHub limits node_id.0 result }
    {
        let runner = Runner::new(alloc, limits, node_id)?;
        let (log, pen) = Log::open();
        Ok(Opened {
            limits,
            node_id,
            runner,
            log,
            pen,
        })
    }

    /// Returns the hub under a name of the caller's choice. Not in iceoryx2.
    pub fn named<N: Naming>(self) -> SharedHub<N, T, B, H, K>
        requires log { self.log_id ≡ N.log_id }
        requires limits { self.limits ≡ N.limits }
        requires node_id { self.node_id ≡ N.node_id }
    {
        let Opened {
            limits,
            node_id,
            runner,
            log,
            pen,
        } = self;
        let desk = Desk {
            runner,
            pen,
            of: PhantomData,
        };
        SharedHub {
            limits,
            node_id,
            inside: Mutex::new(desk),
            log,
        }
    }
}
