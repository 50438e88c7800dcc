//! A shared hub of ports that has no name yet.
ghost use Rattle.std.specs.Prelude.{◌≡◌};
ghost use Rattle.rr_shared_ports.specs.Words.{OpensHub};

use crate::claims::HubKeeper;
use crate::desk::Desk;
use crate::waking::Waking;
use crate::{Header, Naming, Ports, SharedPorts};
use rr_claims::Keeper;
use rr_log::{Log, Pen};
use rr_ports::{BackpressureFn, Body, Hub, HubCreateError, Limits, UniqueNodeId};
use std::alloc::Global;
use std::marker::{Model, PhantomData};
use std::sync::Mutex;

/// A new hub without ports, claims or calls, which has no name yet. Contracts see its identity. Not in iceoryx2.
///
/// # Examples
///
/// Opens a hub, and has another function name it (`rr_bench::idle`):
///
/// ```
/// use anyhow::bail;
/// use rr_ports::{Limits, UniqueNodeId};
/// use rr_shared_ports::WaitError;
/// use rr_shared_ports::typed::Opened;
/// use std::alloc::Global;
/// use std::marker::Brand;
/// use std::sync::Wait;
/// use std::thread::Threads;
/// use std::time::Clock;
///
/// type OpenedHub = Opened<u64, (), u64, ()>;
///
/// fn idle<R: Threads + Wait + Clock + Sync>(rt: &R, alloc: Global) -> anyhow::Result<()> {
///     let opened = OpenedHub::new(alloc, Limits::SMALLEST, UniqueNodeId(7))?;
///     match wait_for_close::<Brand, R>(rt, opened)? {
///         Some(WaitError::Closed) => Ok(()),
///         ended => bail!("the wait ended with {ended:?}"),
///     }
/// }
/// ```
#[derive(Drop)]
pub struct Opened<H: Ports> {
    limits: Limits,
    node_id: UniqueNodeId,
    hub: H,
    keeper: HubKeeper<H>,
    log: Log<H>,
    pen: Pen<H>,
}

impl<H: Ports> Model for Opened<H> {
    ghost use Rattle.std.specs.Prelude.{◌≡◌, [], None};
    ghost use Rattle.rr_protocol.specs.Limits.{hub_refusal};
    ghost use Rattle.rr_log.specs.Entries.{whole};
    ghost use Rattle.rr_shared_ports.specs.Turns.{Name, name, name_code};

    ghost Value = { Name };

    ghost coded = { name_code };

    ghost view = { λ o. name o.keeper.id o.log o.limits o.node_id.0 };

    ghost invariant = { λ o. (hub_refusal o.limits ≡ None) × (o.hub ≡ H.empty o.limits o.node_id.0)
        × (o.keeper.state ≡ o.hub) × (o.pen ≡ whole o.log []) };
}

impl<QB: Body, QH: Header, PB: Body, PH: Header, K: BackpressureFn> Opened<Hub<QB, QH, PB, PH, K>> {
    /// Makes a hub without ports. Takes no memory. Not in iceoryx2.
    ///
    /// # Errors
    ///
    /// As `Hub::new` of `rr_ports`: `ZeroLimit` and `LimitsTooLarge`.
    pub fn new(alloc: Global, limits: Limits, node_id: UniqueNodeId) -> Result<Self, HubCreateError>
        ensures { OpensHub limits node_id.0 result }
    {
        let hub = Hub::new(alloc, limits, node_id)?;
        let keeper = Keeper::open(&hub);
        let (log, pen) = Log::open();
        Ok(Opened {
            limits,
            node_id,
            hub,
            keeper,
            log,
            pen,
        })
    }
}

impl<H: Ports> Opened<H> {
    /// Returns the hub under a name of the caller's choice. Not in iceoryx2.
    pub fn named<N: Naming>(self) -> SharedPorts<N, H>
        requires keeper { self.keeper_id ≡ N.keeper_id }
        requires log { self.log_id ≡ N.log_id }
        requires limits { self.limits ≡ N.limits }
        requires node_id { self.node_id ≡ N.node_id }
    {
        let Opened {
            limits,
            node_id,
            hub,
            keeper,
            log,
            pen,
        } = self;
        let desk = Desk {
            ports: hub,
            keeper,
            pen,
            of: PhantomData,
        };
        SharedPorts {
            limits,
            node_id,
            inside: Mutex::new(desk),
            log,
            waking: Waking::new(),
        }
    }
}
