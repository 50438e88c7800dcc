//! A hub of ports that threads share.
ghost use Rattle.std.specs.Prelude.{◌≡◌, ◌≢◌, ◌⊎◌, []};
ghost use mathlib.Core.List.{IsPrefix};

use crate::desk::Desk;
use crate::waking::Waking;
use crate::{Naming, Ports, Seat};
use rr_log::Log;
use rr_ports::{Limits, UniqueNodeId};
use std::marker::{Model, PhantomData};
use std::sync::Mutex;

/// A hub of ports under a lock, and the log of its calls, which exists in proofs alone.
///
/// Threads share it by reference. Each takes a seat, and calls its ports and handles with the hub, the runtime and
/// the seat. Not in iceoryx2.
///
/// # Examples
///
/// Lets a server answer in this thread, and each client ask in another (`rr_example_jobs::clients`):
///
/// ```
/// use rr_shared_ports::Naming;
/// use rr_shared_ports::typed::{Opened, SharedPorts};
/// use std::alloc::Global;
/// use std::sync::Wait;
/// use std::thread;
/// use std::thread::Threads;
/// use std::time::Clock;
///
/// const CLIENTS: usize = 4;
///
/// fn serve_all<N: Naming, R: Threads + Wait + Sync + Clock>(
///     rt: &R,
///     alloc: Global,
///     opened: Opened<u64, (), u64, ()>,
/// ) -> anyhow::Result<Served>
///     requires keeper { opened.keeper_id ≡ N.keeper_id }
///     requires log { opened.log_id ≡ N.log_id }
///     requires limits { opened.limits ≡ N.limits }
///     requires node_id { opened.node_id ≡ N.node_id }
/// {
///     let hub = opened.named::<N>();
///     let mut seat = hub.seat();
///     let server = hub.create_server(rt, &mut seat, hub.server_builder(rt))?;
///     let (answers, asked) = thread::join(
///         rt,
///         || serve(rt, &hub, &mut seat, &server),
///         || {
///             let asked = thread::map_indices(
///                 rt,
///                 alloc,
///                 CLIENTS,
///                 &|place| ask_all(rt, &hub, place as u64),
///             );
///             hub.close();
///             asked
///         },
///     );
///     server.release(&hub, rt, &mut seat);
///     let mut sum = 0u64;
///     for part in asked? {
///         sum = sum.wrapping_add(part?);
///     }
///     Ok(Served { answers, sum })
/// }
/// ```
#[derive(Drop)]
pub struct SharedPorts<N: Naming, H: Ports> {
    pub(crate) limits: Limits,
    pub(crate) node_id: UniqueNodeId,
    pub(crate) inside: Mutex<Desk<N, H>>,
    pub(crate) log: Log<H>,
    pub(crate) waking: Waking,
}

impl<N: Naming, H: Ports> Model for SharedPorts<N, H> {
    ghost use Rattle.std.specs.Prelude.{◌≡◌, None};
    ghost use Rattle.rr_protocol.specs.Limits.{hub_refusal};

    ghost Value = { Unit {0} };

    ghost view = { λ h. tt };

    ghost invariant = { λ h. (h.log ≡ N.log_id) × (h.limits ≡ N.limits) × (h.node_id.0 ≡ N.node_id)
        × (hub_refusal N.limits ≡ None) };
}

impl<N: Naming, H: Ports> SharedPorts<N, H> {
    /// Returns the limits that the hub was made with. Takes no lock. Not in iceoryx2.
    pub fn limits(&self) -> Limits
        ensures { result ≡ N.limits }
    {
        self.limits
    }

    /// Returns the node id that the hub was made with. Takes no lock. Not in iceoryx2.
    pub fn node_id(&self) -> UniqueNodeId
        ensures { result.0 ≡ N.node_id }
    {
        self.node_id
    }

    /// Makes a seat with an empty history. A hub may have any number of seats. Takes no lock. Not in iceoryx2.
    pub fn seat(&self) -> Seat<N, H>
        ensures { result.1 ≡ [] }
    {
        Seat {
            seen: self.log.caller(),
            of: PhantomData,
        }
    }

    /// Proves that the histories of two seats agree: one is a prefix of the other, and the seats are two callers.
    /// Changes nothing, and takes no lock. Not in iceoryx2.
    pub fn compare(&self, one: &mut Seat<N, H>, other: &mut Seat<N, H>)
        ensures same { (one.new ≡ one.old) × (other.new ≡ other.old) }
        ensures begins { IsPrefix one.new.1 other.new.1 ⊎ IsPrefix other.new.1 one.new.1 }
        ensures differ { one.old.0 ≢ other.old.0 }
    {
        self.log.compare(&mut one.seen, &mut other.seen);
    }
}
