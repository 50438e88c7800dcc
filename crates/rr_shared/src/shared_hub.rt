//! A hub that threads share.
ghost use Rattle.std.specs.Prelude.{◌≡◌, ◌≢◌, ◌⊎◌, ◌∷◌, ◌++◌, [], ℕ};
ghost use mathlib.Core.List.{IsPrefix};
ghost use Rattle.rr_protocol.specs.AnswerRule.{KeepsAnswerRule};
ghost use Rattle.rr_laws.specs.Whole.{NeverRunsDry};
ghost use Rattle.rr_shared.specs.Histories.{history_of, IsLegal, MakesCall, MayCopy};
ghost use Rattle.rr_shared.specs.Laws.{calls_of, FindsRoom, HasReceived, IsAnswered};

use crate::call::Call;
use crate::desk::Desk;
use crate::naming::Naming;
use crate::seat::Seat;
use rr_log::Log;
use rr_protocol::{BackpressureFn, Command, Limits, Reply, UniqueNodeId};
use rr_slots::WriteBody;
use std::marker::{Model, PhantomData};
use std::sync::{Mutex, Wait};

/// A runner under a lock, and the log of its calls, which exists in proofs alone.
///
/// Threads share it by reference; each takes a seat, and submits commands by it. Not in iceoryx2.
///
/// # Examples
///
/// Creates a client in each of two threads, and compares what their seats have seen then
/// (`rr_test_runs::tests::hubs::threads`):
///
/// ```
/// ghost use Rattle.std.specs.Prelude.{◌≡◌};
///
/// use rr_protocol::{ClientSettings, NoHandler};
/// use rr_shared::{Command, Naming, Opened, Reply, Seat, SharedHub};
/// use std::sync::Wait;
/// use std::thread;
/// use std::thread::Threads;
///
/// type OpenedHub = Opened<u64, Option<u64>, u64, NoHandler>;
///
/// type Hub<N> = SharedHub<N, u64, Option<u64>, u64, NoHandler>;
///
/// type HubSeat<N> = Seat<N, u64, u64, NoHandler>;
///
/// fn create<N: Naming, R: Wait>(rt: &R, hub: &Hub<N>, seat: &mut HubSeat<N>) -> Option<u64> {
///     let command = Command::CreateClient(ClientSettings::default());
///     match hub.submit(rt, seat, command) {
///         Reply::Created(number) => Some(number),
///         _ => None,
///     }
/// }
///
/// fn two_create<N: Naming, R: Threads + Wait + Sync>(
///     rt: &R,
///     opened: OpenedHub,
/// ) -> (Option<u64>, Option<u64>)
///     requires log { opened.log_id ≡ N.log_id }
///     requires limits { opened.limits ≡ N.limits }
///     requires node_id { opened.node_id ≡ N.node_id }
/// {
///     let hub = opened.named::<N>();
///     let mut first = hub.seat();
///     let mut second = hub.seat();
///     let numbers = thread::join(
///         rt,
///         || create(rt, &hub, &mut first),
///         || create(rt, &hub, &mut second),
///     );
///     hub.compare(&mut first, &mut second);
///     numbers
/// }
/// ```
#[derive(Drop)]
pub struct SharedHub<
    N: Naming,
    T: Copy + Default,
    B: WriteBody<Item = T>,
    H: Copy + Default,
    K: BackpressureFn,
> {
    pub(crate) limits: Limits,
    pub(crate) node_id: UniqueNodeId,
    pub(crate) inside: Mutex<Desk<N, T, B, H, K>>,
    pub(crate) log: Log<Call<T, H, K>>,
}

impl<
    N: Naming,
    T: Copy + Default,
    B: WriteBody<Item = T>,
    H: Copy + Default,
    K: BackpressureFn,
> Model for SharedHub<N, T, B, H, K> {
    ghost use Rattle.std.specs.Prelude.{◌≡◌, None};
    ghost use Rattle.rr_protocol.specs.Limits.{hub_refusal};

    ghost Value = { Unit {0} };

    ghost view = { λ h. tt };

    ghost invariant = { λ h. (h.log ≡ N.log_id) × (h.limits ≡ N.limits) × (h.node_id.0 ≡ N.node_id)
        × (hub_refusal N.limits ≡ None) };
}

impl<
    N: Naming,
    T: Copy + Default,
    B: WriteBody<Item = T>,
    H: Copy + Default,
    K: BackpressureFn,
> SharedHub<N, T, B, H, K> {
    /// Returns the limits that the hub was made with. Takes no lock. Not in iceoryx2.
    pub fn limits(&self) -> Limits
        ensures { result ≡ N.limits }
    {
        self.limits
    }

    /// Returns the node id that the hub was made with. Takes no lock. Not in iceoryx2.
    pub fn node_id(&self) -> UniqueNodeId
        ensures { result.0 ≡ N.node_id }
    {
        self.node_id
    }

    /// Makes a seat with an empty history. A hub may have any number of seats. Takes no lock. Not in iceoryx2.
    pub fn seat(&self) -> Seat<N, T, H, K>
        ensures { history_of result ≡ [] }
    {
        Seat {
            seen: self.log.caller(),
            of: PhantomData,
        }
    }

    /// Carries out a command, and returns its reply. Waits for the lock, and for nothing else.
    ///
    /// The seat's history is extended by calls of others, and then by this call with this reply. It is a legal
    /// history of the message machine. It keeps the answer rule: a response reaches only the request that it answers,
    /// at most once, and in the order in which its server sent it. No loan from a pool of the worst-case size, up to
    /// the initial slice length, was answered `OutOfMemory`. `NoMemory` is returned for `Payload` alone, and never in
    /// the typed family. Not in iceoryx2, which has the calls alone.
    pub fn submit<R: Wait>(
        &self,
        rt: &R,
        seat: &mut Seat<N, T, H, K>,
        command: Command<T, H, K>,
    ) -> Reply<T, H>
        ensures call { MakesCall command result seat.old seat.new }
        ensures legal { IsLegal K.action T.is_default H.is_default B.family N.limits N.node_id (history_of seat.new) }
        ensures answer_rule { KeepsAnswerRule N.limits (history_of seat.new) }
        ensures whole_pools { NeverRunsDry B.family N.limits (history_of seat.new) }
        ensures memory { result ≡ Reply.NoMemory → MayCopy B.family command }
        ensures same { seat.new.0 ≡ seat.old.0 }
        ensures own { calls_of seat.new ≡ calls_of seat.old ++ (command, result) ∷ [] }
        ensures seen { IsPrefix seat.old.1 seat.new.1 }
        ensures answered { IsAnswered command result (history_of seat.new) }
        ensures room { FindsRoom B.family N.limits command result (history_of seat.old) }
    {
        self.inside.lock(rt).apply(&self.log, seat, command)
    }

    /// Proves that the history of one of two seats is a prefix of the other's, and that the seats are two callers
    /// that received no response in common. Changes nothing, and takes no lock. Not in iceoryx2.
    pub fn compare(&self, one: &mut Seat<N, T, H, K>, other: &mut Seat<N, T, H, K>)
        ensures same { (one.new ≡ one.old) × (other.new ≡ other.old) }
        ensures begins { IsPrefix one.new.1 other.new.1 ⊎ IsPrefix other.new.1 one.new.1 }
        ensures differ { one.old.0 ≢ other.old.0 }
        ensures once { (k : ℕ) → HasReceived k one.new → HasReceived k other.new → ⊥ }
    {
        self.log.compare(&mut one.seen, &mut other.seen);
    }
}
