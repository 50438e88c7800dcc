//! The connected ports of a core, and the senders from which ports send.
ghost use Rattle.std.specs.Prelude.{◌≡◌, ◌==◌, false, IfSome, Some};
ghost use Rattle.std.specs.List.{position};
ghost use Rattle.rr_store.specs.Order.{IsRising};

use rr_protocol::{AllocationStrategy, BackpressureStrategy};
use rr_sender::Sender;
use rr_slots::Body;

/// The common part of clients and servers: the settings, the index of the port's sender, and its index among the
/// receivers of the other side.
#[derive(Drop)]
pub struct Port<K: Drop> {
    pub id: u64,
    pub strategy: BackpressureStrategy,
    pub handler: Option<K>,
    pub allocation_strategy: AllocationStrategy,
    pub initial_max_slice_len: usize,
    pub pool_size: usize,
    pub has_value: bool,
    pub sender: usize,
    pub receiver: usize,
}

/// A connected client, with the number of loans that it made.
#[derive(Drop)]
pub struct ClientPort<K: Drop> {
    pub port: Port<K>,
    pub loans_made: u64,
}

/// A connected server, with the numbers of responses that it may have on loan for each request, and in all.
#[derive(Drop)]
pub struct ServerPort<K: Drop> {
    pub port: Port<K>,
    pub max_loaned_responses_per_request: usize,
    pub max_loaned_responses: usize,
}

/// The mark where no server may answer: a number that no port gets.
pub const NO_SERVER: u64 = u64::MAX;

/// A sender with its owner: the port's number and its index among the receivers of the other side; the row of the
/// table that has the handles of its messages; whether the port's value lives; how many messages are on loan and how
/// many responses are pending; and the marks, which give for each slot and receiver the number of the server that may
/// still answer the slot's request. A server's sender has neither pending responses nor marks.
///
/// A mark has the server's number and not only its receiver, so an old mark is not taken for one of a later server
/// with the same receiver.
#[derive(Drop)]
pub struct OwnedSender<B: Body, N: Copy, H: Drop> {
    pub owner: u64,
    pub row: usize,
    pub receiver: usize,
    pub may_answer: Vec<u64>,
    // With it a sender has 256 bytes, so its address is computed from its index by a shift instead of a
    // multiplication.
    pub messages: Sender<B, N, H>,
    pub loans: usize,
    // It is between the loans and the pending responses because a send changes both, and the compiler would otherwise
    // load the two neighbours at once before the first store is done.
    pub has_value: bool,
    pub pendings: usize,
}

/// A port that left: its number, and the index of the sender from which it sent.
#[derive(Clone, Copy, Debug)]
pub struct LeftPort {
    pub number: u64,
    pub sender: usize,
}

/// The fields of a connected port that a side reads.
#[derive(Clone, Copy, Debug)]
pub struct PortDetails {
    /// The port's number.
    pub id: u64,
    /// Its index among the receivers of the other side.
    pub receiver: usize,
    /// The sender from which it sends.
    pub sender: usize,
    /// Whether its value lives.
    pub has_value: bool,
}

/// A connected port, of either side.
pub trait ConnectedPort: Drop {
    ghost use Rattle.std.specs.Prelude.{ℕ, Bool};

    /// The number.
    ghost id: { Self → ℕ };

    /// The index among the receivers of the other side.
    ghost receiver: { Self → ℕ };

    /// The sender from which it sends.
    ghost sender: { Self → ℕ };

    /// Whether its value lives.
    ghost has_value: { Self → Bool };

    /// The port after its value was released.
    ghost valueless: { Self → Self };

    /// Returns the fields of the port that a side reads.
    fn details(&self) -> PortDetails
        ensures id { result.id ≡ id self.now }
        ensures receiver { result.receiver ≡ receiver self.now }
        ensures sender { result.sender ≡ sender self.now }
        ensures has_value { result.has_value ≡ has_value self.now };

    /// Records that the port's value was released.
    fn end_value(&mut self)
        ensures { self.new ≡ valueless self.old };
}

impl<K: Drop> ConnectedPort for ClientPort<K> {
    ghost id = { λ c. c.port.id };

    ghost sender = { λ c. c.port.sender };

    ghost receiver = { λ c. c.port.receiver };

    ghost has_value = { λ c. c.port.has_value };

    ghost valueless = { λ c. record c { port = record c.port { has_value = false } } };

    #[inline(always)]
    fn details(&self) -> PortDetails {
        PortDetails {
            id: self.port.id,
            receiver: self.port.receiver,
            sender: self.port.sender,
            has_value: self.port.has_value,
        }
    }

    fn end_value(&mut self) {
        self.port.has_value = false;
    }
}

impl<K: Drop> ConnectedPort for ServerPort<K> {
    ghost id = { λ s. s.port.id };

    ghost sender = { λ s. s.port.sender };

    ghost receiver = { λ s. s.port.receiver };

    ghost has_value = { λ s. s.port.has_value };

    ghost valueless = { λ s. record s { port = record s.port { has_value = false } } };

    #[inline(always)]
    fn details(&self) -> PortDetails {
        PortDetails {
            id: self.port.id,
            receiver: self.port.receiver,
            sender: self.port.sender,
            has_value: self.port.has_value,
        }
    }

    fn end_value(&mut self) {
        self.port.has_value = false;
    }
}

/// Returns `index` if the port at it has this number. The ports' numbers rise.
#[inline(always)]
pub(crate) fn index_if_at<P: ConnectedPort>(ports: &[P], index: usize, id: u64) -> Option<usize>
    requires { IsRising P.id ports.now }
    ensures { IfSome result (λ found. position (λ p. P.id p == id) ports.now ≡ Some found) }
{
    if let Some(port) = ports.get(index) {
        if port.details().id == id {
            return Some(index);
        }
    }
    None
}

/// Returns the index of the port with this number, in O(log ports). The ports' numbers rise.
///
/// Since the numbers rise, the index exceeds that of the first port by at most the difference of the numbers, and
/// likewise from the last port backwards. A binary search covers the range that is left.
#[cold]
pub(crate) fn index_by_halving<P: ConnectedPort>(ports: &[P], id: u64) -> Option<usize>
    requires { IsRising P.id ports.now }
    ensures { result ≡ position (λ p. P.id p == id) ports.now }
{
    if ports.is_empty() {
        return None;
    }
    let most = ports.len() - 1;
    let behind = id.saturating_sub(ports[0].details().id) as usize;
    let before = ports[most].details().id.saturating_sub(id) as usize;
    let mut low = most.saturating_sub(before);
    let mut high = if behind < most { behind + 1 } else { most + 1 };
    while low < high {
        let middle = low + (high - low) / 2;
        let found = ports[middle].details().id;
        if found == id {
            return Some(middle);
        }
        if found < id {
            low = middle + 1;
        } else {
            high = middle;
        }
    }
    None
}
