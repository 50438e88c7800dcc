//! Ports by index and by number, their creation, and those that left.
ghost use Rattle.std.specs.Prelude.{◌≡◌, ◌≢◌, ℕ, ◌<◌, ◌==◌, ◌&&◌, [], ◌∷◌, ◌++◌, true, IfOk, IsSome, IsSomeAnd, OnErr, OnOk, Some, count_by, length, replicate, slice_get, slice_set, vec_capacity, vec_len};
ghost use Rattle.std.specs.List.{list_any, position, remove};
ghost use Rattle.rr_table.specs.TableView.{IsRenewed, with_row};
ghost use Rattle.rr_store.specs.Creating.{is_between, left_at, new_sender};
ghost use Rattle.rr_store.specs.KnownWaiting.{AreAlike, AreSentAgain};
ghost use Rattle.rr_store.specs.Order.{IsRising};
ghost use Rattle.rr_store.specs.Views.{sender_of};

use crate::port::{index_by_halving, index_if_at};
use crate::side::Side;
use crate::this_hub::of_this_hub;
use crate::{ConnectedPort, HandleEntry, LeftPort, OwnedSender, Stage};
use rr_sender::Sender;
use rr_slots::Body;
use rr_table::Table;
use std::alloc::{AllocError, Global};

impl<B: Body, N: Copy, H: Drop, P: Drop> Side<B, N, H, P> {
    /// Returns the port at an index.
    #[inline(always)]
    pub fn port(&self, index: usize) -> &P
        requires { index < length self.now.ports }
        ensures { slice_get self.now.ports index ≡ Some result.now }
    {
        &self.ports[index]
    }

    /// Returns how many ports are connected.
    pub fn port_count(&self) -> usize
        ensures { result ≡ length self.now.ports }
    {
        self.ports.len()
    }

    /// Returns the number of senders, those of the connected ports and of those that left.
    #[inline(always)]
    pub fn sender_count(&self) -> usize
        ensures { result ≡ length self.now.senders }
    {
        self.senders.len()
    }

    /// Returns the sender of the port at `index` of those that left.
    pub fn left_sender(&self, index: usize) -> usize
        requires { index < length self.now.left }
        ensures { result ≡ (left_at index self.now.left).sender }
    {
        self.left[index].sender
    }

    /// Returns all connected ports, in the order of their numbers.
    #[inline(always)]
    pub fn connected(&self) -> &[P]
        ensures { result.now ≡ self.now.ports }
    {
        self.ports.as_slice()
    }
}

impl<B: Body, N: Copy, H: Drop, P: ConnectedPort> Side<B, N, H, P> {
    /// Returns the index of the port with this number, in O(log ports). Tries the first port, then the index that a
    /// gapless numbering from the first port would give, then the one that a gapless numbering up to the last port
    /// would give, and then does a binary search.
    #[inline(always)]
    pub fn index_of(&self, number: u64) -> usize
        requires rising { IsRising P.id self.now.ports }
        requires present { IsSome (position (λ p. P.id p == number) self.now.ports) }
        ensures { position (λ p. P.id p == number) self.now.ports ≡ Some result }
    {
        let first = of_this_hub(self.ports.get(0)).details().id;
        if first == number {
            return 0;
        }
        let behind = number.wrapping_sub(first) as usize;
        if let Some(index) = index_if_at(self.ports.as_slice(), behind, number) {
            return index;
        }
        let most = self.ports.len().saturating_sub(1);
        let last = of_this_hub(self.ports.get(most)).details().id;
        let before = most.wrapping_sub(last.wrapping_sub(number) as usize);
        if let Some(index) = index_if_at(self.ports.as_slice(), before, number) {
            return index;
        }
        of_this_hub(index_by_halving(self.ports.as_slice(), number))
    }

    /// Returns the index of the port that owns a sender, in O(log ports).
    #[cold]
    pub fn index_of_sender(&self, sender: usize) -> usize
        requires sender { sender < length self.now.senders }
        requires rising { IsRising P.id self.now.ports }
        requires present { IsSome (position (λ p. P.id p == (sender_of sender self.now.senders).owner) self.now.ports) }
        ensures { position (λ p. P.id p == (sender_of sender self.now.senders).owner) self.now.ports ≡ Some result }
    {
        self.index_of(self.senders[sender].owner)
    }

    /// Returns from which sender the port at an index sends.
    #[inline(always)]
    pub fn sender_of_port(&self, index: usize) -> usize
        requires { index < length self.now.ports }
        ensures { IsSomeAnd (slice_get self.now.ports index) (λ p. result ≡ P.sender p) }
    {
        self.ports[index].details().sender
    }

    /// Returns which receiver of the other side the port at an index is.
    #[inline(always)]
    pub fn receiver_of_port(&self, index: usize) -> usize
        requires { index < length self.now.ports }
        ensures { IsSomeAnd (slice_get self.now.ports index) (λ p. result ≡ P.receiver p) }
    {
        self.ports[index].details().receiver
    }

    /// Returns the number and the sender of the port at `index`, as they are recorded when it leaves.
    #[cold]
    pub fn leaving(&self, index: usize) -> LeftPort
        requires { index < length self.now.ports }
        ensures { IsSomeAnd (slice_get self.now.ports index)
            (λ p. result ≡ record { number = P.id p; sender = P.sender p }) }
    {
        let port = self.ports[index].details();
        LeftPort {
            number: port.id,
            sender: port.sender,
        }
    }

    /// Returns whether a port has this number and lives by value, in O(log ports).
    #[inline(always)]
    pub fn is_value(&self, number: u64) -> bool
        requires { IsRising P.id self.now.ports }
        ensures { result ≡ list_any (λ p. P.id p == number && P.has_value p) self.now.ports }
    {
        match index_by_halving(self.ports.as_slice(), number) {
            Some(index) => self.ports[index].details().has_value,
            None => false,
        }
    }

    /// Returns the first receiver below `receivers` that no port uses, in O(ports * log ports).
    pub fn free_receiver(&self, receivers: usize) -> usize
        requires { length self.now.ports < receivers }
        ensures inside { result < receivers }
        ensures vacant { (i : ℕ) (p : P) → slice_get self.now.ports i ≡ Some p → P.receiver p ≢ result }
    {
        let mut low = 0;
        let mut high = self.ports.len() + 1;
        while low + 1 < high {
            let middle = low + (high - low) / 2;
            if self.receivers_between(low, middle) < middle - low {
                high = middle;
            } else {
                low = middle;
            }
        }
        low
    }

    /// Returns how many ports have a receiver at or above `low` and below `high`.
    fn receivers_between(&self, low: usize, high: usize) -> usize
        ensures { result ≡ count_by (λ p. is_between low high (P.receiver p)) self.now.ports }
    {
        let mut count = 0;
        for port in self.ports.as_slice() {
            if is_between(low, high, port.details().receiver) {
                count += 1;
            }
        }
        count
    }

    /// Adds a port, the sender from which it sends, with these queues, as all have, and a row of the table for its
    /// messages. Returns `AllocError` if memory was refused; nothing has changed then.
    pub fn insert(
        &mut self,
        alloc: Global,
        table: &mut Table<HandleEntry>,
        port: P,
        messages: Sender<B, N, H>,
        receivers: usize,
        channels: usize,
        may_answer: Vec<u64>,
        row_len: usize,
    ) -> Result<(), AllocError>
        requires unsent { messages.queues ≡ replicate receivers (replicate channels []) }
        requires alike { AreAlike receivers channels self.old.senders }
        ensures ok { OnOk result (self.new ≡ record self.old {
          ports = self.old.ports ++ port ∷ [];
          senders = self.old.senders ++ new_sender (P.id port) (length table.old.rows) (P.receiver port)
              may_answer.items messages ∷ [];
        }) }
        ensures table { OnOk result (table.new ≡ with_row table.old row_len) }
        ensures err { OnErr result (self.new ≡ self.old) }
        ensures unchanged { OnErr result (table.new ≡ table.old) }
    {
        let count = self.senders.len();
        self.waiting.reserve(alloc, count, receivers, channels)?;
        let row = reserve_row(alloc, &mut self.ports, &mut self.senders, table, row_len)?;
        let details = port.details();
        self.senders.push_reserved(OwnedSender {
            owner: details.id,
            row,
            receiver: details.receiver,
            has_value: true,
            loans: 0,
            pendings: 0,
            may_answer,
            messages,
        });
        self.ports.push_reserved(port);
        Ok(())
    }

    /// Adds a port that reuses the sender of the port at an index of those that left: that sender becomes a new one,
    /// its row is made anew, and the port that left is removed from the list. Returns `AllocError` if memory was
    /// refused; nothing has changed then.
    pub fn insert_again(
        &mut self,
        alloc: Global,
        table: &mut Table<HandleEntry>,
        port: P,
        index: usize,
        messages: Sender<B, N, H>,
        may_answer: Vec<u64>,
        row_len: usize,
    ) -> Result<(), AllocError>
        requires again { AreSentAgain self.old.senders messages.queues }
        requires listed { index < length self.old.left }
        requires sender { P.sender port < length self.old.senders }
        requires row { (sender_of (P.sender port) self.old.senders).row < length table.old.rows }
        ensures ok { OnOk result (self.new ≡ record self.old {
          ports = self.old.ports ++ port ∷ [];
          senders = slice_set self.old.senders (P.sender port)
              (new_sender (P.id port) (sender_of (P.sender port) self.old.senders).row (P.receiver port)
              may_answer.items messages);
          left = remove self.old.left index;
        }) }
        ensures renewed { OnOk result (IsRenewed (sender_of (P.sender port) self.old.senders).row row_len table.old
            table.new) }
        ensures err { OnErr result (self.new ≡ self.old) }
        ensures unchanged { OnErr result (table.new ≡ table.old) }
    {
        let details = port.details();
        let row = self.senders[details.sender].row;
        renew_row(alloc, &mut self.ports, table, row, row_len)?;
        self.senders[details.sender] = OwnedSender {
            owner: details.id,
            row,
            receiver: details.receiver,
            has_value: true,
            loans: 0,
            pendings: 0,
            may_answer,
            messages,
        };
        self.ports.push_reserved(port);
        self.left.remove(index);
        Ok(())
    }
}

/// The entry of no handle, which a vacant place of the table has.
const NO_HANDLE: HandleEntry = HandleEntry {
    stage: Stage::Response,
    sender: 0,
    slot: 0,
};

/// Reserves room for one more port and one more sender, and adds a row to the table, which it returns. Returns
/// `AllocError` if memory was refused; the table is unchanged then.
fn reserve_row<P: Drop, S: Drop>(
    alloc: Global,
    ports: &mut Vec<P>,
    senders: &mut Vec<S>,
    table: &mut Table<HandleEntry>,
    row_len: usize,
) -> Result<usize, AllocError>
    ensures ports { ports.new.items ≡ ports.old.items }
    ensures senders { senders.new.items ≡ senders.old.items }
    ensures port_room { OnOk result (vec_len ports.new < vec_capacity ports.new) }
    ensures sender_room { OnOk result (vec_len senders.new < vec_capacity senders.new) }
    ensures row { IfOk result (λ row. row ≡ length table.old.rows) }
    ensures ok { OnOk result (table.new ≡ with_row table.old row_len) }
    ensures err { OnErr result (table.new ≡ table.old) }
{
    ports.reserve(1)?;
    senders.reserve(1)?;
    table.add_row(alloc, row_len, NO_HANDLE)
}

/// Reserves room for one more port, and makes a row of the table anew. Returns `AllocError` if memory was refused;
/// the table is unchanged then.
fn renew_row<P: Drop>(
    alloc: Global,
    ports: &mut Vec<P>,
    table: &mut Table<HandleEntry>,
    row: usize,
    row_len: usize,
) -> Result<(), AllocError>
    requires { row < length table.old.rows }
    ensures ports { ports.new.items ≡ ports.old.items }
    ensures room { OnOk result (vec_len ports.new < vec_capacity ports.new) }
    ensures ok { OnOk result (IsRenewed row row_len table.old table.new) }
    ensures err { OnErr result (table.new ≡ table.old) }
{
    ports.reserve(1)?;
    table.renew_row(alloc, row, row_len, NO_HANDLE)
}

/// Returns whether `number` is at least `low` and below `high`.
#[inline(always)]
fn is_between(low: usize, high: usize, number: usize) -> bool
    ensures { result ≡ is_between low high number }
{
    !(number < low) && number < high
}
