//! A hub with the history of its calls.
ghost use Rattle.std.specs.Prelude.{◌≡◌, ◌≢◌, ℕ, ◌+◌, ◌*◌, ◌^◌, ◌<◌, ◌≤◌, [], ◌∷◌, ◌++◌, IfSome, IfNone, length, IfOk, OnErr};
ghost use Rattle.rr_protocol.specs.AnswerRule.{KeepsAnswerRule};
ghost use Rattle.rr_locked.specs.Sums.{worth};
ghost use Rattle.rr_locked.specs.Receipts.{receipt, opening_number, history_numbers};
ghost use Rattle.rr_locked.specs.Books.{IsLegal, CreatesBook, OpensBook};

use crate::hub_command::{HubCommand, HubReply, HubRunner};
use crate::opening::Opening;
use crate::receipt::Receipt;
use crate::seat::Seat;
use crate::sums::add_for;
use rr_protocol::{HubCreateError, Limits, Reply, UniqueNodeId};
use std::alloc::Global;
use std::marker::Model;
use std::sync::ledger::{self, Blank, Ledger, Share};

/// The most seats that a book makes.
pub const MOST_SEATS: u64 = 1_048_576;

/// The number of parts of a book's blank: one for each seat, one for the opening, and one that the book keeps.
pub const PARTS: u64 = MOST_SEATS + 2;

/// A hub of numbers with the history of its calls. Contracts see its limits, its node id, the history and the number
/// of seats made.
///
/// Its history is a run of the message machine at every moment. Each call waits for nobody. Not in iceoryx2.
///
/// # Examples
///
/// Makes a book with a client, and returns how many calls it has noted (`rr_test_runs::tests::hubs::examples`):
///
/// ```
/// ghost use Rattle.std.specs.Prelude.{◌≡◌};
///
/// use rr_locked::{Book, CREATE_CLIENT};
/// use rr_protocol::{Limits, UniqueNodeId};
/// use std::alloc::Global;
/// use std::sync::ledger::{Blank, Ledger};
/// use std::test::Fail;
///
/// fn noted<L: Ledger>(alloc: Global, blank: Blank) -> Result<usize, Fail>
///     requires name { blank.name ≡ L.name }
///     requires parts { blank.parts ≡ L.parts }
///     requires many { blank.parts ≡ 1048578 }
/// {
///     let mut book = Book::<L>::new(alloc, Limits::SMALLEST, UniqueNodeId(0), blank)?;
///     let mut seat = book.seat().ok_or("no seat")?;
///     let _ = book.apply(&mut seat, CREATE_CLIENT);
///     Ok(book.history().len())
/// }
/// ```
#[derive(Drop)]
pub struct Book<L: Ledger> {
    history: Vec<(HubCommand, HubReply)>,
    made: u64,
    runner: HubRunner,
    limits: Limits,
    node_id: UniqueNodeId,
    tokens: ledger::Book<L>,
    rest: Share<L>,
    alloc: Global,
}

impl<L: Ledger> Model for Book<L> {
    ghost use Rattle.rr_locked.specs.Books.{Log, log, IsKept};

    ghost Value = { Log };

    ghost view = { λ b. log b.limits b.node_id.0 b.history.items b.made };

    ghost invariant = { λ b. IsKept b.runner b.limits b.node_id.0 b.history.items b.made b.tokens.total b.rest.parts
        b.rest.amount L.parts };
}

impl<L: Ledger> Book<L> {
    /// Makes a book with an empty history, and its opening.
    pub(crate) fn open(
        alloc: Global,
        limits: Limits,
        node_id: UniqueNodeId,
        blank: Blank,
    ) -> Result<(Book<L>, Opening<L>), HubCreateError>
        requires name { blank.name ≡ L.name }
        requires parts { blank.parts ≡ L.parts }
        requires many { blank.parts ≡ 1048578 }
        ensures book { OpensBook limits node_id.0 (λ opened. opened.0) result }
        ensures opening { IfOk result (λ opened. (opened.1.limits ≡ limits) × (opened.1.node_id ≡ node_id)) }
    {
        let runner = HubRunner::new(alloc, limits, node_id)?;
        let (mut tokens, mut rest) = blank.open::<L>();
        let mut share = rest.split_off(1, 0);
        add_for(&mut tokens, &mut share, &(limits, node_id));
        let book = Book {
            history: Vec::new(alloc),
            made: 0,
            runner,
            limits,
            node_id,
            tokens,
            rest,
            alloc,
        };
        Ok((
            book,
            Opening {
                limits,
                node_id,
                share,
            },
        ))
    }

    /// Makes a book over a hub without ports, with an empty history. The blank must have `PARTS` parts, and is
    /// consumed even on an error. Takes no memory, so it never returns `OutOfMemory`. Not in iceoryx2.
    ///
    /// # Errors
    ///
    /// - `ZeroLimit` if a limit is below its least value.
    /// - `LimitsTooLarge` if a worst-case size overflows a `usize`.
    pub fn new(
        alloc: Global,
        limits: Limits,
        node_id: UniqueNodeId,
        blank: Blank,
    ) -> Result<Book<L>, HubCreateError>
        requires name { blank.name ≡ L.name }
        requires parts { blank.parts ≡ L.parts }
        requires many { blank.parts ≡ 1048578 }
        ensures { CreatesBook limits node_id.0 result }
    {
        Ok(Book::open(alloc, limits, node_id, blank)?.0)
    }

    /// Returns the limits that the book was made with.
    pub fn limits(&self) -> Limits
        ensures { result ≡ self.now.limits }
    {
        self.limits
    }

    /// Returns the node id that the book was made with.
    pub fn node_id(&self) -> UniqueNodeId
        ensures { result.0 ≡ self.now.node_id }
    {
        self.node_id
    }

    /// Returns how many seats were made.
    pub fn seats_made(&self) -> u64
        ensures { result ≡ self.now.made }
    {
        self.made
    }

    /// Returns the calls with their replies. They are a run of the message machine from the empty hub, and keep the
    /// answer rule: a response reaches only the request that it answers, at most once, and in the order in which its
    /// server sent it.
    pub fn history(&self) -> &[(HubCommand, HubReply)]
        ensures history { result.now ≡ self.now.history }
        ensures legal { IsLegal self.now.limits self.now.node_id result.now }
        ensures answer_rule { KeepsAnswerRule self.now.limits result.now }
    {
        self.history.as_slice()
    }

    /// Makes a seat without receipts. Returns `None` if `MOST_SEATS` seats were made; nothing has changed then.
    pub fn seat(&mut self) -> Option<Seat<L>>
        ensures some { IfSome result (λ s. (s ≡ []) × (self.new ≡ record self.old { made = self.old.made + 1 })) }
        ensures none { IfNone result ((self.new ≡ self.old) × (self.old.made ≡ 1048576)) }
        ensures full { self.old.made ≡ 1048576 → result ≡ None }
    {
        if self.made == MOST_SEATS {
            return None;
        }
        let share = self.rest.split_off(1, 0);
        self.made += 1;
        Some(Seat::new(self.alloc, share))
    }

    /// Carries out a command, and returns its reply.
    ///
    /// Appends the command and the reply to the history, and with their place in it to the seat. If there is no
    /// memory for them, or the runner finds none, returns `NoMemory`, and neither the book nor the seat has changed.
    /// Takes constant time in addition to the command's own, amortised over the growth of both lists. Not in
    /// iceoryx2.
    pub fn apply(&mut self, seat: &mut Seat<L>, command: HubCommand) -> HubReply
        ensures refused { result ≡ Reply.NoMemory → (self.new ≡ self.old) × (seat.new ≡ seat.old) }
        ensures book { result ≢ Reply.NoMemory → self.new
            ≡ record self.old { history = self.old.history ++ (command, result) ∷ [] } }
        ensures seat { result ≢ Reply.NoMemory → seat.new
            ≡ seat.old ++ receipt (length self.old.history) command result ∷ [] }
    {
        let place = self.history.len() as u64;
        if seat.next > place
            || self.history.reserve(1).is_err()
            || seat.receipts.reserve(1).is_err()
        {
            return Reply::NoMemory;
        }
        let reply = self.runner.apply(command);
        if let Reply::NoMemory = &reply {
            return Reply::NoMemory;
        }
        let Ok(kept) = reply.copied(self.alloc) else {
            return Reply::NoMemory;
        };
        let Ok(shown) = reply.copied(self.alloc) else {
            return Reply::NoMemory;
        };
        let receipt = Receipt {
            place,
            command,
            reply: shown,
        };
        add_for(&mut self.tokens, &mut seat.share, &receipt);
        self.history.push_reserved((command, kept));
        seat.receipts.push_reserved(receipt);
        seat.next = place + 1;
        reply
    }

    /// Proves the count of a share that has every part except the book's. Changes nothing.
    pub(crate) fn settle(&mut self, all: Share<L>)
        requires { 0 < all.parts }
        ensures same { self.new ≡ self.old }
        ensures seats { self.new.made ≤ 1048576 }
        ensures few { length self.new.history < 2 ^ 64 }
        ensures whole { all.parts ≡ self.old.made + 1 → all.amount
            ≡ worth 84 (opening_number self.old.limits self.old.node_id ∷ history_numbers 0 self.old.history) }
    {
        let mut all = all;
        let parts = MOST_SEATS + 1 - self.made;
        self.rest.give(&mut all, parts, 0);
        self.tokens.audit(&mut all);
        all.give(&mut self.rest, parts, 0);
    }
}
