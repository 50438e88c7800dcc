//! The least request pool of a client, shown by a run that needs every slot.
//!
//! Where requests don't overflow, an unreduced pool has `N = s * a + s * a + a + l` slots, for `s` servers, `a`
//! active and `l` loaned requests. This run makes `N` requests live at once:
//!
//! ```text
//! for each of the s servers, which is created then:
//!   a times   SendCopy, Receive, Release of the pending response     held by the server's active request
//!   a times   SendCopy, Release of the pending response              held by the queue to the server
//! a times     SendCopy                                               held by the pending response
//! l times     Loan                                                   held by its handle
//! ```
//!
//! - A request whose pending response was released is dead, but it keeps its slot until a receive of its server drops
//!   it, and the servers make no further receives.
//! - The client skips full queues (`DiscardData`). While a later server is served, the queues to the earlier ones are
//!   full, so only the later server's queue takes the requests that are sent.
//! - A queue takes `a` entries, and a server may hold `a` requests of a client.
//! - Before the queue to a server is filled, the server has received every request queued for it.
//!
//! So with a pool of `n` slots a loan is answered `OutOfMemory` exactly if `n < N`, and the run ends there. With
//! iceoryx2's default configuration `N` is 22: the last reply of `rr least 21` is `error OutOfMemory`, that of
//! `rr least 22` is `loaned 32`.
ghost use Rattle.std.specs.Prelude.{◌≡◌, ◌↔◌, Err, IfOk};
ghost use Rattle.rr_run.specs.declared.least.LeastPoolError.TheVariants.{WrongLimits};
ghost use Rattle.rr_run.specs.Least.{AreWrong, ShowsPool};

use crate::least::filling::Filling;
use rr_protocol::{Command, Limits, NoHandler, Reply};
use std::alloc::Global;
use thiserror::Error;

mod filling;
mod outcome;
mod stop;

/// A command of a list that fills a pool. Its elements and user headers are numbers.
pub type PoolCommand = Command<u64, u64, NoHandler>;

/// A reply to such a command.
pub type PoolReply = Reply<u64, u64>;

/// Why `least_pool` made no list.
#[derive(Clone, Copy, Debug, PartialEq, Eq, Hash, Error)]
pub enum LeastPoolError {
    /// The limits make no hub, or a full queue of requests overflows.
    #[error("WrongLimits")]
    WrongLimits,
    /// There was no memory for a port, the commands or the replies, or the list takes more numbers than a hub has.
    #[error("OutOfMemory")]
    OutOfMemory,
}

/// Returns a list of commands and their replies, which shows whether a request pool of `n` slots is enough.
///
/// They are a run of the typed machine with these limits. The list creates one client, with a pool of `n` slots,
/// clamped to 1 up to the worst case. Then it makes each server hold its maximum of the client's requests and fills
/// the queue to that server; last, the client gets its maximum of pending responses and of loans. A loan of the
/// client is answered `OutOfMemory` exactly if `n` is below the worst case, `max_loaned_requests +
/// max_active_requests_per_client * (1 + 2 * max_servers)`; that reply is then the last one. So no smaller pool is
/// enough. Takes time in proportion to the commands. Not in iceoryx2.
///
/// # Errors
///
/// - `WrongLimits` exactly if the limits make no hub, or full queues of requests overflow.
/// - `OutOfMemory` if there was no memory for a port, the commands or the replies, or if the list takes more numbers
///   than a hub has.
pub fn least_pool(
    alloc: Global,
    limits: &Limits,
    n: usize,
) -> Result<(Vec<PoolCommand>, Vec<PoolReply>), LeastPoolError>
    ensures shows { IfOk result (λ done. ShowsPool limits.now n done.0.items done.1.items) }
    ensures wrong { (result ≡ Err WrongLimits) ↔ AreWrong limits.now }
{
    if limits.enable_safe_overflow_for_requests {
        return Err(LeastPoolError::WrongLimits);
    }
    let mut filling = Filling::new(alloc, *limits, n)?;
    filling.fill_up()?;
    Ok((filling.commands, filling.replies))
}
