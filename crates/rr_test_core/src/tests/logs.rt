//! A log with two callers.
ghost use Rattle.std.specs.Prelude.{◌≡◌, [], ◌∷◌, ◌++◌, map};
ghost use mathlib.Core.List.{IsPrefix};
ghost use Rattle.rr_log.specs.Entries.{beginning, whole};

use rr_log::{Log, Pen, Seen};

/// Appends an entry by each of two callers, and compares their histories. Returns the pen, whose log has both entries
/// in order.
fn two_entries() -> Pen<u64>
    ensures { map (λ entry. entry.1) result.entries ≡ 3 ∷ 5 ∷ [] }
{
    let (log, mut pen) = Log::open();
    let mut first = log.caller();
    let mut second = log.caller();
    log.append(&mut pen, &mut first, &3);
    log.append(&mut pen, &mut second, &5);
    log.compare(&mut first, &mut second);
    pen
}

#[test]
fn two_callers_add_to_one_log() {
    drop(two_entries());
}

/// Adds an entry of a new caller, which has then seen all entries.
fn added(log: &Log<u64>, pen: &mut Pen<u64>, entry: u64) -> Seen<u64>
    requires { pen.old.log_id ≡ log.now }
    ensures pen { pen.new ≡ whole log.now (pen.old.entries ++ (result.caller, entry) ∷ []) }
    ensures caller { result ≡ beginning log.now result.caller pen.new.entries }
{
    let mut caller = log.caller();
    log.append(pen, &mut caller, &entry);
    caller
}

/// Shows a caller all entries. Promises that they go on from those that it had seen.
fn catch_up(log: &Log<u64>, pen: &mut Pen<u64>, caller: &mut Seen<u64>)
    requires pen { pen.old.log_id ≡ log.now }
    requires caller { caller.old.log_id ≡ log.now }
    ensures all { caller.new.entries ≡ pen.old.entries }
    ensures begins { IsPrefix caller.old.entries caller.new.entries }
{
    log.catch_up(pen, caller);
}

/// Adds an entry of each of two callers, and shows the first one all. Returns the first one, which has seen both
/// entries.
fn seen_by_first() -> Seen<u64>
    ensures { map (λ entry. entry.1) result.entries ≡ 3 ∷ 5 ∷ [] }
{
    let (log, mut pen) = Log::open();
    let mut first = added(&log, &mut pen, 3);
    drop(added(&log, &mut pen, 5));
    catch_up(&log, &mut pen, &mut first);
    first
}

#[test]
fn a_caller_is_shown_what_another_added() {
    drop(seen_by_first());
}
