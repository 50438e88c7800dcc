//! Tests of ports that threads share. What only a test shows, and the test that shows it:
//!
//! - Each call of shared ports can succeed, and a refused send gives its message back: of the typed family
//!   `scenes::threads_make_each_call_and_exchange_numbers`, of slices
//!   `slices::two_threads_exchange_slices_in_each_form`.
//! - Two threads wait for each other, beside a server that leaves; a time ends a receive: the same.
//! - Each change that may end a wait, and a close, wakes the thread that waits, within a second; a send that is
//!   refused at a full queue gives its message back: `wakes::each_change_wakes_who_waits_for_it`.
//! - Claims and seats have no bytes: `scenes::claims_and_seats_have_no_bytes`.
mod calls;
mod exchange;
mod scenes;
mod slices;
mod wakes;
mod worker;
