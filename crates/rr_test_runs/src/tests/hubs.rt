//! Tests of hubs of commands that threads share, and of books. What only a test shows, and the test that shows it:
//!
//! - Limits of a hub are refused by name: `threads::limits_of_nothing_and_of_too_much_are_refused`.
//! - Threads get different numbers: `threads::two_threads_get_two_numbers`. `rr_bench` shows that their exchanges
//!   have the right sums.
//! - A locked hub finds memory for its receipts and its history. A client in the place of another gets none of its
//!   responses: `examples::seats_and_book_keep_what_two_seats_call`. A book makes 2^20 seats:
//!   `examples::a_book_makes_so_many_seats`.
//! - Workers in two threads get the right sum, and each gives up alone:
//!   `examples::two_workers_sum_the_answers_and_each_gives_up_alone`.
//!
//! The scripts show the replies of submissions and the effects of releases: either hub carries out commands by the
//! same runner, and it is proved that a submission is one call of it. No test runs `laws`: it is proved.
mod examples;
mod laws;
mod rows;
mod threads;
