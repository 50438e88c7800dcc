//! The program `rr`: scripts, whose lines are commands of a runner; the replies of least pools; and exchanges of two
//! threads.
#![tactic(auto)]

mod least;
mod line;
mod lines;
mod output;
mod program;
mod reply_text;
mod script;
mod source;
mod stop;
mod two_workers;
mod words;

pub use program::{ended, serve, serve_alone};
pub use stop::Stop;
pub use two_workers::exchange;
