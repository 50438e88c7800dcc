//! The hub of bytes for C. `bindings/c/include/rr.h` declares the functions of `exports`, and states the obligations
//! of a caller.
//!
//! Each export's clause is that of the call of `rr_bytes`, plus the returned code and the values written through
//! pointers.
#![tactic(auto)]

mod answers;
mod exports;
mod held;
mod loose;
mod messages;
mod opening;
mod settings;
