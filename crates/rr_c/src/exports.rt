//! The exports, in the order of `bindings/c/include/rr.h`.

mod hub;
mod in_place;
mod messages;
mod ports;
mod queries;
mod receives;
mod writes;
