//! Ports that leave: the last step of each release, and of a send of a response.
pub mod client;
pub mod server;
