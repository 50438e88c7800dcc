//! Creation of stores, clients and servers, each as the message machine creates it.
#![tactic(auto)]

mod client;
mod making;
mod pools;
mod server;

pub use client::create_client;
pub use making::new_store;
pub use server::create_server;
