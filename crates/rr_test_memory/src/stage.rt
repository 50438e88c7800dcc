//! The stage on which stories run.
use rr_protocol::Limits;
use std::fmt::Debug;
use std::io::{self, Write};

/// Three clients, two servers, three loaned and three active requests, three queued and one borrowed response.
pub(crate) const LIMITS: Limits = Limits {
    max_clients: 3,
    max_servers: 2,
    max_loaned_requests: 3,
    max_active_requests_per_client: 3,
    max_response_buffer_size: 3,
    client_expired_connection_buffer: 1,
    server_expired_connection_buffer: 1,
    ..Limits::SMALLEST
};

/// The output, and the group and name of the only story to run, if not all run.
#[derive(Drop)]
pub(crate) struct Stage<'a, W> {
    pub(crate) output: W,
    pub(crate) only: Option<(&'a str, &'a str)>,
}

impl<W: Write> Stage<'_, W> {
    /// Returns whether this story runs.
    pub(crate) fn has(&self, group: &str, name: &str) -> bool {
        match self.only {
            Some((one, other)) => one == group && other == name,
            None => true,
        }
    }

    /// Writes that the call of a story comes next.
    pub(crate) fn call(&mut self, group: &str, name: &str) -> io::Result<()> {
        writeln!(self.output, "call {group} {name}")
    }

    /// Writes the result of a call.
    pub(crate) fn show<T: Debug + Drop>(&mut self, returned: T) -> io::Result<()> {
        writeln!(self.output, "{returned:?}")
    }
}
