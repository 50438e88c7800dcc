//! The round-robin cursors of receivers.
ghost use Rattle.std.specs.Prelude.{◌≡◌, ◌≤◌, ◌+◌, ◌<◌, ◌^◌, [], OnErr, OnOk, length};
ghost use Rattle.rr_sender.specs.Turns.{HasTurn, turn_at};

use std::alloc::{AllocError, Global};

/// The round-robin cursors: for each receiver and channel, the sender to poll first, which is the one after the
/// sender served last. A receive may take from any sender with an entry, so no contract of a call mentions the
/// cursors.
#[derive(Drop)]
pub struct Turns {
    pub rows: Vec<Vec<usize>>,
}

impl Turns {
    /// Makes cursors for no receiver. Takes no memory.
    pub fn new(alloc: Global) -> Self
        ensures { result.rows.items ≡ [] }
    {
        Turns {
            rows: Vec::new(alloc),
        }
    }

    /// Sets a receiver's cursors to the first sender, on each of its channels.
    ///
    /// # Errors
    ///
    /// - `AllocError` if memory was refused; nothing has changed then.
    pub fn begin(
        &mut self,
        alloc: Global,
        receiver: usize,
        channels: usize,
    ) -> Result<(), AllocError>
        ensures ok { OnOk result (length self.old.rows.items ≤ length self.new.rows.items) }
        ensures err { OnErr result (self.new.rows.items ≡ self.old.rows.items) }
    {
        let row = vec![in alloc; 0; channels]?;
        if receiver < self.rows.len() {
            self.rows[receiver] = row;
            return Ok(());
        }
        self.rows.push(row)?;
        Ok(())
    }

    /// Returns the cursor of a receiver on a channel, and 0 if none is kept.
    pub fn at(&self, receiver: usize, channel: usize) -> usize
        ensures { result ≡ turn_at self.now receiver channel }
    {
        match self.rows.get(receiver) {
            Some(row) => match row.get(channel) {
                Some(turn) => *turn,
                None => 0,
            },
            None => 0,
        }
    }

    /// Sets the cursor of a receiver on a channel. Does nothing if it has no cursor.
    pub fn set(&mut self, receiver: usize, channel: usize, turn: usize)
        ensures { HasTurn self.old receiver channel → turn_at self.new receiver channel ≡ turn }
    {
        if receiver < self.rows.len() && channel < self.rows[receiver].len() {
            self.rows[receiver][channel] = turn;
        }
    }
}
