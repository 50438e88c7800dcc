//! Which request each channel of a client is open for.
ghost use Rattle.std.specs.Prelude.{◌≡◌, ◌<◌, false, length, replicate, slice_set, IfOk};

use crate::channel_state::RequestId;
use std::alloc::{AllocError, Global};
use std::marker::Model;

/// A channel, which receives the responses to one request.
#[derive(Clone, Copy, Debug, PartialEq, Eq)]
pub enum Channel {
    /// Open for no request.
    Closed,
    /// Open for this request; the flag is whether its disconnect hint is set.
    Open(RequestId, bool),
}

/// The channels of a client, each closed or open for one request.
///
/// No hub of this repository keeps one: it finds a channel's request by the client's pending responses. It is for
/// users who build their own ports on this crate. Replaces what iceoryx2's `Client` and `Server` store for each
/// channel.
#[derive(Debug, Drop)]
pub struct ChannelTable {
    channels: Vec<Channel>,
}

impl Model for ChannelTable {
    ghost use Rattle.std.specs.Prelude.{List};
    ghost use Rattle.rr_slots.specs.declared.channel_table.Channel.{Channel};

    ghost Value = { List Channel };

    ghost view = { λ t. t.channels.items };
}

impl Channel {
    ghost use Rattle.rr_slots.specs.Channels.{closed, hinted, is_open, is_hinted};

    fn closed(self, id: RequestId) -> Channel
        ensures { result ≡ closed id self }
    {
        match self {
            Channel::Closed => Channel::Closed,
            Channel::Open(other, hint) => {
                if other == id {
                    Channel::Closed
                } else {
                    Channel::Open(other, hint)
                }
            }
        }
    }

    fn hinted(self, id: RequestId) -> Channel
        ensures { result ≡ hinted id self }
    {
        match self {
            Channel::Closed => Channel::Closed,
            Channel::Open(other, hint) => Channel::Open(other, hint || other == id),
        }
    }

    fn is_open(self, id: RequestId) -> bool
        ensures { result ≡ is_open id self }
    {
        match self {
            Channel::Closed => false,
            Channel::Open(other, _) => other == id,
        }
    }

    fn is_hinted(self, id: RequestId) -> bool
        ensures { result ≡ is_hinted id self }
    {
        match self {
            Channel::Closed => false,
            Channel::Open(other, hint) => other == id && hint,
        }
    }
}

impl ChannelTable {
    ghost use Rattle.rr_slots.specs.Channels.{closed, hinted, is_open, is_hinted, with_changed_at, is_at};

    /// Makes a table of `channels` closed channels. `Err` if memory was refused.
    pub fn new(alloc: Global, channels: usize) -> Result<Self, AllocError>
        ensures { IfOk result (λ table. table ≡ replicate channels Channel.Closed) }
    {
        let channels = vec![in alloc; Channel::Closed; channels]?;
        Ok(ChannelTable { channels })
    }

    /// Opens a channel for a request, with no hint, whatever it was before.
    pub fn open(&mut self, channel: usize, id: RequestId)
        requires { channel < length self.old }
        ensures { self.new ≡ slice_set self.old channel (Channel.Open id false) }
    {
        self.channels[channel] = Channel::Open(id, false);
    }

    /// Closes a channel if it is open for this request.
    pub fn close(&mut self, channel: usize, id: RequestId)
        requires { channel < length self.old }
        ensures { self.new ≡ with_changed_at self.old channel (closed id) }
    {
        self.channels[channel] = self.channels[channel].closed(id);
    }

    /// Sets the hint of a channel if it is open for this request.
    pub fn hint(&mut self, channel: usize, id: RequestId)
        requires { channel < length self.old }
        ensures { self.new ≡ with_changed_at self.old channel (hinted id) }
    {
        self.channels[channel] = self.channels[channel].hinted(id);
    }

    /// Whether a channel is open for this request.
    pub fn has_state(&self, channel: usize, id: RequestId) -> bool
        requires { channel < length self.now }
        ensures { result ≡ is_at self.now channel (is_open id) }
    {
        self.channels[channel].is_open(id)
    }

    /// Whether a channel is open for this request with its hint set.
    pub fn has_hint(&self, channel: usize, id: RequestId) -> bool
        requires { channel < length self.now }
        ensures { result ≡ is_at self.now channel (is_hinted id) }
    {
        self.channels[channel].is_hinted(id)
    }

    /// Closes every channel.
    pub fn close_all(&mut self)
        ensures { self.new ≡ replicate (length self.old) Channel.Closed }
    {
        close_each(self.channels.as_mut_slice());
    }
}

/// Closes every channel of a slice.
fn close_each(channels: &mut [Channel])
    ensures { channels.new ≡ replicate (length channels.old) Channel.Closed }
{
    for index in 0..channels.len() {
        channels[index] = Channel::Closed;
    }
}
