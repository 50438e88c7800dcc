//! The id of a request, as its channel keeps it.
ghost use Rattle.std.specs.Prelude.{◌≡◌, ◌<◌, ◌^◌, ◌↔◌, IsSome, IfSome};

use std::marker::Model;

/// The id of the request for which a channel is open. Contracts see the number.
#[derive(Clone, Copy, Debug, PartialEq, Eq, PartialOrd, Ord, Hash)]
pub struct ChannelState {
    value: u64,
}

/// The id of a request: how many requests its client had loaned before it. iceoryx2's `RequestId`. In a hub's headers
/// an id is a plain `u64`.
pub type RequestId = ChannelState;

impl Model for ChannelState {
    ghost use Rattle.std.specs.Prelude.{ℕ, ◌<◌, ◌^◌};

    ghost Value = { ℕ };

    ghost view = { λ state. state.value };

    ghost invariant = { λ state. state.value < 2 ^ 62 };

    ghost inverse = { λ value. record { value = value } };
}

impl ChannelState {
    /// Returns the state with this value, or `None` if the value is not below `max_value`.
    pub fn new(value: u64) -> Option<Self>
        ensures valid { IsSome result ↔ (value < 2 ^ 62) }
        ensures value { IfSome result (λ state. state ≡ value) }
    {
        if value < Self::max_value() {
            Some(ChannelState { value })
        } else {
            None
        }
    }

    /// The value, which is below `max_value`.
    pub fn value(self) -> u64
        ensures value { result ≡ self }
        ensures valid { result < 2 ^ 62 }
    {
        self.value
    }

    /// The number of values: 2^62.
    pub fn max_value() -> u64
        ensures { result ≡ 2 ^ 62 }
    {
        1 << 62
    }
}
