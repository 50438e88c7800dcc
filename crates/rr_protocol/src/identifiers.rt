//! The ids of ports and of their node.
ghost use Rattle.std.specs.Prelude.{◌≡◌};

use std::fmt;

/// The number that the hub gave to a client. It is printed as its number.
#[derive(Clone, Copy, Debug, PartialEq, Eq, PartialOrd, Ord, Hash)]
pub struct UniqueClientId(pub u64);

/// The number that the hub gave to a server. It is printed as its number.
#[derive(Clone, Copy, Debug, PartialEq, Eq, PartialOrd, Ord, Hash)]
pub struct UniqueServerId(pub u64);

/// The id of the hub's node, chosen by the hub's creator. The hub never reads it. It is printed as its number.
#[derive(Clone, Copy, Debug, PartialEq, Eq, PartialOrd, Ord, Hash)]
pub struct UniqueNodeId(pub u64);

impl fmt::Display for UniqueClientId {
    fn fmt<W: fmt::Write>(&self, f: &mut fmt::Formatter<W>) -> fmt::Result {
        self.0.fmt(f)
    }
}

impl From<u64> for UniqueClientId {
    ghost from_gives = { λ number id. id.0 ≡ number };

    fn from(number: u64) -> Self {
        UniqueClientId(number)
    }
}

impl fmt::Display for UniqueServerId {
    fn fmt<W: fmt::Write>(&self, f: &mut fmt::Formatter<W>) -> fmt::Result {
        self.0.fmt(f)
    }
}

impl From<u64> for UniqueServerId {
    ghost from_gives = { λ number id. id.0 ≡ number };

    fn from(number: u64) -> Self {
        UniqueServerId(number)
    }
}

impl fmt::Display for UniqueNodeId {
    fn fmt<W: fmt::Write>(&self, f: &mut fmt::Formatter<W>) -> fmt::Result {
        self.0.fmt(f)
    }
}

impl From<u64> for UniqueNodeId {
    ghost from_gives = { λ number id. id.0 ≡ number };

    fn from(number: u64) -> Self {
        UniqueNodeId(number)
    }
}
