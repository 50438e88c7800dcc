//! The identity of a hub, as a type parameter.
use std::marker::Brand;

/// The identity of a hub: the log of its calls, its limits and its node id.
///
/// It is a parameter of the types of hubs and seats, so a seat of one hub can't be used at another. A caller picks
/// `Brand`, and says in its proof which hub that is. Not in iceoryx2.
pub trait Naming: Send + Sync {
    ghost use Rattle.std.specs.Prelude.{ℕ};
    ghost use Rattle.rr_protocol.specs.declared.limits.Limits.{Limits};

    /// The log of its calls.
    ghost log_id: { ℕ };

    /// Its limits.
    ghost limits: { Limits };

    /// Its node id.
    ghost node_id: { ℕ };
}

impl Naming for Brand {
    ghost use Rattle.rr_protocol.specs.Limits.{default_limits};

    ghost log_id = { 0 };

    ghost limits = { default_limits };

    ghost node_id = { 0 };
}
