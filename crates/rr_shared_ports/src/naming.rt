//! The identity of a hub of ports, as a type parameter.
use std::marker::Brand;

/// The identity of a hub of ports: the keeper of its claims, the log of its calls, its limits and its node id.
///
/// It is a parameter of the types of hubs, handles and seats, so a handle of one hub can't be used at another. A
/// caller picks `Brand`, and says in its proof which hub that is. Not in iceoryx2.
pub trait Naming: Send + Sync {
    ghost use Rattle.std.specs.Prelude.{ℕ};
    ghost use Rattle.rr_protocol.specs.declared.limits.Limits.{Limits};

    /// The keeper of its claims.
    ghost keeper_id: { ℕ };

    /// The log of its calls.
    ghost log_id: { ℕ };

    /// Its limits.
    ghost limits: { Limits };

    /// Its node id.
    ghost node_id: { ℕ };
}

impl Naming for Brand {
    ghost use Rattle.rr_protocol.specs.Limits.{default_limits};

    ghost keeper_id = { 0 };

    ghost log_id = { 0 };

    ghost limits = { default_limits };

    ghost node_id = { 0 };
}
