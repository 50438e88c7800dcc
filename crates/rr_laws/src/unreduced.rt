//! A pool of the worst-case size never runs dry.
ghost use Rattle.rr_laws.specs.Bound.{HoldsOfRuns};
ghost use Rattle.rr_laws.specs.Unreduced.{FindsMemory, FindsChannel};

/// After any run from an empty hub, no loan of up to the initial slice length from a pool of the worst-case size is
/// answered with `OutOfMemory`, and a loan of a request that is not refused finds a free channel, whatever the pool's
/// size.
pub fn unreduced_pool<T: Default, H: Default, K>()
    ensures memory { HoldsOfRuns {K = K} T.is_default H.is_default
        (λ limits s. FindsMemory T.is_default H.is_default limits s) }
    ensures channel { HoldsOfRuns {K = K} T.is_default H.is_default (λ limits s. FindsChannel s) }
{}
