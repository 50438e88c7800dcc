//! A whole pool never runs dry, in terms of commands and replies.
ghost use Rattle.rr_laws.specs.History.{HoldsOfFamilies};
ghost use Rattle.rr_laws.specs.Whole.{NeverRunsDry};

/// In any run from an empty hub, no loan of up to the initial slice length is answered with `OutOfMemory`, from a
/// client or from an active request of a server that was created with a pool of the worst-case size.
pub fn whole_pool<T: Default, H: Default, K>()
    ensures { HoldsOfFamilies {K = K} T.is_default H.is_default
        (λ family limits history. NeverRunsDry family limits history) }
{}
