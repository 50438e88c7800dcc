//! The ports that a receiver lists as left, so that it still receives their messages.
ghost use Rattle.rr_laws.specs.Bound.{HoldsOfRuns};
ghost use Rattle.rr_laws.specs.Left.{IsLeftFit};
ghost use Rattle.rr_laws.specs.Expired.{ExpiredFit};

/// After any run from an empty hub, a connected server lists at most as many clients that left as it has room for,
/// and a connected client at most as many servers. Each is listed once, and has an entry that waits for the listing
/// port. A port that is not connected lists none.
///
/// A listed port was given its number, and is not connected; and no two connected ports have the same number.
pub fn expired_lists<T: Default, H: Default, K>()
    ensures lists { HoldsOfRuns {K = K} T.is_default H.is_default (λ limits s. ExpiredFit s) }
    ensures gone { HoldsOfRuns {K = K} T.is_default H.is_default (λ limits s. IsLeftFit s) }
{}
