//! A port's live messages are never more than the worst case.
ghost use Rattle.rr_laws.specs.Bound.{HoldsOfRuns, BoundsRequests, BoundsResponses};

/// After any run from an empty hub, each connected client has at most the worst-case number of live requests, and
/// each connected server of live responses.
pub fn bound<T: Default, H: Default, K>()
    ensures requests { HoldsOfRuns {K = K} T.is_default H.is_default (λ limits s. BoundsRequests limits s) }
    ensures responses { HoldsOfRuns {K = K} T.is_default H.is_default (λ limits s. BoundsResponses limits s) }
{}
