//! Responses are received in the order in which they were sent, and from a server that waits for room without a gap.
ghost use Rattle.std.specs.Prelude.{◌≡◌, false};
ghost use Rattle.rr_protocol.specs.AnswerRule.{ReceivesInOrder, ReceivesWithoutGap, ReceivesAll};
ghost use Rattle.rr_laws.specs.History.{HoldsOfHistories};

/// After any run from an empty hub, a request has received from each server a subsequence of the responses that the
/// server sent for it.
///
/// If full lists of responses don't overflow, it has received from a server that waits for room a prefix of the
/// responses; and when it receives nothing, it has received everything that such a server sent for it, unless the
/// server was released.
pub fn in_order<T: Default, H: Default, K>()
    ensures in_order { HoldsOfHistories {K = K} T.is_default H.is_default (λ limits history. ReceivesInOrder history) }
    ensures without_gap { HoldsOfHistories {K = K} T.is_default H.is_default
        (λ limits history. limits.enable_safe_overflow_for_responses ≡ false → ReceivesWithoutGap history) }
    ensures all { HoldsOfHistories {K = K} T.is_default H.is_default
        (λ limits history. limits.enable_safe_overflow_for_responses ≡ false → ReceivesAll history) }
{}
