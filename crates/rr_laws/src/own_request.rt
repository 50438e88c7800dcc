//! A response is received by the request that it answers, and once.
ghost use Rattle.rr_protocol.specs.AnswerRule.{AnswersTheRequest, ReceivesOnce};
ghost use Rattle.rr_laws.specs.History.{HoldsOfHistories};

/// After any run from an empty hub, each response that a request received was loaned from an active request of that
/// request and then sent, and no response was received twice.
pub fn own_request_once<T: Default, H: Default, K>()
    ensures own { HoldsOfHistories {K = K} T.is_default H.is_default (λ limits history. AnswersTheRequest history) }
    ensures once { HoldsOfHistories {K = K} T.is_default H.is_default (λ limits history. ReceivesOnce history) }
{}
