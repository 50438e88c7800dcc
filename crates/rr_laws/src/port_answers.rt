//! Through ports, too, responses reach the request that they answer, once and in order.
ghost use Rattle.rr_protocol.specs.AnswerRule.{KeepsAnswerRule};
ghost use Rattle.rr_laws.specs.PortHistory.{HoldsOfPortHistories};

/// After any calls of ports on an empty hub, whose requests and responses have types of their own, each response that
/// a request received was loaned from an active request of that request and then sent; no response was received
/// twice; and a request has received from each server a subsequence of the responses that the server sent for it.
///
/// If full lists of responses don't overflow, it has received from a server that waits for room a prefix of the
/// responses; and when it receives nothing, it has received everything that such a server sent for it, unless the
/// server was released.
pub fn port_answer_rule<Q, QH: Default, P, PH: Default, K>()
    ensures { HoldsOfPortHistories Q P {K = K} QH.is_default PH.is_default
        (λ limits history. KeepsAnswerRule limits history) }
{}
