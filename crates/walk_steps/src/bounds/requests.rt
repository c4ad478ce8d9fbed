//! One request for each sequence.

ghost use Rattle.walk_steps.specs.RequestsMet.{IsAskedTwice};
ghost use Rattle.nq_model.specs.laws.OneRequestPerSequence.{OneOpenInEveryRun, OneRequestPerSequence, RepliesComeAfter};

/// After every schedule, of each incarnation of a host that ever ran, two packets with requests of one sequence are copies
/// of one packet: the same request under the same number (RFC 1057 section 8; Macklem 1994).
pub fn one_request_per_sequence()
    ensures { OneRequestPerSequence }
{}

/// After every schedule within skew each host has one open request at most, of the kept incarnation with a sequence above
/// the kept one, whether that incarnation runs or not, and copies of it. Where it runs, it is the client's request under way.
/// No incarnation after the kept one has sent a request with a sequence (Macklem 1994).
pub fn one_request_is_open()
    ensures { OneOpenInEveryRun }
{}

/// After every schedule each reply stands in the packets after a request that it answers, and one that a client's request
/// under way can take after the first sending of that request, and no sooner by the server's clock (RFC 1057 section 8;
/// Macklem 1994).
pub fn replies_come_after()
    ensures { RepliesComeAfter }
{}

/// There is such a schedule, after which a request is open that was sent twice; it stays open where its client restarts, and a
/// reply to it can be taken where its first packet arrives.
pub fn requests_are_met()
    ensures { IsAskedTwice }
{}
