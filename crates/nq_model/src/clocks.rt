//! Clocks.

ghost use Rattle.nq_model.specs.protocol.Skew.{SkewTestIsSound};
ghost use Rattle.nq_model.specs.laws.EachTickIsJudged.{EachTickIsJudged, TellsSkew};

/// A schedule that passes the test of skew is within skew.
pub fn skew_test_is_sound()
    ensures { SkewTestIsSound }
{}

/// The test of skew is exact.
pub fn skew_test_is_exact()
    ensures { TellsSkew }
{}

/// A tick of the server's clock that would break the rule is named by its lowest host, and for it by the part of the
/// schedule with the fewest ticks of its clock.
pub fn each_tick_is_judged()
    ensures { EachTickIsJudged }
{}
