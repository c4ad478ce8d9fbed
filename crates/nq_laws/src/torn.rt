//! Torn runs: the server stops in the middle of an event, at any moment of it, and boots again over what is kept. Each law stands on
//! a function with an empty body, whose clause is the law and whose proof stands in `proofs/`.

ghost use Rattle.nq_laws.specs.TornHeadline.{EachStopTears, FirstBootTears, OneIsTorn, TornAtEveryMoment};
ghost use Rattle.nq_laws.specs.TornMet.{PushesAreTorn};
ghost use Rattle.nq_laws.specs.TornRuns.{TornRunsAreRuns};

/// Whatever a stop within the server's handling of an event leaves, what is kept as before the event or as after it, the boot over it
/// is that of a torn run. The run is that of a schedule, however often it is torn: the event is left out and a crash follows, or the
/// event comes, a crash follows, and the packets of the event are never delivered. So a stopped tick that is left out did not come, and
/// for a stopped boot there is one crash in place of two. Nothing rests on the packets that were never sent, but that their numbers are
/// taken, nor on the table with which the last boot served, which a server that boots over a disk does not know.
pub fn torn_runs()
    ensures tears { EachStopTears }
    ensures first { FirstBootTears }
    ensures one { OneIsTorn }
    ensures runs { TornRunsAreRuns }
{}

/// The headline holds at every moment of a torn run whose schedule keeps to the bounds and is within skew. What its answers say was so
/// between each call and its answer, in the run of its schedule, whose journal is the same.
pub fn torn_headline()
    ensures { TornAtEveryMoment }
{}

/// A push is torn before its commit, and after it: both come to a good end.
pub fn torn_runs_are_met()
    ensures { PushesAreTorn }
{}
