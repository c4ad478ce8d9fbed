//! The lease interval.

ghost use Rattle.walk_steps.specs.IntervalsMet.{IsMet, IsMetInRecovery};
ghost use Rattle.nq_model.specs.laws.LeaseIntervals.{LeaseIntervalInEveryRun};

/// The lease interval is kept after every schedule that is within skew over the longest term of all boots: while a caching
/// lease runs by the clock of its holder, the server has a row that fits it and that ends later by the server's clock, in
/// its table or, while it recovers, in the one with which it served last, which the recovery outlasts. So it is also with
/// each grant that a client can still take (Gray and Cheriton 1989; Macklem 1994).
pub fn lease_interval_in_every_run()
    ensures { LeaseIntervalInEveryRun }
{}

/// There is such a schedule, and a client that holds such a lease after it.
pub fn lease_interval_is_met()
    ensures { IsMet }
{}

/// There is one after which a client holds such a lease while the server recovers.
pub fn lease_interval_is_met_in_recovery()
    ensures { IsMetInRecovery }
{}
