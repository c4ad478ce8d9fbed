//! The ends of writing leases.

ghost use Rattle.nq_model.specs.laws.EndingsComeLate.{EndingsComeLate};
ghost use Rattle.law_runs.specs.EndingsMet.{EndsSometime};

/// After every schedule within skew each end of a writing lease in silence comes late enough in the journal: write slack after
/// the lease's end, after the last write that was heard and after each store, and skew and slack after the term of the last
/// grant. And each end of a recovery comes late enough for each caching lease of the boot that served last (Macklem 1994, write
/// slack and recovery).
pub fn endings_come_late_in_every_run()
    ensures { EndingsComeLate }
{}

/// There are such schedules: after one a writing lease ended in silence, and after another one a recovery ended that came late
/// enough for a lease of the boot that served last before.
pub fn endings_are_met()
    ensures { EndsSometime }
{}
