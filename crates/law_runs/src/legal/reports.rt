//! Losses and the answers that name them.

ghost use Rattle.law_runs.specs.ReportsMet.{IsLostAndNamed};
ghost use Rattle.nq_model.specs.laws.LossesAreReported.{LossesFitInEveryRun, ReportedInEveryRun};

/// After every schedule the losses that a client has not told yet are the L of its incarnation that no A names, in their
/// order, and none is on the file of a `sync`, `resize` or `remove` under way.
pub fn losses_are_kept_until_named()
    ensures { LossesFitInEveryRun }
{}

/// After every schedule, going on from each L, the first write, put, sync, resize or remove on its file by its incarnation
/// that is not answered busy is answered at once by an A that names it, unless an A before names it; and each name in an A
/// is of an earlier L, which no A before has named.
pub fn losses_are_reported_in_every_run()
    ensures { ReportedInEveryRun }
{}

/// There is such a schedule, after which a loss waits to be named; and the next sync of its file names it.
pub fn losses_are_met()
    ensures { IsLostAndNamed }
{}
