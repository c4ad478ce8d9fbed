//! What becomes of delayed writes.

ghost use Rattle.nq_model.specs.laws.WritesAreAccounted.{AccountedInEveryRun, EachHasItsFateInEveryRun, WaitingAreUnsavedInEveryRun};
ghost use Rattle.law_runs.specs.FatesMet.{HasEachFate};

/// After every schedule within skew the journal accounts for its delayed writes: no delayed write is covered by two entries,
/// so none is both stored and lost and none is stored twice, and each loss is of one write at least.
pub fn writes_are_accounted_in_every_run()
    ensures { AccountedInEveryRun }
{}

/// After every schedule within skew each delayed write of a running incarnation that was neither stored nor found lost lies
/// within a dirty entry or the push under way of its client, of its file and block, whose numbers enclose it.
pub fn waiting_writes_are_unsaved_in_every_run()
    ensures { WaitingAreUnsavedInEveryRun }
{}

/// After every schedule within skew each delayed write is stored, lost, ended by a restart of its host, or waits: then it is
/// unsaved at the running client of its very incarnation. There is no other fate.
pub fn each_write_has_its_fate_in_every_run()
    ensures { EachHasItsFateInEveryRun }
{}

/// There is such a schedule, after which one delayed write was stored, a second was lost, a third ended as its host started
/// again, and a fourth waits in a dirty entry of the incarnation that runs.
pub fn each_fate_is_met()
    ensures { HasEachFate }
{}
