//! Losses of delayed writes.

ghost use Rattle.law_runs.specs.ExcusesMet.{IsLostSometime};
ghost use Rattle.nq_model.specs.laws.LossesAreExcused.{LossesAreExcused, UnsavedFilesAreBoundOrExcused};

/// After every schedule within skew each loss is excused: an entry that ends its client's writing lease on the file, a silent end
/// of it or the end of a recovery, stands after every write that the loss covers and before the loss, and comes late enough
/// (Macklem 1994, write slack and recovery).
pub fn losses_are_excused_in_every_run()
    ensures { LossesAreExcused }
{}

/// After every schedule within skew each file with delayed writes is bound at its client, which holds it for writing while its
/// own row stands and lets it write, with a chain that began no later than the tag that is held; or the loss of each of its
/// delayed writes would be excused (Macklem 1994).
pub fn unsaved_files_are_bound_or_excused_in_every_run()
    ensures { UnsavedFilesAreBoundOrExcused }
{}

/// There is a schedule after which a file has delayed writes, and after further events there is a loss.
pub fn excuses_are_met()
    ensures { IsLostSometime }
{}
