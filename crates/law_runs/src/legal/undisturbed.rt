//! What can still be stored is undisturbed, and what can not was fenced.

ghost use Rattle.law_runs.specs.UndisturbedMet.{BoundAndFencedAreMet};
ghost use Rattle.nq_model.specs.laws.WritesAreUndisturbed.{DelayedWritesAreUndisturbed, UnsavedFilesAreBoundOrFenced};

/// After every schedule within skew, a file with delayed writes at a client is held for writing; and the client's row stands and
/// the file is kept at the revision that is due, or these writes can not be stored any more, by the file's revision, by a later
/// boot or because the file is kept no more, and the entry that ended the lease stands in the journal, late enough (Macklem
/// 1994).
pub fn unsaved_files_are_bound_or_fenced_in_every_run()
    ensures { UnsavedFilesAreBoundOrFenced }
{}

/// After every schedule within skew, since the first of the delayed writes that a client of a bound file has, and since the
/// first that an open push covers which is not fenced, nobody else wrote, read or stored on the file, nothing went through on
/// it, and its length stayed (Gray and Cheriton 1989; Macklem 1994).
pub fn delayed_writes_are_undisturbed_in_every_run()
    ensures { DelayedWritesAreUndisturbed }
{}

/// There is such a schedule, after which a client has delayed writes of a bound file, none of them stored or lost yet; and a
/// longer one, after which it still has them, and they can not be stored any more.
pub fn bound_and_fenced_are_met()
    ensures { BoundAndFencedAreMet }
{}
