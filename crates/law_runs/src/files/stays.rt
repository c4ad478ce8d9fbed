//! Files stay until they are removed. Each law stands on a function with an empty body, whose clause is the law and whose proof stands
//! in `proofs/`.

ghost use Rattle.law_runs.specs.Staying.{FilesStayIsMet, FilesStayUntilRemoved};

/// After every schedule, a file that was kept at a moment is kept under its id and name at each later one, unless the journal has a Z
/// between them by which it was removed.
pub fn files_stay_until_removed()
    ensures { FilesStayUntilRemoved }
{}

/// There is a schedule after which a file is still kept that was made before, and one after which it was removed.
pub fn files_stay_is_met()
    ensures { FilesStayIsMet }
{}
