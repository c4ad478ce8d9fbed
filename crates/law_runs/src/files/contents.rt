//! One content for each revision.

ghost use Rattle.nq_model.specs.laws.RevisionsHaveOneContent.{CleanBlocksHaveTheirRevisionInEveryRun, DoneRequestsAreChangesInEveryRun};
ghost use Rattle.nq_model.specs.laws.RevisionsHaveOneContent.{FilesAreTheirHistoryInEveryRun, PushesCarryTheirLastWriteInEveryRun};
ghost use Rattle.law_runs.specs.ContentsMet.{IsContentSometime};

/// After every schedule within skew, over all crashes, the revision of each kept file is the number of its changes in the
/// journal, and its blocks are what the changes made of zeros of its first length: a write that goes through sets its block,
/// stored writes set theirs to the value of the last of them, another length cuts or adds zeros, a fence changes nothing
/// (Macklem 1994).
pub fn files_are_their_history_in_every_run()
    ensures { FilesAreTheirHistoryInEveryRun }
{}

/// After every schedule within skew each clean block of a client has the value that its file had there at the revision that
/// the client knows, which was reached, and a push under way is over that revision. What a reply tells that a client's
/// request under way can take is true: a block has the value of the reply's revision, a grant has that revision and its
/// length, and a write that was done has set its block and left the others (Macklem 1994).
pub fn clean_blocks_have_their_revision_in_every_run()
    ensures { CleanBlocksHaveTheirRevisionInEveryRun }
{}

/// After every schedule within skew, where a client's WRITE or RESIZE under way was decided and done, its kept value names a
/// change of the file that is that request's own entry, and the content after it is the one before with that change; a push
/// has come over the revision before (Macklem 1994).
pub fn done_requests_are_changes_in_every_run()
    ensures { DoneRequestsAreChangesInEveryRun }
{}

/// After every schedule within skew the delayed writes of each client, and those in each push that was ever sent, have the
/// value of the last of them (Macklem 1994).
pub fn pushes_carry_their_last_write_in_every_run()
    ensures { PushesCarryTheirLastWriteInEveryRun }
{}

/// There is such a schedule, after which a push under way was done and its reply can be taken; once it was, its block is
/// clean.
pub fn contents_are_met()
    ensures { IsContentSometime }
{}
