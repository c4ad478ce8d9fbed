//! Rows of the lease table: who waits for them, who is told to give them up, and what who waits has meanwhile. The statements stand in `specs/`,
//! and their proofs in `proofs/`.

ghost use Rattle.nq_laws.specs.AskersAnswered.{AskersShareLong};
ghost use Rattle.nq_laws.specs.NoTagIsLater.{NoTagIsLater, RowNoticesAreHeard};
ghost use Rattle.nq_laws.specs.NoticesAreHeard.{NoticesAreHeard};
ghost use Rattle.nq_laws.specs.PutOff.{PutOffForRows};
ghost use Rattle.nq_laws.specs.WaitersShare.{WaitersShare};

/// In every state of a server that serves: no request is put off but for a row of another host that conflicts with it, or for the asker's own
/// row, which is to go; and whoever holds such a row is told first, in the same step.
pub fn put_off_for_rows()
    ensures { PutOffForRows }
{}

/// Whoever wants a lease on a file of which he has no row, and is put off where the table has room, has a row then that does not let him cache and goes on
/// for the shortest term at least.
pub fn waiters_share()
    ensures { WaitersShare }
{}

/// Whoever wants a lease, where the table has room and he has no row that does not let him cache, has none afterwards either, or one that goes on for the
/// shortest term.
pub fn askers_share_long()
    ensures { AskersShareLong }
{}

/// In every run: where a host has a row of a file, its client's lease on it, the notice that waits for it, each notice of it that was ever sent to the
/// host and each VACATED of it that the host ever sent name no later tag than the row's latest.
pub fn no_tag_is_later()
    ensures { NoTagIsLater }
{}

/// In every run, while the server serves: a client does not ignore a notice that names its row of a file with its latest tag, where it holds no
/// lease on the file, or one that lets it cache and runs.
pub fn notices_are_heard()
    ensures { NoticesAreHeard }
{}

/// In every run, while the server serves: an attached client does not ignore a notice that names its row of a file with its latest tag, whatever
/// lease it holds on the file.
pub fn row_notices_are_heard()
    ensures { RowNoticesAreHeard }
{}
