//! Cached reads.

ghost use Rattle.nq_model.specs.laws.CachedReadsChangeLittle.{CachedReadsChangeNothingElse};
ghost use Rattle.nq_laws.specs.CachedReadsMet.{IsReadySometime};
ghost use Rattle.nq_model.specs.laws.CachedReadsAreAtOnce.{CachedAtOnceInEveryRun};

/// After every schedule a read or fetch of what a client has, under a lease that runs by its own clock, is answered in its
/// own step and sends no packet, where no other call of that client is under way (Macklem 1994).
pub fn cached_at_once_in_every_run()
    ensures { CachedAtOnceInEveryRun }
{}

/// The step of such a read changes its client's count of calls, the mark that its lease was used and the order of its clean
/// blocks, and adds three entries to the journal; all else in the world is as it was.
pub fn cached_reads_change_nothing_else()
    ensures { CachedReadsChangeNothingElse }
{}

/// There is a schedule after which a client can read so.
pub fn cached_at_once_is_met()
    ensures { IsReadySometime }
{}
