//! Each ok has its deed.

ghost use Rattle.law_runs.specs.DeedsMet.{DeedsAreMet};
ghost use Rattle.nq_model.specs.laws.OksHaveTheirDeeds.{OksHaveTheirDeedsInEveryRun};

/// After every schedule within skew the deed of each ok stands before it. To a `write` or `put`: a W of its call with that block
/// and value. To a `resize` or `remove`: a Z with that length. To a `read` or `fetch`: an R with that value, from the cache or in
/// the packet that the answer names.
pub fn oks_have_their_deeds_in_every_run()
    ensures { OksHaveTheirDeedsInEveryRun }
{}

/// There is such a schedule, after which a `write`, a `put` and a `resize` were answered ok, and a `read` from the cache and one by
/// the server.
pub fn deeds_are_met()
    ensures { DeedsAreMet }
{}
