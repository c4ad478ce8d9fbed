//! What a chained lease tells of its file.

ghost use Rattle.nq_model.specs.laws.ChainedLeasesKnow.{ChainedLeasesKnowTheFile};
ghost use Rattle.law_runs.specs.ChainsMet.{ChainsAreMet};

/// After every schedule within skew: where a client holds a caching lease, and the row of its incarnation stands with a chain
/// that began no later than the lease's tag, the row is of at least that kind, the file is kept with the lease's length, and
/// at the revision that the client knows, or one more exactly where its own write was done and it was not told yet. The same
/// holds of each grant that it can still take (Macklem 1994).
pub fn chained_leases_know_the_file_in_every_run()
    ensures { ChainedLeasesKnowTheFile }
{}

/// There is a schedule after which a client can take a chained caching grant, and more events after which it holds that lease
/// over a write of its own that was done: the premises of the law are met.
pub fn chains_are_met()
    ensures { ChainsAreMet }
{}
