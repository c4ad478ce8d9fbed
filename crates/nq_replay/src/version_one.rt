//! Schedules of version 1 have journals of version 1. The law stands on a function with an empty body, whose clause is the law and
//! whose proof stands in `proofs/`.

ghost use Rattle.nq_replay.specs.Versions.{FirstTellsItsRuns};

/// After every schedule within skew whose calls and boots version 1 has, the journal has entries of version 1 alone: no file gets
/// another length or is taken away, and each boot tells the longest term 60.
pub fn version_one_tells_its_runs()
    ensures { FirstTellsItsRuns }
{}
