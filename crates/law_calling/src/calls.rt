//! Reads that are answered at once.

ghost use Rattle.law_calling.specs.ReadsRun.{ReadsRun};

/// A read that `nq_calling::call_now` answers at once with a block is answered under a lease that runs by the one reading of the clock in its turn, and
/// at the client's time directly behind that turn.
pub fn reads_run()
    ensures { ReadsRun }
{}
