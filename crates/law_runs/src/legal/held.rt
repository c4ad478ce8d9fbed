//! Kept blocks are held.

ghost use Rattle.law_runs.specs.HeldMet.{HeldAreMet};
ghost use Rattle.nq_model.specs.laws.BlocksAreHeld.{KeptBlocksAreHeldInEveryRun};

/// After every schedule within skew, over all crashes, each block of each kept file has the value of the last write on it, by
/// place, that went through or was stored and that no change of the length cut after it, or 0; and a file has the length that
/// the last such change says.
pub fn kept_blocks_are_held_in_every_run()
    ensures { KeptBlocksAreHeldInEveryRun }
{}

/// There is such a schedule, after which a block of a kept file has the value of a write that was delayed and stored, and the
/// file's length was changed.
pub fn held_are_met()
    ensures { HeldAreMet }
{}
