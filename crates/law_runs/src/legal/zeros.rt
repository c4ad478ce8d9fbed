//! What no write has touched is zeros. The law stands on a function with an empty body, whose clause is the law and whose proof
//! stands in `proofs/`.

ghost use Rattle.nq_model.specs.laws.UntouchedAreZeros.{UntouchedAreZerosInEveryRun};

/// After every schedule each block of a kept file that no write that went through and no stored write has touched, since its file
/// last got it, is zeros, all 4096 bytes of it. No clock matters to it.
pub fn untouched_blocks_are_zeros_in_every_run()
    ensures { UntouchedAreZerosInEveryRun }
{}
