//! What a pool never does.

ghost use Rattle.nq_stage.specs.PoolLaws.{AnswersWithItsBoot};

/// A pool never answers with a body of an earlier boot, of another incarnation or of another write: the body of a WRITE that
/// it rebuilds came in the newest STAGE of that very write since the pool's boot, and the verifier is that boot.
pub fn answers_with_its_boot()
    ensures { AnswersWithItsBoot }
{}
