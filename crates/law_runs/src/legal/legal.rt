//! Reads are legal.

ghost use Rattle.nq_model.specs.laws.ReadsAreLegal.{ReadsAreLegalInEveryRun};
ghost use Rattle.law_runs.specs.LegalMet.{ReadsAreMet};

/// After every schedule within skew the journal is legal: each counted read gives the value of the last write before it that
/// stands for it, one that went through, that was stored at any time, or that its own incarnation delayed and did not find lost;
/// and reads and the answers that say ok to them are one for one (Lamport 1986; Macklem 1994).
pub fn reads_are_legal_in_every_run()
    ensures { ReadsAreLegalInEveryRun }
{}

/// There is such a schedule, after which a client has read its own delayed write from its cache, the write was stored, and the
/// client has read it from the server.
pub fn reads_are_met()
    ensures { ReadsAreMet }
{}
