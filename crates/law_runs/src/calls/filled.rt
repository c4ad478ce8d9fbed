//! Every body repeats one word, in every run. The law stands on a function with an empty body, whose clause is the law and whose
//! proof stands in `proofs/`.

ghost use Rattle.law_runs.specs.FilledMet.{FilledBodiesAreMet};
ghost use Rattle.nq_model.specs.laws.BodiesAreFilled.{BodiesAreFilledInEveryRun};

/// After every schedule whose calls bring filled bodies, each body repeats one word: of the blocks that the server keeps, of every
/// packet that was sent, and of what clients have. So the number in a journal determines all 4096 bytes. No clock matters to it.
pub fn bodies_are_filled_in_every_run()
    ensures { BodiesAreFilledInEveryRun }
{}

/// There is such a schedule, after which the server keeps a block that was written.
pub fn filled_bodies_are_met()
    ensures { FilledBodiesAreMet }
{}
