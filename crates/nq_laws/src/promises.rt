//! The headline.

ghost use Rattle.nq_model.specs.laws.AnswersAreOfTheirCalls.{AnswersAreOfTheirCallsInEveryRun};
ghost use Rattle.nq_model.specs.laws.AnswersHaveCauses.{AnswersHaveCauses};
ghost use Rattle.nq_model.specs.laws.AnswersTellWhatWas.{AnswersTellWhatWas};
ghost use Rattle.nq_model.specs.laws.BusyIsSaidAtOnce.{BusyIsSaidAtOnceInEveryRun};
ghost use Rattle.nq_model.specs.laws.OksHaveTheirDeeds.{OksHaveTheirDeedsInEveryRun};
ghost use Rattle.nq_model.specs.laws.CallsAreOrdered.{OrderedInEveryRun, ReadsAreOfTheirCallInEveryRun};
ghost use Rattle.nq_model.specs.laws.LossesAreExcused.{LossesAreExcused};
ghost use Rattle.nq_model.specs.laws.WritesAreAccounted.{AccountedInEveryRun, EachHasItsFateInEveryRun, WaitingAreUnsavedInEveryRun};
ghost use Rattle.nq_model.specs.laws.BlocksAreHeld.{KeptBlocksAreHeldInEveryRun};
ghost use Rattle.nq_model.specs.laws.CachedReadsAreAtOnce.{CachedAtOnceInEveryRun};
ghost use Rattle.nq_model.specs.laws.FullHasItsCause.{FullHasItsCause};
ghost use Rattle.nq_model.specs.laws.Headline.{AtEveryMoment};
ghost use Rattle.nq_model.specs.laws.ReadsAreLegal.{ReadsAreLegalInEveryRun};
ghost use Rattle.nq_model.specs.laws.RefusalsAreOfTheirCalls.{RefusalsAreOfTheirCallsInEveryRun};
ghost use Rattle.nq_model.specs.laws.LossesAreNamed.{LossesAreNamedInEveryRun};
ghost use Rattle.nq_model.specs.laws.LossesAreReported.{ReportedInEveryRun};
ghost use Rattle.nq_model.specs.laws.UntouchedAreZeros.{UntouchedAreZerosInEveryRun};
ghost use Rattle.nq_model.specs.laws.OksAreKept.{SynchronizedInEveryRun};

/// For every schedule of calls, losses, repeats, reorderings, ticks within skew, restarts and crashes, the journal keeps each
/// client's order; each answer is of its call, in a form that the call can have, and the deed of each ok stands before it; what
/// an ok tells of files, and why an answer refuses, was so between the call and the answer; every successful read gives the
/// latest standing write before it; missing are only delayed writes of clients that restarted or were cut off beyond write slack,
/// which survivors report by name; synchronized writes that were answered ok never are; and a cached read under a live lease is
/// answered at once. So it is at every moment of the schedule (Macklem 1994; Gray and Cheriton 1989).
pub fn headline()
    ensures ordered { OrderedInEveryRun }
    ensures of_their_call { ReadsAreOfTheirCallInEveryRun }
    ensures answered { AnswersAreOfTheirCallsInEveryRun }
    ensures done { OksHaveTheirDeedsInEveryRun }
    ensures refused { RefusalsAreOfTheirCallsInEveryRun }
    ensures told { AnswersTellWhatWas }
    ensures caused { AnswersHaveCauses }
    ensures full { FullHasItsCause }
    ensures busy { BusyIsSaidAtOnceInEveryRun }
    ensures legal { ReadsAreLegalInEveryRun }
    ensures accounted { AccountedInEveryRun }
    ensures waiting { WaitingAreUnsavedInEveryRun }
    ensures fates { EachHasItsFateInEveryRun }
    ensures excused { LossesAreExcused }
    ensures reported { ReportedInEveryRun }
    ensures named { LossesAreNamedInEveryRun }
    ensures synchronized { SynchronizedInEveryRun }
    ensures kept { KeptBlocksAreHeldInEveryRun }
    ensures untouched { UntouchedAreZerosInEveryRun }
    ensures cached { CachedAtOnceInEveryRun }
    ensures always { AtEveryMoment }
{}
