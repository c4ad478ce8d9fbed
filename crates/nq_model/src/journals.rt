//! Each law of journals has a test that computes: it is true exactly where the law holds.

ghost use Rattle.nq_model.specs.laws.CutOff.{IsExcused};
ghost use Rattle.nq_model.specs.laws.CutOffTest.{is_excused};
ghost use Rattle.nq_model.specs.laws.Fate.{CoversOnce, IsAccounted, StoredOrLost};
ghost use Rattle.nq_model.specs.laws.FateTest.{is_accounted};
ghost use Rattle.nq_model.specs.laws.Legal.{IsLegal};
ghost use Rattle.nq_model.specs.laws.LegalTest.{is_legal};
ghost use Rattle.nq_model.specs.laws.OfTheirCall.{AreOfTheirCall};
ghost use Rattle.nq_model.specs.laws.OfTheirCallTest.{are_of_their_call};
ghost use Rattle.nq_model.specs.laws.Ordered.{IsOrdered};
ghost use Rattle.nq_model.specs.laws.OrderedTest.{is_ordered};
ghost use Rattle.nq_model.specs.laws.Reported.{IsReported};
ghost use Rattle.nq_model.specs.laws.ReportedTest.{is_reported};
ghost use Rattle.nq_model.specs.laws.Sound.{IsSound};
ghost use Rattle.nq_model.specs.laws.SoundTest.{is_sound};
ghost use Rattle.nq_model.specs.laws.Synchronized.{IsSynchronized};
ghost use Rattle.nq_model.specs.laws.SynchronizedTest.{is_synchronized};
ghost use Rattle.nq_model.specs.laws.Tests.{TellsLaw};

/// The test of legal journals tells them.
pub fn legal_test_is_exact()
    ensures { TellsLaw is_legal IsLegal }
{}

/// The test of ordered journals tells them.
pub fn ordered_test_is_exact()
    ensures { TellsLaw is_ordered IsOrdered }
{}

/// The test of journals whose counted reads are of their call tells them.
pub fn of_their_call_test_is_exact()
    ensures { TellsLaw are_of_their_call AreOfTheirCall }
{}

/// The test of journals that account for their delayed writes tells them.
pub fn accounted_test_is_exact()
    ensures { TellsLaw is_accounted IsAccounted }
{}

/// The test of journals whose losses are excused tells them.
pub fn excused_test_is_exact()
    ensures { TellsLaw is_excused IsExcused }
{}

/// The test of journals whose losses are reported tells them.
pub fn reported_test_is_exact()
    ensures { TellsLaw is_reported IsReported }
{}

/// The test of synchronized journals tells them.
pub fn synchronized_test_is_exact()
    ensures { TellsLaw is_synchronized IsSynchronized }
{}

/// The test of sound journals tells them.
pub fn sound_test_is_exact()
    ensures { TellsLaw is_sound IsSound }
{}

/// A journal that accounts for its delayed writes has one entry at most that covers a write.
pub fn writes_are_covered_once()
    ensures { CoversOnce }
{}

/// A journal that accounts for its delayed writes has no write that is both stored and lost.
pub fn no_write_is_stored_and_lost()
    ensures { StoredOrLost }
{}
