//! The journals of the schedules break no law, and of each law there are journals that break it alone.

ghost use Rattle.std.specs.Prelude.{map};
ghost use Rattle.nq_laws.specs.Example.{journal_given};
ghost use Rattle.nq_laws.specs.Laws.{
  BreakNone,
  BreakOnly,
  accounted,
  excused,
  legal,
  of_their_call,
  ordered,
  reported,
  synchronized,
};
ghost use Rattle.nq_laws.specs.MixedOne.{mixed_one};
ghost use Rattle.nq_laws.specs.MixedThree.{mixed_three};
ghost use Rattle.nq_laws.specs.MixedTwo.{mixed_two};
ghost use Rattle.nq_laws.specs.NotAccounted.{not_accounted};
ghost use Rattle.nq_laws.specs.NotExcused.{not_excused};
ghost use Rattle.nq_laws.specs.NotLegal.{not_legal};
ghost use Rattle.nq_laws.specs.NotOfTheirCall.{not_of_their_call};
ghost use Rattle.nq_laws.specs.NotOrdered.{not_ordered};
ghost use Rattle.nq_laws.specs.NotReported.{not_reported};
ghost use Rattle.nq_laws.specs.NotSynchronized.{not_synchronized};
ghost use Rattle.nq_laws.specs.Worked.{worked};

/// The journals of the schedules that each show one thing.
pub fn worked_journals_break_no_law()
    ensures { BreakNone (map journal_given worked) }
{}

/// The journals of schedules that mix all kinds of events.
pub fn mixed_journals_break_no_law()
    ensures one { BreakNone (map journal_given mixed_one) }
    ensures two { BreakNone (map journal_given mixed_two) }
    ensures three { BreakNone (map journal_given mixed_three) }
{}

/// Journals with a read that does not give the latest standing write, or without its answer.
pub fn unlawful_reads()
    ensures { BreakOnly legal not_legal }
{}

/// Journals in which a client's order is not kept.
pub fn unordered_journals()
    ensures { BreakOnly ordered not_ordered }
{}

/// Journals with a counted read of what its call did not ask for.
pub fn wrong_calls_of_reads()
    ensures { BreakOnly of_their_call not_of_their_call }
{}

/// Journals with a write that is covered twice or a loss of nothing.
pub fn unaccounted_journals()
    ensures { BreakOnly accounted not_accounted }
{}

/// Journals with a loss of a client that was not cut off.
pub fn unexcused_journals()
    ensures { BreakOnly excused not_excused }
{}

/// Journals with a loss that is not named, or not once.
pub fn unreported_journals()
    ensures { BreakOnly reported not_reported }
{}

/// Journals with an ok that is not kept.
pub fn unsynchronized_journals()
    ensures { BreakOnly synchronized not_synchronized }
{}
