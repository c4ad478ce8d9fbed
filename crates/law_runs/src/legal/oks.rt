//! What an ok says.

ghost use Rattle.law_runs.specs.OksMet.{IsSyncedOnce};
ghost use Rattle.nq_model.specs.laws.AnswersAreOfTheirCalls.{AnswersAreOfTheirCallsInEveryRun};
ghost use Rattle.nq_model.specs.laws.BusyIsSaidAtOnce.{BusyIsSaidAtOnceInEveryRun};
ghost use Rattle.nq_model.specs.laws.OksAreKept.{SynchronizedInEveryRun};

/// After every schedule within skew each ok is kept. To a put: its write is through, or an S before the answer covers it. To a
/// sync: each delayed write of the incarnation on the file before the answer is covered by an S, or by an L that an A before
/// the answer names. To a resize or removal: its Z stands before the answer, and each such write is covered by an S before
/// that Z, or by an L so named (RFC 1813, FILE_SYNC).
pub fn oks_are_kept_in_every_run()
    ensures { SynchronizedInEveryRun }
{}

/// After every schedule within skew each answer is of its call: the call's C stands before it, no other A of the call does, and
/// its form is one that the call can have.
pub fn answers_are_of_their_calls_in_every_run()
    ensures { AnswersAreOfTheirCallsInEveryRun }
{}

/// After every schedule within skew each `busy` stands directly behind the C of its call, and for a cause: another call of the
/// incarnation is open, or the incarnation was started again.
pub fn busy_is_said_at_once_in_every_run()
    ensures { BusyIsSaidAtOnceInEveryRun }
{}

/// There is such a schedule, after which a sync was answered ok of a file on which a write was delayed and stored.
pub fn oks_are_met()
    ensures { IsSyncedOnce }
{}
