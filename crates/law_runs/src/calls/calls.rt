//! The order of calls.

ghost use Rattle.law_runs.specs.CallsMet.{AreMet};
ghost use Rattle.nq_model.specs.laws.CallsAreOrdered.{OrderedInEveryRun, ReadsAreOfTheirCallInEveryRun};

/// After every schedule within skew the calls of each incarnation stand in the order of their numbers and have one answer at
/// most; two are open together only where the later one is answered `busy` at once. Each write and each change of a length is
/// made while its call is open, by that call, once; each counted read stands after its call and before the answer, and a call
/// has one counted read at most (Macklem 1994).
pub fn ordered_in_every_run()
    ensures { OrderedInEveryRun }
{}

/// After every schedule within skew each counted read is of the file and block that its call asked for.
pub fn reads_are_of_their_call_in_every_run()
    ensures { ReadsAreOfTheirCallInEveryRun }
{}

/// There is such a schedule, after which a write was delayed, another went through, a file got another length, and a read was
/// answered from the cache and another one by the server.
pub fn calls_are_met()
    ensures { AreMet }
{}
