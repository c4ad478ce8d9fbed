//! The loop over real links: where each datagram arrives before the clocks tick next, all calls of all hosts are answered. The statements stand in
//! `specs/`, and their proofs in `proofs/`.

ghost use Rattle.nq_loop.specs.LoopsAreAnswered.{LoopsAreAnswered};
ghost use Rattle.nq_loop.specs.Met.{LoopsAreMet};
ghost use Rattle.nq_loop.specs.PrintedLoops.{EndedLoopsAreAnswered, PrintedLoopsAreAnswered};
ghost use Rattle.nq_loop.specs.PrintedMet.{PrintedLoopsAreMet};
ghost use Rattle.nq_loop.specs.ToldAnswers.{AnsweredLoopsTellAnswers};

/// In each loop of at most 64 hosts, where every datagram arrived before the clocks ticked next, and each link kept its order: the three calls of each
/// host are answered, or the server's clock ticked less often than a formula in the number of hosts tells.
pub fn loops_are_answered()
    ensures { LoopsAreAnswered }
{}

/// Each loop that printed its schedule whole made all steps of its turns. So where every datagram of that schedule arrived before the clocks ticked next,
/// and each link kept its order, the loop ended before a formula in the number of hosts tells: with all calls answered, or with all of its turns taken.
pub fn printed_loops_are_answered()
    ensures { PrintedLoopsAreAnswered }
{}

/// Each loop that ended with status 0 printed such a schedule.
pub fn ended_loops_are_answered()
    ensures { EndedLoopsAreAnswered }
{}

/// Where all calls of a loop that printed its schedule whole were answered, each call of each host that its journal tells has its answer there.
pub fn answered_loops_tell_answers()
    ensures { AnsweredLoopsTellAnswers }
{}

/// The events of three turns of a loop of one host come in time, and its calls are answered by them.
pub fn loops_are_met()
    ensures { LoopsAreMet }
{}

/// A loop of one host ends with all printed behind three turns, in which all came in time, and its calls are answered by then.
pub fn printed_loops_are_met()
    ensures { PrintedLoopsAreMet }
{}
