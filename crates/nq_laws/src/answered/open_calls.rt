//! Every call is answered once the network is calm, and all that is delayed is stored. The statements stand in `specs/`, and their proofs in `proofs/`.

ghost use Rattle.nq_laws.specs.WholeCallsAnswered.{ServedCallsAnswered, WholeCallsAnswered};
ghost use Rattle.nq_laws.specs.WholeMet.{LinksMatter, OpenCallsAreMet, WholeRoundsAreMet};
ghost use Rattle.nq_laws.specs.WholeStored.{WholeStored};

/// In every run, whatever is under way: all clients are attached, and no call is open, after as many whole rounds as the longest term of all boots has
/// ticks, 9 more, and 4 for each call that was open at first; or after more. In a whole round all that is under way arrives, with all that this sends, in
/// any order in which each link keeps its own; then each clock ticks once.
pub fn whole_calls_answered()
    ensures { WholeCallsAnswered }
{}

/// Where the server serves already, three whole rounds and four for each call that was open are enough.
pub fn served_calls_answered()
    ensures { ServedCallsAnswered }
{}

/// A schedule with a recovery meets all premises of these laws, and needs more than half of the rounds.
pub fn open_calls_are_met()
    ensures { OpenCallsAreMet }
{}

/// In every run, whatever is under way: no client has delayed writes after as many whole rounds more as the longest term of all boots has ticks, and
/// one, or after more.
pub fn whole_stored()
    ensures { WholeStored }
{}

/// Whole rounds in which links keep their order, and not all packets arrive in the order in which they were sent, meet all premises.
pub fn whole_rounds_are_met()
    ensures { WholeRoundsAreMet }
{}

/// Links have to keep their order: by whole rounds in which they do not, a read and a put of two hosts get into each other's way again and again.
pub fn links_matter()
    ensures { LinksMatter }
{}
