//! What holds of whole rounds: they can be made; whoever asks is answered in the delivery in which he asks, so each delivery ends quietly; and
//! a recovery ends soon. The statements stand in `specs/`, and their proofs in `proofs/`.

ghost use Rattle.law_rounds.specs.CalmRoundsAreLawful.{CalmRoundsAreLawful};
ghost use Rattle.law_rounds.specs.WholeRounds.{WholeRecoveriesEnd, WholeRoundsCanBeMade, WholeRoundsEndQuiet};

/// In every run, whatever is under way: any number of whole rounds can be made, in which each link keeps its order.
pub fn whole_rounds_can_be_made()
    ensures { WholeRoundsCanBeMade }
{}

/// Calm rounds, in which all arrives in the order in which it was sent, keep a schedule within its bounds and within skew.
pub fn calm_rounds_are_lawful()
    ensures { CalmRoundsAreLawful }
{}

/// In every run, whatever is under way: once two whole rounds or more are over, and then all has arrived again, no client has a request under way. All
/// are attached, and no notice waits. A client that has an open call pauses for at most 2 ticks, and the call is no `sync`. Each file with delayed
/// writes is held under a lease that goes on for more than 3 ticks.
pub fn whole_rounds_end_quiet()
    ensures { WholeRoundsEndQuiet }
{}

/// In every run, whatever is under way: the server serves after as many whole rounds as the longest term of all boots and 8 more, or after more.
pub fn whole_recoveries_end()
    ensures { WholeRecoveriesEnd }
{}
