//! What a run with lists makes of the inner world.

ghost use Rattle.nq_name_server.specs.Theorem.{ListsChangeNothing, RunsInside};

/// The inner world is the run of the inner events, so all that is promised of runs holds of its journal.
pub fn runs_are_inner()
    ensures { RunsInside }
{}

/// To ask for a list leaves the inner world as it is.
pub fn lists_change_nothing()
    ensures { ListsChangeNothing }
{}
