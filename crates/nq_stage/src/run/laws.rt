//! What a run with staged writes makes of the inner world.

ghost use Rattle.nq_stage.specs.Theorem.{OffersStoreNothing, RunsInside};

/// The inner world is the run of the inner events, so all that is promised of runs holds of its journal.
pub fn runs_are_inner()
    ensures { RunsInside }
{}

/// An offer leaves the inner world as it is: no block is less delayed for being staged.
pub fn offers_store_nothing()
    ensures { OffersStoreNothing }
{}
