//! What holds of each run of a schedule.

ghost use Rattle.nq_replay.specs.Lawful.{PlayedRunsAreLawful};

/// A schedule that was played to its end is within skew and keeps to the bounds, since each event was tested before it was
/// taken.
pub fn played_runs_are_lawful()
    ensures { PlayedRunsAreLawful }
{}
