//! What the test of skew makes of events that are no ticks.

ghost use Rattle.nq_clock.specs.Tracks.{OtherEventsPass};

/// A call, a delivery, a restart or a crash leaves what a test of skew follows: the history goes on, and the counts
/// stay.
pub fn other_events_are_no_ticks()
    ensures { OtherEventsPass }
{}
