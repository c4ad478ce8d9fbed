//! The rule of skew, at its edge.

ghost use Rattle.nq_laws.specs.Skews.{OneTickMore};

/// Ticks of all clocks with a crash between them are within skew; with one more tick of the server's clock they are not.
pub fn one_tick_more_is_not_within_skew()
    ensures { OneTickMore }
{}
