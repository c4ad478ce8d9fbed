//! The bounds of numbers.

ghost use Rattle.walk_steps.specs.Within.{NoneGoesOut, NumbersAreMet, NumbersStayWithin};

/// In every run of at most 100,000 events, from a head within its bounds, what the server keeps is within its bounds: no
/// revision, boot or id grows faster than the events.
pub fn numbers_stay_within()
    ensures { NumbersStayWithin }
{}

/// In every such run the server drops no request of a client for its numbers.
pub fn none_goes_out()
    ensures { NoneGoesOut }
{}

/// There is a schedule of which these laws speak: a file is created in its run.
pub fn numbers_are_met()
    ensures { NumbersAreMet }
{}
