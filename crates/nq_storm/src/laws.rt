//! What holds of the schedule of a storm, whatever the program does.

ghost use Rattle.nq_storm.specs.Lawful.{StormsAreLawful};

/// A text with a line for each event of a storm is a schedule whose run is that storm. It is within skew and keeps to the bounds.
pub fn storms_are_lawful()
    ensures { StormsAreLawful }
{}
