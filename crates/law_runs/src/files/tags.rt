//! The tags of leases.

ghost use Rattle.law_runs.specs.TagsMet.{IsPastSometime};
ghost use Rattle.nq_model.specs.laws.TagsAreInOrder.{StandingTableGrows, TagsAreDrawnInOrder, VacatedTagsArePast};

/// After every schedule that is within skew, each tag of a lease that is held, of a notice that waits, of a packet or of a
/// row that stands was drawn: at some moment the table of the boot that it names stood, and had drawn it. That boot is no
/// later than the one whose table stands now, and the tag is below each that the server draws later (Macklem 1994).
pub fn tags_are_drawn_in_order()
    ensures { TagsAreDrawnInOrder }
{}

/// After every schedule, and whatever happens next, the boot of the table that stands only rises, and in one boot the count
/// of the tags that it has drawn.
pub fn standing_table_grows()
    ensures { StandingTableGrows }
{}

/// After every schedule that is within skew, a tag that the running incarnation of a client gave up on a file is below that
/// of the lease that it holds on the file, below that of each grant on it that it can still take, and below each tag that
/// the server draws later (Macklem 1994).
pub fn vacated_tags_are_past()
    ensures { VacatedTagsArePast }
{}

/// There is such a schedule, after which a client gave up a lease, holds another on the file, and can take a third: the
/// premises of both laws on tags are met.
pub fn vacated_tags_are_met()
    ensures { IsPastSometime }
{}
