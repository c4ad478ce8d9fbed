//! What becomes of notices in a timely network. The statement stands in `specs/`, and its proof in `proofs/`.

ghost use Rattle.law_notices.specs.GivenUpIsMet.{GivenUpIsMet};
ghost use Rattle.law_notices.specs.RowsAreGivenUp.{RowsAreGivenUp};

/// In every run that goes on in a timely network: whoever is told to give up a row has done so before a clock ticks. A live host's row that is to
/// go at such a moment was to go at each such moment before.
pub fn rows_are_given_up()
    ensures { RowsAreGivenUp }
{}

/// A run in which a live host's row comes to be to go between two ticks meets the premises of this law.
pub fn given_up_is_met()
    ensures { GivenUpIsMet }
{}
