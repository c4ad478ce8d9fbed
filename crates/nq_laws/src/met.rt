//! Runs that have what the laws speak of.

ghost use Rattle.nq_laws.specs.LawsAreMet.{LawsAreMet};

/// The laws over runs are not in vain. After four schedules, each within bounds and within skew: a delayed write was lost
/// after its lease had ended in silence, and an answer named it; one was lost after a recovery; one was stored after its
/// host had started again; and a block was cut off a file that grew again (Macklem 1994).
pub fn laws_are_met()
    ensures { LawsAreMet }
{}
