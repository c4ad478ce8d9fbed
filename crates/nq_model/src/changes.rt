//! What the server keeps.

ghost use Rattle.nq_model.specs.laws.ChangesOnce.{BoundsAreKept, ChangesAreMet, EachStepChangesOnce, RequestsAreDecided};

/// From a kept state within its bounds, each step of the server changes what is kept once at most, and that change can
/// be kept.
pub fn each_step_changes_once()
    ensures { EachStepChangesOnce }
{}

/// Requests that are decided once are decided from the kept state and the gate alone.
pub fn requests_are_decided()
    ensures { RequestsAreDecided }
{}

/// From a kept state within its bounds each step of the server leads to one within them, whatever datagram comes.
pub fn bounds_are_kept()
    ensures { BoundsAreKept }
{}

/// The premises of these laws are met: by a file of one block, which a host writes.
pub fn changes_are_met()
    ensures { ChangesAreMet }
{}
