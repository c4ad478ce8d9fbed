//! Calm deliveries end: what is under way leads to no more packets than a formula tells. The statement stands in `specs/`, and its proof
//! in `proofs/`.

ghost use Rattle.law_rounds.specs.DeliveryEnds.{DeliveryEnds};

/// In every run, whatever is under way: where packets are delivered in order, the least number first, with all that this sends, nothing is
/// under way after so many deliveries as a formula tells, in the hosts, the packets under way and the delayed writes.
pub fn deliveries_end()
    ensures { DeliveryEnds }
{}
