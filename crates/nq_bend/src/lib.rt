//! Schedules that bend: what becomes of a run where a packet is lost, or comes twice or later, where something else happens at a
//! moment, or a host is cut off. What follows is kept as far as it makes sense, and the answer is a schedule again.
//!
//! A packet of the new run is matched to the one of the old by its link, its kind and its place among those of that kind on that link.
#![tactic(auto)]

mod bending;
mod bends;
mod course;
mod lanes;
mod old;
mod plan;
mod puts;

pub use bending::bend;
pub use bends::{Bend, BendFault, Bent, LeftOut, Then, Why};
pub use nq_base::NoMemory;
