//! Storms: random schedules, of which boxed fates choose the events, and the command `storm KIND START N`.
//!
//! [`run_storm`] gives the events that a fate chooses to a world, one after another, keeps them, and prints them, their journal and
//! counts. What a storm is stands in `specs/Storming`, what a whole one is in `specs/Whole`, and what is printed in
//! `specs/Printed`. Of a storm's schedule `storms_are_lawful` says that its run is that storm, is within skew and keeps to the bounds.
#![tactic(auto)]

mod counts;
pub mod fates;
mod laws;
mod moments;
mod printing;
mod running;
mod schedules;
mod stormed;
mod storms;

pub use laws::storms_are_lawful;
pub use running::{StormPlan, run_storm};
pub use stormed::Stormed;
