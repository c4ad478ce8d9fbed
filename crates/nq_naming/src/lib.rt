//! A schedule in which hosts list directories and find names is run, and the schedule of the inner world, its journal, and what was
//! found are printed.
//!
//! How a schedule with lists is played stands in `specs/Playing`, what its finds say in `specs/Finding`, and what is printed in
//! `specs/Running`.
#![tactic(auto)]

mod playing;
mod printing;
mod running;
pub mod script;
