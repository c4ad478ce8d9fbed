//! The commands that play texts of some kind: schedules in which lines of another kind may stand, their asides. A kind is told by its
//! asides; `specs/Running` says what is read and printed.
#![tactic(auto)]

mod running;

pub use running::{PlayedAside, run_played};
