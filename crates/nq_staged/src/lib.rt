//! The command `staged`: a schedule in which clients send bodies of delayed writes ahead is run, and the schedule of the inner
//! world, its journal, and what was counted are printed.
//!
//! What its lines say that are none of a schedule stands in `specs/Text` (`nq_replay::asides` has the rest of its text), how it is
//! played in `specs/Playing`, and what is printed in `specs/Running`. The world in which it is played is in `commit`.
#![tactic(auto)]

pub mod commit;
mod offer;
mod playing;
mod printing;
mod running;

pub use offer::Offer;
