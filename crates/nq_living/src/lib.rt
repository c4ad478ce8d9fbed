//! A host that lives: its client takes turns and makes calls for those who ask, over any link and any clock. What asks, and what it does with
//! the answers, is told by a trait.
#![tactic(auto)]

mod askers;
mod calling;
mod ending;
mod host;
mod line;
mod living;
mod turning;

pub use askers::{Askers, Paged};
pub use host::Host;
pub use line::Line;
pub use living::{End, live};
pub use turning::hear;
