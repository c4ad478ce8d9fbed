//! Real servers over a link and a clock: the turns of a server, for a number of turns or for as long as the machine lets it, and counts of what
//! went over a link.
#![tactic(auto)]

mod extending;
mod node;
mod printing;
mod serving;
pub mod traffic;
mod turning;
mod watching;

pub use extending::Extension;
pub use printing::serve;
pub use serving::{MOST_TURNS, keep_serving};
pub use turning::LinkPolicy;
pub use watching::{Nobody, Watcher};
