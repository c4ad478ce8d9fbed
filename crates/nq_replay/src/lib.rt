//! Reading and playing schedules: what is read, played and printed, and how it ends.
#![tactic(auto)]

pub mod asides;
mod parts;
pub mod play;
mod printing;
mod reading;
mod schedules;
mod texts;
pub mod version_one;

pub use nq_base::NoMemory;
pub use parts::print_parts;
pub use printing::{Bound, script_text, tell_over};
pub use reading::read_script;
pub use schedules::{replay, tell_limit, tell_script, tell_stop};
pub use texts::schedule_text;
