//! A diary: what the turns of a host or a server did, each turn's entries behind the moment at which they were noted. The moments are those of
//! the machine's clock that never goes back, so the diaries of all programs on one machine can be merged into one journal.
#![tactic(auto)]

mod diary;
mod notes;

pub use diary::Diary;
pub use notes::{Noted, note};
