//! The text of schedules with asides: that of a schedule of version 2, in which lines of another kind, its *asides*, may stand where lines
//! `flow` may. What an aside says is a type of its own for each kind of schedule.
//!
//! What such a text is stands in `specs/Text`.

mod aside;
mod scripts;

pub use aside::{AsideLine, aside_at};
pub use scripts::{MixedScript, read_script};
