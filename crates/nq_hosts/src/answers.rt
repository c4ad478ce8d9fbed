//! The answers that a journal tells, a line each, and how calls ended, as the program `client` prints them.

mod ending;
mod lines;
mod telling;

pub use ending::Stop;
pub use telling::{tell_bytes, tell_end, tell_script};
