//! The words that say what to run, and what they say.
//!
//! What words say is the definition `command_of` in `specs/Commands`.
#![tactic(auto)]

mod commands;
pub mod prompt;
mod words;

pub use commands::Command;
pub use nq_base::NoMemory;
pub use words::CommandWords;
