//! The text of journals, printed and parsed.
#![tactic(auto)]

pub mod laws;
mod parsing;
mod printing;
mod read_entries;
mod write_entries;

pub use parsing::{JournalFault, parse};
pub use printing::{Printed, is_in, print};
