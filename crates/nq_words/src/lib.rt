//! The words behind a program's name, read in one way by all programs that are left running: from the left, options first told from other
//! words, and whatever is wrong told with the word that is.
#![tactic(auto)]

mod args;
mod machine;
mod wrongs;

pub use args::{Args, Next, number_in};
pub use machine::{Unread, args_of};
pub use wrongs::{Bounds, Wrong};
