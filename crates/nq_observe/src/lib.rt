//! Runs as they are seen: a world makes the steps of a schedule, and what each of them did is written down and shown.
#![tactic(auto)]

mod cursor;
mod decoding;
mod looking;
mod mail;
mod memory;
mod patience;
mod playing;
mod post;
mod seeing;
mod spans;

pub use cursor::Cursor;
pub use looking::{Shown, View, look};
pub use nq_base::NoMemory;
pub use patience::{Endless, Patience, Unseen};
pub use post::Post;
