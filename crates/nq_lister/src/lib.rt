//! Lists of names from a server that is left running: without a lease, it tells whoever asks by a READDIRLOOK which files have names that
//! begin with a prefix.
//!
//! What is answered stands in `specs/Listing`. It is told of one moment and may not be kept, so nothing has to be remembered of those who asked.
#![tactic(auto)]

mod answering;
mod laws;
mod pages;

pub use answering::Lister;
pub use laws::pages_go_on;
