//! A client that many ask: each call is made behind a turn of its own, and delayed writes that were lost are told to whoever asks next.
#![tactic(auto)]

mod calls;
mod losses;

pub use calls::call_now;
pub use losses::lost_text;
