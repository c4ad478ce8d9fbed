//! Time: clocks, and the test of skew.
//!
//! The test of skew keeps three counts for each host and nothing of the run. Its contracts speak of every history of
//! events that it may have followed: a tick of the server's clock is refused exactly where the history with that tick
//! is not within skew (Macklem 1994).
#![tactic(auto)]

mod clock;
mod laws;
mod leads;
mod mem_clock;
mod skew;
mod std_clock;

pub use clock::Clock;
pub use laws::other_events_are_no_ticks;
pub use mem_clock::MemClock;
pub use nq_base::SkewBroken;
pub use skew::Skew;
pub use std_clock::StdClock;
