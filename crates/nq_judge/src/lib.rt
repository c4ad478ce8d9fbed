//! A journal is read, judged, and the verdict printed.
#![tactic(auto)]

mod judging;

pub use judging::judge;
