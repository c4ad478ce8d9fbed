//! Given up in time: what live hosts of a timely network were told to give up is given up before a clock ticks. The statement stands in `specs/`, and
//! its proof in `proofs/`.
#![tactic(auto)]

mod notices;

pub use notices::{given_up_is_met, rows_are_given_up};
