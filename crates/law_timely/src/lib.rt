//! In time: what a call of a live host waits for at most in a timely network, whatever other hosts do or have done. The statements stand in
//! `specs/`, and their proofs in `proofs/`.
#![tactic(auto)]

mod live;

pub use live::{
    nobody_is_waited_for, premises_matter, quiet_when_still, recoveries_end_in_time,
    timely_runs_are_met,
};
