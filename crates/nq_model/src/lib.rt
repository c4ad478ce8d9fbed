//! The protocol as definitions that compute, in `specs/protocol`: what the server keeps, its lease table, what it is
//! asked, messages, the server's step, the client's step, the run and clocks. What is promised stands in `specs/laws`.
//! The functions here have empty bodies: each states a law about the definitions and is its proof.
#![tactic(auto)]

mod cached;
mod changes;
mod clocks;
mod journals;

pub use cached::{cached_at_once, has_cached_is_exact};
pub use changes::{bounds_are_kept, changes_are_met, each_step_changes_once, requests_are_decided};
pub use clocks::{each_tick_is_judged, skew_test_is_exact, skew_test_is_sound};
pub use journals::{
    accounted_test_is_exact, excused_test_is_exact, legal_test_is_exact,
    of_their_call_test_is_exact, ordered_test_is_exact, reported_test_is_exact,
    sound_test_is_exact, synchronized_test_is_exact, writes_are_covered_once,
};
