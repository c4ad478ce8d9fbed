//! Schedules with their journals, evaluated. The texts stand in `examples/`; `tools/terms.py` makes the terms of them.

mod laws;
mod runs;
mod skews;

pub use laws::{
    mixed_journals_break_no_law, unaccounted_journals, unexcused_journals, unlawful_reads,
    unordered_journals, unreported_journals, unsynchronized_journals, worked_journals_break_no_law,
    wrong_calls_of_reads,
};
pub use runs::{
    mixed_schedules_run_as_given, resizing_schedules_run_as_given,
    worked_schedules_are_within_skew, worked_schedules_run_as_given,
};
pub use skews::one_tick_more_is_not_within_skew;
