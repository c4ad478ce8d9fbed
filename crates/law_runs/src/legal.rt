//! What users see in every run: reads give what stands, losses are reported, what is answered ok is kept. Each law stands on a
//! function with an empty body, whose clause is the law and whose proof stands in `proofs/`.

mod deeds;
mod held;
mod legal;
mod oks;
mod refused;
mod reports;
mod undisturbed;
mod zeros;

pub use deeds::{deeds_are_met, oks_have_their_deeds_in_every_run};
pub use held::{held_are_met, kept_blocks_are_held_in_every_run};
pub use legal::{reads_are_legal_in_every_run, reads_are_met};
pub use oks::{
    answers_are_of_their_calls_in_every_run, busy_is_said_at_once_in_every_run,
    oks_are_kept_in_every_run, oks_are_met,
};
pub use refused::{
    only_busy_refuses, only_calls_refuse, only_causes_refuse, only_deeds_refuse, only_forms_refuse,
};
pub use reports::{losses_are_kept_until_named, losses_are_met, losses_are_reported_in_every_run};
pub use undisturbed::{
    bound_and_fenced_are_met, delayed_writes_are_undisturbed_in_every_run,
    unsaved_files_are_bound_or_fenced_in_every_run,
};
pub use zeros::untouched_blocks_are_zeros_in_every_run;
