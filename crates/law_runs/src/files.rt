//! Files and the leases on them, in every run: tags, chained leases, contents, endings of writing leases, and that files stay until
//! they are removed. Each law stands on a function with an empty body, whose clause is the law and whose proof stands in `proofs/`.

mod chains;
mod contents;
mod endings;
mod excuses;
mod stays;
mod tags;

pub use chains::{chained_leases_know_the_file_in_every_run, chains_are_met};
pub use contents::{
    clean_blocks_have_their_revision_in_every_run, contents_are_met,
    done_requests_are_changes_in_every_run, files_are_their_history_in_every_run,
    pushes_carry_their_last_write_in_every_run,
};
pub use endings::{endings_are_met, endings_come_late_in_every_run};
pub use excuses::{
    excuses_are_met, losses_are_excused_in_every_run,
    unsaved_files_are_bound_or_excused_in_every_run,
};
pub use stays::{files_stay_is_met, files_stay_until_removed};
pub use tags::{
    standing_table_grows, tags_are_drawn_in_order, vacated_tags_are_met, vacated_tags_are_past,
};
