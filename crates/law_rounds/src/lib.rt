//! A calm network: replies are owed, deliveries end, whoever asks is answered in the delivery in which he asks, and a recovery ends soon. The
//! statements stand in `specs/`, and their proofs in `proofs/`.
#![tactic(auto)]

mod calm;
mod deliveries;
mod owed;
mod rounds;

pub use calm::{
    calls_go_on, named_rows_are_to_go, notices_are_answered_at_once, notices_mark_rows,
    recoveries_end_soon, requests_are_meant, rows_end_soon, rows_to_go_cache,
    shared_files_stay_shared, sharing_rows_stay, turns_fall, who_asks_has_row,
    who_is_put_off_shares,
};
pub use deliveries::deliveries_end;
pub use owed::replies_are_owed;
pub use rounds::{
    calm_rounds_are_lawful, whole_recoveries_end, whole_rounds_can_be_made, whole_rounds_end_quiet,
};
