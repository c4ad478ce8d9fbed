//! Answers: what they tell, and that every call is answered once the network is calm. The statements stand in `specs/`, and their
//! proofs in `proofs/`.

mod open_calls;
mod rows;
mod told;

pub use open_calls::{
    links_matter, open_calls_are_met, served_calls_answered, whole_calls_answered,
    whole_rounds_are_met, whole_stored,
};
pub use rows::{
    askers_share_long, no_tag_is_later, notices_are_heard, put_off_for_rows, row_notices_are_heard,
    waiters_share,
};
pub use told::{
    answers_have_causes, answers_tell_what_was, full_has_its_cause, losses_are_named,
    no_room_is_met, only_moments_refuse, only_names_refuse, only_ranges_refuse, refusals_are_met,
    refusals_are_of_their_calls, refusals_have_causes, replies_tell_what_was, tellings_are_met,
};
