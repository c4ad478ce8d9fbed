//! Calls and what they write, in every run: the order of each client's calls, what becomes of delayed writes, and that each body
//! repeats one word. Each law stands on a function with an empty body, whose clause is the law and whose proof stands in `proofs/`.

mod calls;
mod fates;
mod filled;

pub use calls::{calls_are_met, ordered_in_every_run, reads_are_of_their_call_in_every_run};
pub use fates::{
    each_fate_is_met, each_write_has_its_fate_in_every_run,
    waiting_writes_are_unsaved_in_every_run, writes_are_accounted_in_every_run,
};
pub use filled::{bodies_are_filled_in_every_run, filled_bodies_are_met};
