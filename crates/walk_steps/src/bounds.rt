//! How far every run goes: how far numbers go, how many packets an event sends, one row for a host and a file, one request for each
//! sequence, how long leases run, and that a step is its own host's. Each law stands on a function with an empty body, whose clause
//! is the law and whose proof stands in `proofs/`.

mod bounds;
mod intervals;
mod packets;
mod requests;
mod says;
mod server;
mod steps;

pub use bounds::{none_goes_out, numbers_are_met, numbers_stay_within};
pub use intervals::{
    lease_interval_in_every_run, lease_interval_is_met, lease_interval_is_met_in_recovery,
};
pub use packets::events_send_few;
pub use requests::{
    one_request_is_open, one_request_per_sequence, replies_come_after, requests_are_met,
};
pub use says::server_says_plainly;
pub use server::{recoveries_are_met, recovery_waits, rows_stand_apart};
pub use steps::{steps_are_of_one_host, steps_rest_on_their_host};
