//! What holds of every run with leased directories: a host that knows of a name knows what the server keeps under it. The statements stand in
//! `nq_name_server`, and their proofs in `proofs/`.
#![tactic(auto)]

mod finds;

pub use finds::{each_find_is_kept, finds_are_met, lists_last};
