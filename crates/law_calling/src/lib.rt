//! What a call behind a turn rests on. The statement stands in `specs/`, and its proof in `proofs/`.
#![tactic(auto)]

mod calls;

pub use calls::reads_run;
