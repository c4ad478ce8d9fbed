//! What holds in every run of calls, of files, and of the journal, which is legal.
#![tactic(auto)]

pub mod calls;
pub mod files;
pub mod legal;
