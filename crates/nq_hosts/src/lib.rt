//! Real hosts over a link and a clock: the turns of a client, and a client that runs lines of calls.
#![tactic(auto)]

mod answers;
mod calls;
pub mod node;
pub mod user;
