//! The top call of the program: it runs what the words say over a disk, and its contract has the headline.
#![tactic(auto)]

mod checking;
mod fates;
mod hosting;
mod looping;
mod naming;
mod replaying;
mod setting;
mod staged;
mod storming;
mod top;
mod usage;

pub use nq_base::ending::Ended;
pub use nq_command::{Command, CommandWords, NoMemory};
pub use nq_storm::fates::{CutFate, Fate, HostileFate, LossyFate, SteadyFate};
pub use setting::{Place, ROOM, blank_disk, exit_status, parties_of, party_of, place_of, words_of};
pub use top::run;
