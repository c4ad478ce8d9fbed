//! How the lines of a schedule are played over any world that has rules for it: as definitions, over a world, and what is known of each
//! run.
//!
//! The definitions are in `specs/`: `Delivering` (the least packet that was never delivered), `Rules` (the rules of a world, and how an
//! event, a round, a flow and the lines of a schedule are played by them), `Playing` (those of the protocol's world), and `Lawful`, which
//! says what holds of each schedule that was played to its end in it. [`play`] plays lines over a world. No line is unrolled: a round, a
//! flow and repeated ticks are loops.

mod delivered;
mod events;
mod laws;
mod lines;
mod plain;
mod played;
mod world;

pub use delivered::{Delivered, note, packet_in};
pub use laws::played_runs_are_lawful;
pub use lines::play;
pub use played::Played;
pub use world::OuterWorld;
