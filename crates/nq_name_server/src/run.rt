//! Runs with leased directories, as definitions: what travels around a world of the protocol, which it changes in nothing, where
//! clients list directories under reading leases and answer names themselves.
//!
//! What travels here are outer packets, each of which is one packet of the inner world or is none (`specs/Outer.antt`). A step
//! (`specs/Outside.antt`) runs at most one event of the inner world. What is promised of such runs is stated in
//! `specs/Theorem.antt`.

mod event;
mod laws;

pub use event::NameEvent;
pub use laws::{lists_change_nothing, runs_are_inner};
