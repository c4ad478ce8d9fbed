//! Runs with staged writes, as definitions: what travels around a world of the protocol, which it changes in nothing, where
//! clients send bodies of delayed writes ahead and short COMMITs stand for pushes (RFC 1813 sections 3.3.7 and 3.3.21).
//!
//! What travels here are outer packets, each of which stands for one packet of the inner world or for none (`specs/Outer.antt`).
//! A step (`specs/Outside.antt`) runs at most one event of the inner world.

mod bringing;
mod event;
mod laws;

pub use bringing::event_brings;
pub use event::{StagedCounts, StagedEvent};
pub use laws::{offers_store_nothing, runs_are_inner};
