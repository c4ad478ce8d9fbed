//! A world with staged writes: around a world of the protocol, which it changes in nothing, it lets clients send bodies of
//! delayed writes ahead, and short COMMITs stand for pushes (RFC 1813 sections 3.3.7 and 3.3.21).
//!
//! What it does is in the definitions of `nq_stage::run`: see `specs/Worlds.antt`, which says that a [`StagedWorld`] plays a
//! staged run.

mod around;
mod copying;
mod line;
mod stepping;
mod taking;
mod world;

pub use line::parse_stage;
pub use world::StagedWorld;
