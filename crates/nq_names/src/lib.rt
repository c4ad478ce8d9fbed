//! A world with leased directories: around a world of the protocol, which it changes in nothing, it lets clients list directories
//! under reading leases and answer names themselves (Macklem 1994).
//!
//! What it does is in the definitions of `nq_name_server::run`: see `specs/Playing.antt`, which says that a [`NameWorld`] plays a run with
//! lists, and that a host which knows of a name knows what the server keeps under it. What
//! holds of every run with leased directories stands in `law_names`.
#![tactic(auto)]

mod copying;
mod delivering;
mod reading;
mod running;
mod serving;
mod stepping;
mod world;

pub use world::NameWorld;
