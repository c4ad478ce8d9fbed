//! The server's side of leased directories, beside a server that it changes in nothing, and what stands around a world of the protocol
//! that has it.
//!
//! A [`NameServer`] grants reading leases on directories, from a lease table of its own in which the number of a directory stands
//! for a file. It holds a request that creates or removes a file up while another host reads the directory, and asks that host to
//! give its list up (Macklem 1994). It keeps all this in memory alone, so a boot begins with nothing; while the server recovers it
//! grants nothing, and the server creates and removes nothing. What it does is in `specs/Serving.antt`.
#![tactic(auto)]

pub mod around;
mod change;
mod leaf;
mod notifying;
mod reading;
pub mod run;
mod server;

pub use change::{DirChange, MayChange, below, may_change, removed};
pub use leaf::read_leaf;
pub use server::NameServer;
