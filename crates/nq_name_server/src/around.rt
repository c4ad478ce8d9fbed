//! What stands around an inner world that has leased directories: the leases on them at its server, the names that each host keeps, and
//! the packets that travel.
//!
//! An [`Around`] knows nothing of the inner world but its packets, which it sends on. What it shows beside an inner world is the world of
//! `run`.

mod around;
mod hosts;
mod packets;
mod serving;

pub use around::Around;
pub use packets::Travelling;
