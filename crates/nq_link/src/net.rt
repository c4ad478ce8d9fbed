//! The packets of the leased file sharing protocol's world: all datagrams that were ever sent, by number.
//!
//! Each datagram has a sender and a receiver; the first one that was sent has number 0.

mod packets;
mod runs;

pub use nq_base::Party;
pub use nq_memory::NoMemory;
pub use packets::{Packet, Packets};
