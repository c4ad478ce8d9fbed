//! Links, over which a party sends datagrams and receives them: the trait `Link`, and a link in memory.
//! The packets of a world are in `net`.
//!
//! A contract knows a link by the datagrams that were sent over it and those that wait, where the link tells them, and by a
//! count of its faults. An answer `Failed` comes only where that count rose in the call. `send_all` sends what an outbox holds.
#![tactic(auto)]

mod link;
mod mem_link;
pub mod net;
mod sending;

pub use link::{Came, Link, Sent};
pub use mem_link::MemLink;
pub use nq_base::{NoMemory, Party};
pub use sending::{MOST_BYTES, send_all};
