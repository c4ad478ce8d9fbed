//! The server of the leased file sharing protocol over any keeper (Macklem 1994): each datagram, tick and boot is one step of
//! the protocol's definitions.
//!
//! A server makes at most one commit in an event, and takes all memory before it. After a fault, or where memory is wanting,
//! the server, the outbox and the journal are as before.
#![tactic(auto)]

mod aside;
mod booting;
mod deciding;
mod gates;
mod leasing;
mod looking;
mod reading;
mod received;
mod replying;
mod requests;
mod server;
mod state;
mod ticks;
mod verdicts;

pub use received::{Reason, Received};
pub use server::{BootFault, Server};
