//! The world: one server, its clients, all packets ever sent, and the journal. Each reply is of its request (`replies`).
#![tactic(auto)]

mod arriving;
mod at_client;
mod at_server;
mod clients;
mod clocks;
mod ending;
mod first;
mod laws;
mod lending;
pub mod replies;
mod sending;
mod starting;
mod stepped;
mod testing;
mod world;

pub use laws::{bytes_show_the_run, events_send_little, worlds_run};
pub use starting::{NewFault, begin, begin_surely};
pub use stepped::{Limit, Stepped};
pub use testing::{MOST_EVENTS, MOST_SENT};
pub use world::World;
