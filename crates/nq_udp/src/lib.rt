//! A link over UDP, from socket to socket, and the book of who has which address.
//!
//! A contract knows to and from which address the last datagrams went, and that this is the address of their party. What the
//! machine does with a datagram, no contract knows.
#![tactic(auto)]

mod book;
mod local;
mod socket;
mod udp_link;

pub use book::{Book, Clash};
pub use udp_link::UdpLink;
