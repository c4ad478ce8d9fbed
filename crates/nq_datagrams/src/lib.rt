//! The messages of the protocol as bytes, and what the bytes of a datagram are to the server and to a client.
//!
//! The definitions stand in `specs/`: `bytes_of` a message, `datagram_in` for the server, and `heard_in` for a client.
//! Each reads any bytes. `read_incoming` and `read_heard` compute the last two, and `read_heard_in_place` lends the body. What
//! is to be sent is written by `write_call`, `call_bytes`, `reply_bytes` and `error_bytes`. The functions of `laws` have empty
//! bodies: each states a law about the definitions and is its proof.
#![tactic(auto)]

mod laws;
mod numbers;
mod to_bytes;
mod to_client;
mod to_server;
mod writing;

pub use laws::{client_reads_messages, server_reads_messages};
pub use numbers::{LONGEST_DATAGRAM, PROGRAM, RPC_VERSION, VERSION};
pub use to_bytes::{LONGEST_CALL, write_call};
pub use to_client::{Awaited, Heard, LentHeard, read_heard, read_heard_in_place};
pub use to_server::{Incoming, read_incoming};
pub use writing::{BegunReply, ErrorReply, call_bytes, error_bytes, reply_bytes};
