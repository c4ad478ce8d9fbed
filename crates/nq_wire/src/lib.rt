//! The requests of clients and the replies of the server as bytes: the arguments and the results of the
//! twelve procedures of the leased file sharing program (Macklem 1994), as rows of XDR items (RFC 1014).
//!
//! Each request that can be made has one spelling, its arguments (`specs/Request.antt`), and each reply
//! one, its results (`specs/Reply.antt`). Decoding answers exactly for these. Statuses that RFC 1813 has
//! keep its numbers. An [`Outbox`] holds datagrams until they are sent.
#![tactic(auto)]

mod fault;
pub mod laws;
mod lent;
mod outbox;
pub mod parts;
mod procedure;
mod replies;
mod requests;
mod status;

pub use fault::{Garbage, WireFault};
pub use lent::{LentBlock, LentReply};
pub use nq_base::{Party, PushBase, Refusal, Reply, Request};
pub use nq_memory::NoMemory;
pub use outbox::Outbox;
pub use procedure::Procedure;
pub use replies::{
    LONGEST_RESULTS, decode_reply, decode_reply_in_place, encode_reply, encode_reply_into,
};
pub use requests::{LONGEST_ARGUMENTS, decode_request, encode_request, encode_request_into};
