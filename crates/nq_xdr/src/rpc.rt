//! The messages of RPC version 2, by RFC 1057, read and written.
//!
//! A message is a call or a reply (`specs/Message.antt`). Credentials and verifiers of any flavor are
//! read and ignored, if their body is well formed; AUTH_NULL is written for both. The arguments of a
//! call and the results of a reply run to the end of the message and are bytes here.

mod bytes;
mod decoding;
mod encoding;
mod fault;
pub mod laws;
mod lent;
mod message;
mod number;

pub use bytes::Bytes;
pub use decoding::{decode, decode_in_place};
pub use encoding::{begin_call, begin_reply, encode, encode_into};
pub use fault::RpcFault;
pub use lent::{LentCall, LentMessage, LentOutcome, LentReply};
pub use message::{CallHead, CallMessage, Message, Outcome, ReplyMessage};
pub use nq_memory::NoMemory;
