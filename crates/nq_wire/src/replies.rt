//! The replies: the results of the procedures.

mod decoding;
mod encoding;

pub use decoding::{decode_reply, decode_reply_in_place};
pub use encoding::{LONGEST_RESULTS, encode_reply, encode_reply_into};
