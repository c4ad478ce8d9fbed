//! The requests: the arguments of the procedures.

mod decoding;
mod encoding;

pub use decoding::decode_request;
pub use encoding::{LONGEST_ARGUMENTS, encode_request, encode_request_into};
