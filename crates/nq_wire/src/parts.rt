//! The parts of requests and results: who asks, tags, wants, grants, names and bodies. Messages of other crates are made of
//! these too.

pub(crate) mod decoding;
pub(crate) mod encoding;

pub use decoding::{end, name, optional_grant, tag, who};
pub use encoding::{name_len, put_base, put_body, put_name, put_optional_grant, put_tag, put_who};
