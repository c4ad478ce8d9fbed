//! What a client's side keeps of staged bodies.
//!
//! A [`Stager`] offers the bodies of delayed writes ahead of time, as a client of NFS version 3 sends UNSTABLE writes (RFC 1813
//! section 3.3.7), and keeps which of them the server acknowledged, each with the verifier of the boot that took it. It
//! shortens a push whose body was acknowledged to a COMMIT (section 3.3.21), and keeps the WRITE whole, so that it can be sent
//! after all where the server lost the body. It only looks at the client's delayed writes: a block stays delayed, whatever was
//! staged of it, until its push is stored.

mod acknowledged;
mod stager;

pub use stager::{HeardStage, Stager};
