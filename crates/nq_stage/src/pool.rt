//! The bodies that a server's side keeps in memory alone, from one boot to the next.
//!
//! A [`Pool`] takes the body of each STAGE and answers with the verifier of its boot, as a server of NFS version 3 answers an
//! UNSTABLE write (RFC 1813 section 3.3.7). Of a COMMIT (section 3.3.21) it makes the WRITE for which it stands, where it has
//! the body; else the answer is UNSTAGED, and the client sends the WRITE itself. It stores nothing: what a server makes of
//! the WRITE is the server's. With the boot the pool ends, so the next boot begins with an empty one.

mod entries;
mod laws;
mod pool;

pub use laws::answers_with_its_boot;
pub use pool::{Pool, Rebuilt, Staging};
