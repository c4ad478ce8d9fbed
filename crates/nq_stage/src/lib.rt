//! The messages of staged writes, read and written; what each side keeps of them (`pool`, `stager`), runs with staged writes as
//! definitions (`run`), and what holds of every such run (`every_run`).
//!
//! A STAGE sends the body of a delayed write ahead, and the server keeps it in memory alone, as NFS version 3 keeps an
//! UNSTABLE write (RFC 1813 section 3.3.7). A short COMMIT then stands for the push of that body (section 3.3.21). The
//! verifier is the server's boot, so it changes exactly when all bodies that are not stored are lost. A single body may go
//! before that, since a server keeps only so many.
//!
//! Each message has one spelling with AUTH_NULL (`specs/Messages.antt`). What any bytes are as such a message, says
//! `specs/Reading.antt`. Of the messages nothing takes memory but the datagrams that are written.
#![tactic(auto)]

pub mod every_run;
mod laws;
mod messages;
pub mod pool;
mod reading;
pub mod run;
pub mod stager;
mod writing;

pub use laws::messages_are_read;
pub use messages::{
    COMMIT_PROCEDURE, Commit, LentStage, Pushed, STAGE_PROCEDURE, UNSTAGED_STATUS, Written,
};
pub use reading::{is_unstaged, read_commit, read_push, read_stage, read_verifier};
pub use writing::{commit_bytes, stage_bytes, staged_bytes, unstaged_bytes, write_bytes};
