//! Whole files of 0 to 4,194,304 bytes: which calls store and get one, whatever is answered.
//!
//! The bytes stand in a file of their own, which nobody else names and nobody changes. The file that has the name tells in its first block,
//! the *head*, which file that is. So one write of one block changes a whole file.
#![tactic(auto)]

mod answers;
mod getting;
mod heads;
mod laws;
mod pieces;
mod storing;
mod tidying;

pub use getting::{Getting, GettingSays};
pub use heads::{FileHead, MOST_BYTES, head_block, head_in, heads_are_read};
pub use laws::{got_files_were_stored, heads_come_last};
pub use storing::{Storing, StoringSays};
pub use tidying::{Tidying, TidyingSays};
