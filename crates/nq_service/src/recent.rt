//! A keeper that has copies of the blocks that were read last, so that a block that is read again and again costs no call of a disk.

mod keeper;
mod pieces;

pub use keeper::RecentKeeper;
