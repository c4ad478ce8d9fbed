//! A disk that keeps bytes over a stop: the trait `Disk`, an object in memory that fails where a test wants it, and one file.
//!
//! A contract knows a disk by its bytes as they read, where it tells them, by a count of its faults, and by what a stop
//! between two moments may leave of the bytes. An answer `Failed` comes only where that count rose in the call.
#![tactic(auto)]

mod copying;
mod disk;
mod file_disk;
mod history;
mod mem_disk;
pub mod redo;

pub use disk::{Disk, DiskFault};
pub use file_disk::FileDisk;
pub use mem_disk::{MemDisk, Room};
pub use nq_memory::NoMemory;
