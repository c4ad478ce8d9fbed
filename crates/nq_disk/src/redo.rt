//! A redo record: a change of a disk that is whole or not at all, whenever a stop comes.

mod area;
mod batch;
mod change;
mod fields;
mod redo;
mod replay;
mod steps;

pub use crate::{Disk, DiskFault};
pub use area::Area;
pub use batch::Batch;
pub use nq_memory::NoMemory;
pub use redo::{Redo, RedoOpen};
