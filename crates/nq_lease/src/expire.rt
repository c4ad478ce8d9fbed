//! The ends of leases: a reading or non-caching row goes when its lease is over, a writing one when also the write slack
//! has passed since then and since its last write was heard (Macklem 1994).

mod ending;
mod ends;

pub use ending::{Fence, end_writing};
pub use ends::{due, end_reading};
