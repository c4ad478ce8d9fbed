//! What a host that is about to read or change a file is told: whether another host's lease is in the way, and the lease
//! that it gets (Gray and Cheriton 1989, Macklem 1994).

mod cases;
mod rows;
mod scan;

pub use cases::ask;
pub use scan::conflict;
