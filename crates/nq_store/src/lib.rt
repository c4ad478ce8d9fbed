//! What a server keeps, on a disk; and what holds of every image that a store leaves (`images`).
#![tactic(auto)]

mod examining;
mod fault;
pub mod images;
mod loading;
mod migrating;
mod opening;
mod store;
mod writing;

pub use fault::OpenFault;
pub use nq_plan::format::format;
pub use store::Store;
