//! Directories: the prefix that names one, the directory of a name, and the names of a directory in order, so that one of them is
//! found by halving; the messages that list them (`listing`), and what a host keeps of the lists (`name_cache`).
#![tactic(auto)]

mod fronts;
mod leaf;
mod listed;
pub mod listing;
pub mod name_cache;
mod names;
mod prefix;

pub use leaf::BegunLeaf;
pub use listed::DirNames;
pub use names::FileName;
pub use prefix::{Prefix, directory_of};
