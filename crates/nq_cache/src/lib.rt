//! What a client caches: clean blocks, the most recently used first, and the revision of each file's blocks.
#![tactic(auto)]

mod blocks;
mod cache;
mod entries;
mod granting;
mod revisions;

pub use cache::Cache;
pub use granting::{caches_read, caches_written, cleans, lets_cache};
