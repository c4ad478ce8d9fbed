//! What a store has in memory of its image, what it reads there, and which ranges of bytes a change writes. But for `format` no disk is in
//! it.
#![tactic(auto)]

mod block_table;
mod bodies;
mod finding;
pub mod format;
mod placing;
mod planning;
mod ranges;
mod reading;
mod settling;
mod stored_file;
mod tables;

pub use placing::Placed;
pub use planning::Plan;
pub use stored_file::StoredFile;
pub use tables::Tables;
