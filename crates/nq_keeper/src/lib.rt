//! What a server keeps over its boots: files, one row for each host, and the numbers of its boots. A server reads it
//! block by block, and changes it by whole changes alone. `requests` decides requests over it, and boots.
//!
//! A contract knows a keeper by its content, where it tells it, by a count of its faults, and by what a stop between two
//! moments may leave. An answer `Failed` comes only where that count rose in the call.
#![tactic(auto)]

mod bounds;
mod files;
mod keeper;
mod list_keeper;
mod names;
mod raising;
pub mod requests;
mod stored_file;

pub use bounds::{can_be_kept, can_rise};
pub use keeper::{KeepFault, Keeper};
pub use list_keeper::ListKeeper;
pub use nq_base::{BlockChange, Change, FileRow, Heads, HostChange, HostRow, Space, Verdict};
pub use raising::raised;
