//! What is known of a name.

use nq_base::FileId;

/// What is known of a name.
#[derive(Clone, Copy, PartialEq, Eq)]
pub enum Found {
    /// This file has it.
    File(FileId),
    /// No file has it.
    Absent,
    /// There is no whole list of its directory, or the lease of the list does not run.
    Unknown,
}
