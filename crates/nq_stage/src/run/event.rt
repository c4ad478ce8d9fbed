//! The events of a staged schedule.

use nq_base::{Event, Host};

/// One atomic step.
#[derive(Drop)]
pub enum StagedEvent {
    /// An event of the inner world; a delivery speaks of an outer packet.
    Plain(Event),
    /// A host's side offers a body of its client's delayed writes.
    Stage(Host),
}

/// What a staged run counted.
#[derive(Clone, Copy)]
pub struct StagedCounts {
    /// STAGE packets that were taken in.
    pub staged: u32,
    /// COMMITs of which the WRITE was rebuilt.
    pub commits: u32,
    /// Replies UNSTAGED that were made.
    pub unstaged: u32,
}
