//! How storms end.

use nq_world::Limit;

/// How a storm ended.
#[derive(Drop)]
pub enum Stormed {
    /// All its events were taken in.
    Done,
    /// There were too many events, or too many packets, before the next event.
    Limit(Limit),
    /// The keeper failed, which it has counted.
    Fault,
    /// Memory was wanting.
    Memory,
}
