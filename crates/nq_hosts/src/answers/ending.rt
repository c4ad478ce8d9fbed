//! Where calls stop.

use nq_base::ending::Fault;

/// Where calls stopped: at the call of a line, or at attaching, which is line 0.
#[derive(Clone, Copy)]
pub struct Stop {
    /// Why.
    pub why: Fault,
    /// The number of the line, from 1; 0 is attaching.
    pub line: u32,
}
