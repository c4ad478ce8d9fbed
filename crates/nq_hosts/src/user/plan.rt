//! How the service is used.

use nq_base::Who;

/// How the service is used: by whom, and within which bounds.
#[derive(Clone, Copy)]
pub struct UsePlan {
    /// The host and its incarnation.
    pub who: Who,
    /// The most turns for attaching, and for each call.
    pub turns: u32,
    /// The most bytes of input that are read.
    pub limit: usize,
}
