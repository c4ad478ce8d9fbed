//! Whether there is time to go on.

use nq_base::NoMemory;

/// Whoever says whether there is time to go on.
pub trait Patience {
    /// Whether no time is left.
    fn is_over(&mut self) -> bool;
}

/// There is always time.
#[derive(Clone, Copy)]
pub struct Endless;

impl Patience for Endless {
    fn is_over(&mut self) -> bool {
        false
    }
}

/// Why a run was not seen to its end.
#[derive(Clone, Copy, PartialEq, Eq)]
pub enum Unseen {
    /// Memory was wanting.
    Memory,
    /// No time was left.
    Time,
}

impl From<NoMemory> for Unseen {
    fn from(_: NoMemory) -> Unseen {
        Unseen::Memory
    }
}
