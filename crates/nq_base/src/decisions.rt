//! How requests are decided that are decided once: ATTACH, CREATE, WRITE, RESIZE and REMOVE.

use crate::changes::Change;
use crate::kept::Verdict;

/// What a server knows beside its kept state when it decides a request.
#[derive(Clone, Copy)]
pub enum Gate {
    /// It recovers, and the boot `opened` served last.
    Recovering {
        opened: u32,
    },
    /// This boot serves.
    Serving {
        /// The boot.
        boot: u32,
        /// Whether another host caches the file that the request names.
        conflict: bool,
        /// Whether the asking incarnation holds a writing lease on that file.
        writing_row: bool,
    },
}

/// How a request was decided.
#[derive(Clone, Copy)]
pub enum Decided {
    /// It is decided now. The value is a file id or a revision where it was done, else 0.
    Fresh { verdict: Verdict, value: u64 },
    /// It was the last one that was decided, and is answered again.
    Again { verdict: Verdict, value: u64 },
    /// A later request of the incarnation was decided before.
    Old,
    /// A later incarnation of the host is attached.
    OldIncarnation,
    /// The incarnation is not attached.
    NotAttached,
    /// What would be kept of it is out of its bounds: an incarnation from 2^31 on, or a sequence or a revision from 2^61 on.
    OutOfBounds,
}

/// What a fresh request comes to. It is kept together with the row of the host that asked.
#[derive(Drop)]
pub struct Effect {
    /// How it is decided.
    pub verdict: Verdict,
    /// The value that is kept with the verdict: a file id or a revision where it was done, else 0.
    pub value: u64,
    /// What is changed beside the row of the host, which it does not name.
    pub change: Change,
}
