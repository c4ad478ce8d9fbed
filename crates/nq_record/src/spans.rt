//! What lasts for some time.

use nq_base::{FileId, Host, Mode, Party};

/// What lasts: a lease at its holder, a row at the server, or a recovery.
#[derive(Clone, Copy, PartialEq)]
pub enum SpanKind {
    /// A lease that a host holds.
    Lease {
        file: FileId,
        mode: Mode,
    },
    /// A row of the server for a host.
    Row {
        file: FileId,
        host: Host,
        mode: Mode,
    },
    /// A recovery of the server.
    Recovery,
}

/// Something begins or ends.
#[derive(Clone, Copy)]
pub struct Change {
    /// What it is.
    pub kind: SpanKind,
    /// Whether it begins.
    pub begins: bool,
}

/// How long something lasts.
#[derive(Clone, Copy)]
pub struct Span {
    /// Where it is.
    pub party: Party,
    /// What it is.
    pub kind: SpanKind,
    /// The place of the event in which it begins.
    pub first: usize,
    /// The place of the event in which it ends, or of the last one that saw it.
    pub last: usize,
    /// Whether it goes on.
    pub open: bool,
}
