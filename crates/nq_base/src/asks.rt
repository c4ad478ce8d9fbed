//! What the lease table is asked and answers, and a delayed write that is sent.

use crate::blocks::Block;
use crate::kept::Row;
use crate::numbers::{BlockNo, FileId, Number, Rev, Ticks};
use crate::tags::{Grant, Want, Who};

/// What a host is about to do with a file.
#[derive(Clone, Copy)]
pub enum Access {
    /// To read it.
    Read,
    /// To change it.
    Write,
}

/// What the lease table is asked before a file is read or changed.
#[derive(Clone, Copy)]
pub struct Question {
    /// Who asks.
    pub who: Who,
    /// The file.
    pub file: FileId,
    /// What the asker is about to do with it.
    pub access: Access,
    /// The lease that the asker wants, if any.
    pub want: Option<Want>,
    /// The longest term of this boot, in ticks.
    pub longest: u32,
    /// The server's time, in ticks.
    pub time: Ticks,
    /// The file's revision.
    pub rev: Rev,
    /// The file's length in blocks.
    pub blocks: u32,
}

/// The row that put an asker off.
#[derive(Clone, Copy)]
pub struct Clash {
    /// The row as it stood before.
    pub row: Row,
    /// Whether it is the asker's own.
    pub own: bool,
}

/// What an asker is told.
#[derive(Clone, Copy)]
pub enum Asked {
    /// Go on; no lease was wanted.
    Free,
    /// Go on under this lease.
    Granted(Grant),
    /// Ask again later.
    TryLater(Clash),
    /// Go on without a lease, since the table is full.
    NoLease,
}

/// The delayed writes from `first` to `last` of a block: its body is that of the last one.
#[derive(Drop)]
pub struct Push {
    /// The file.
    pub file: FileId,
    /// The block.
    pub block: BlockNo,
    /// The number of the first write.
    pub first: Number,
    /// The number of the last write.
    pub last: Number,
    /// What the last write wrote.
    pub body: Block,
}
