//! What a server keeps over its boots, and the rows of its lease table.

use crate::names::Name;
use crate::numbers::{FileId, Host, Inc, Rev, Seq, Ticks};
use crate::tags::{Mode, Tag, Who};

/// A file without its blocks.
#[derive(Clone, Copy)]
pub struct FileRow {
    /// Its id.
    pub id: FileId,
    /// Its name.
    pub name: Name,
    /// Its length in blocks, 1 to 1024.
    pub blocks: u32,
    /// Its modify revision.
    pub rev: Rev,
}

/// How a request that is decided once was decided.
#[derive(Clone, Copy)]
pub enum Verdict {
    /// It was done.
    Done,
    /// The write comes too late: the file changed, or the lease is of an earlier boot.
    Fenced,
    /// The name is there.
    Exist,
    /// There is no room.
    NoSpace,
    /// The block or length is out of range.
    Invalid,
    /// The file is not kept.
    Stale,
    /// It was put off, and is to come again as another request.
    TryLater,
}

/// The row of a host: which request was decided last, and how.
#[derive(Clone, Copy)]
pub struct HostRow {
    /// The incarnation that is attached.
    pub inc: Inc,
    /// The sequence that was decided last; 0 where none was.
    pub seq: Seq,
    /// How it was decided.
    pub verdict: Verdict,
    /// The value that is answered with Done: a file id or a revision.
    pub value: u64,
}

/// A lease as the server's table has it (Gray and Cheriton 1989).
#[derive(Clone, Copy)]
pub struct Row {
    /// The file.
    pub file: FileId,
    /// The holder.
    pub who: Who,
    /// The kind of lease.
    pub mode: Mode,
    /// The latest tag.
    pub tag: Tag,
    /// The first tag of the unbroken chain.
    pub since: Tag,
    /// When the lease is over by the server's clock.
    pub until: Ticks,
    /// When a write of the holder was last heard.
    pub heard: Ticks,
    /// Whether the holder was asked to give the lease up.
    pub evicting: bool,
}

/// What tells rows apart: there is one for a file and a host.
#[derive(Clone, Copy, PartialEq, Eq, PartialOrd, Ord)]
pub struct RowKey {
    /// The file.
    pub file: FileId,
    /// The host.
    pub host: Host,
}
