//! What a change of the kept state may hold. A change is kept whole or not at all.

use crate::blocks::Block;
use crate::kept::{FileRow, HostRow};
use crate::numbers::{BlockNo, FileId, Host};

/// The numbers that a server keeps over its boots.
#[derive(Clone, Copy)]
pub struct Heads {
    /// The number of the last boot; 0 before the first.
    pub boot: u32,
    /// The last boot that served; 0 where none did.
    pub opened: u32,
    /// The longest term in ticks that the boot `opened` granted.
    pub longest: u32,
    /// The id of the next file.
    pub next: u32,
}

/// How much is kept.
#[derive(Clone, Copy)]
pub struct Space {
    /// How many files there are, at most 256.
    pub files: u32,
    /// How many blocks they have together, at most 16,384.
    pub blocks: u32,
}

/// A block that gets another body.
#[derive(Drop)]
pub struct BlockChange {
    /// The file.
    pub file: FileId,
    /// The block.
    pub block: BlockNo,
    /// Its new body.
    pub body: Block,
}

/// A host that gets another row.
#[derive(Clone, Copy)]
pub struct HostChange {
    /// The host, below 64.
    pub host: Host,
    /// Its new row.
    pub row: HostRow,
}

/// One change of the kept state: what it does not name stays.
#[derive(Drop)]
pub struct Change {
    /// A file as it becomes: a new one, or one that is kept with another revision or another number of blocks. Further
    /// blocks are zeros.
    pub file: Option<FileRow>,
    /// A block as it becomes, of a file as it then stands.
    pub block: Option<BlockChange>,
    /// The row of a host as it becomes.
    pub host: Option<HostChange>,
    /// The numbers of the server as they become.
    pub heads: Option<Heads>,
    /// A file that is taken away.
    pub removed: Option<FileId>,
}
