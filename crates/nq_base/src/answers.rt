//! What a call is answered.

use crate::blocks::Block;
use crate::lists::Losses;
use crate::numbers::FileId;

/// What an answer `Ok` brings.
#[derive(Drop)]
pub enum Value {
    /// Nothing: a write, a sync, a resize, a removal.
    Nothing,
    /// The id of a file.
    File(FileId),
    /// The length of a file in blocks.
    Blocks(u32),
    /// A block as it was read.
    Body(Block),
}

/// The answer to a call.
#[derive(Drop)]
pub enum Answer {
    /// The call did what it says.
    Ok(Value),
    /// The answer comes later.
    Pending,
    /// Another call is under way, or the client is not attached.
    Busy,
    /// These delayed writes of the file were lost.
    Lost(Losses),
    /// The file is not kept (RFC 1813, NFS3ERR_STALE).
    Stale,
    /// No file has the name (RFC 1813, NFS3ERR_NOENT).
    NoEntry,
    /// The name is there already (RFC 1813, NFS3ERR_EXIST).
    Exists,
    /// The server has no room for so many files or blocks (RFC 1813, NFS3ERR_NOSPC).
    NoSpace,
    /// The block is not below the file's length, or the length is none that a file can have (RFC 1813, NFS3ERR_INVAL).
    Range,
    /// The client has no room for another delayed write.
    DirtyFull,
    /// Memory was wanting; nothing changed.
    Memory,
    /// The client has taken in all the calls, datagrams and ticks that it counts.
    Spent,
}
