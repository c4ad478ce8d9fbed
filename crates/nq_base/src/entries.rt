//! The entries of a journal.

use crate::kept_calls::KeptCall;
use crate::lists::Spans;
use crate::names::Name;
use crate::numbers::{BlockNo, FileId, Number, Ticks};
use crate::tags::{Mode, Tag, Who};

/// A call as a journal tells it: a body is told by its value.
#[derive(Clone, Copy)]
pub enum Told {
    /// `create`.
    Create {
        name: Name,
        blocks: u32,
    },
    /// `lookup`.
    Lookup {
        name: Name,
    },
    /// `attr`.
    Attr {
        file: FileId,
    },
    /// `read`.
    Read {
        file: FileId,
        block: BlockNo,
    },
    /// `fetch`.
    Fetch {
        file: FileId,
        block: BlockNo,
    },
    /// `write`.
    Write {
        file: FileId,
        block: BlockNo,
        value: u32,
    },
    /// `put`.
    Put {
        file: FileId,
        block: BlockNo,
        value: u32,
    },
    /// `sync`.
    Sync {
        file: FileId,
    },
    /// `resize`.
    Resize {
        file: FileId,
        blocks: u32,
    },
    /// `remove`.
    Remove {
        file: FileId,
    },
}

/// An answer as a journal tells it.
#[derive(Drop)]
pub enum Said {
    /// `ok`.
    Ok,
    /// `ok V`: a cached read's value, a file id or a length in blocks.
    OkValue(u32),
    /// `ok V by K`: a read that the server served in packet K.
    OkBy { value: u32, packet: u64 },
    /// `lost`, with the spans of the lost writes.
    Lost(Spans),
    /// `busy`.
    Busy,
    /// `stale`.
    Stale,
    /// `noentry`.
    NoEntry,
    /// `exists`.
    Exists,
    /// `nospace`.
    NoSpace,
    /// `range`.
    Range,
    /// `dirtyfull`.
    DirtyFull,
}

/// An entry of a journal. Times are in ticks of the server's clock.
#[derive(Drop)]
pub enum Entry {
    /// Call `q` of an incarnation, counted from 1.
    C {
        who: Who,
        q: u64,
        told: KeptCall,
    },
    /// A write: delayed at the client, or `through` at the server.
    W {
        who: Who,
        file: FileId,
        block: BlockNo,
        number: Number,
        value: u32,
        through: bool,
    },
    /// A read: cached at the client, or served by the server in a reply packet.
    R {
        who: Who,
        q: u64,
        file: FileId,
        block: BlockNo,
        value: u32,
        served: Option<u64>,
    },
    /// The server stored the delayed writes from `first` to `last` of a block.
    S {
        who: Who,
        file: FileId,
        block: BlockNo,
        first: Number,
        last: Number,
        now: Ticks,
    },
    /// The client found the delayed writes from `first` to `last` of a block lost.
    L {
        who: Who,
        file: FileId,
        block: BlockNo,
        first: Number,
        last: Number,
    },
    /// A grant of `term` ticks.
    G {
        who: Who,
        file: FileId,
        mode: Mode,
        tag: Tag,
        term: u32,
        now: Ticks,
    },
    /// A writing lease ended in silence.
    F {
        who: Who,
        file: FileId,
        until: Ticks,
        heard: Ticks,
        now: Ticks,
    },
    /// The recovery of a boot ended.
    O {
        boot: u32,
        until: Ticks,
        heard: Ticks,
        now: Ticks,
    },
    /// A host started again, as this incarnation.
    B {
        who: Who,
    },
    /// The server booted; `longest` is the longest term, in ticks, of the boot that served last.
    X {
        boot: u32,
        now: Ticks,
        longest: u32,
    },
    /// Call `q` gave a file another length in blocks; a removal gives it none.
    Z {
        who: Who,
        q: u64,
        file: FileId,
        from: u32,
        to: u32,
    },
    /// The answer to call `q`.
    A {
        who: Who,
        q: u64,
        said: Said,
    },
}
