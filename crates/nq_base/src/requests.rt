//! The requests of clients, the server's notice, and the replies.

use crate::blocks::Block;
use crate::names::Name;
use crate::numbers::{BlockNo, FileId, Inc, Number, Rev, Seq};
use crate::tags::{Grant, Tag, Want, Who};

/// What a delayed write rests on: it is stored only over this revision in this boot.
#[derive(Clone, Copy)]
pub struct PushBase {
    /// The boot of the lease under which the write was delayed.
    pub boot: u32,
    /// The revision that the client knows.
    pub base: Rev,
}

/// A request, one variant for each procedure.
#[derive(Drop)]
pub enum Request {
    /// Procedure 0: asks for nothing.
    Null,
    /// Procedure 1: the incarnation begins.
    Attach {
        who: Who,
    },
    /// Procedure 2: asks for the id and length of a name.
    Lookup {
        who: Who,
        name: Name,
    },
    /// Procedure 3: makes a file.
    Create {
        who: Who,
        seq: Seq,
        name: Name,
        blocks: u32,
    },
    /// Procedure 4: asks for a file's length and revision.
    GetAttr {
        who: Who,
        file: FileId,
    },
    /// Procedure 5: reads a block for the call of this number, and may ask for a lease.
    Read {
        who: Who,
        call: u64,
        file: FileId,
        block: BlockNo,
        want: Option<Want>,
    },
    /// Procedure 6: writes a block. With `push` it stores the delayed writes from `first` to `last`; without, it
    /// goes through and the two are one.
    Write {
        who: Who,
        seq: Seq,
        file: FileId,
        block: BlockNo,
        first: Number,
        last: Number,
        push: Option<PushBase>,
        body: Block,
    },
    /// Procedure 7: asks for a lease.
    GetLease {
        who: Who,
        file: FileId,
        want: Want,
    },
    /// Procedure 8: the lease was given up. There is no reply.
    Vacated {
        who: Who,
        file: FileId,
        tag: Tag,
    },
    /// Procedure 9: the server's notice that a lease is to be given up. There is no reply.
    Evicted {
        who: Who,
        file: FileId,
        tag: Tag,
    },
    /// Procedure 10: gives a file another length, for the call of this number.
    Resize {
        who: Who,
        seq: Seq,
        call: u64,
        file: FileId,
        blocks: u32,
    },
    /// Procedure 11: takes a file away, for the call of this number.
    Remove {
        who: Who,
        seq: Seq,
        call: u64,
        file: FileId,
    },
}

/// A status other than OK. The first five are RFC 1813's, the others this project's.
#[derive(Clone, Copy)]
pub enum Refusal {
    /// 2, NFS3ERR_NOENT: no file has the name.
    NoEnt,
    /// 17, NFS3ERR_EXIST: the name is there.
    Exist,
    /// 22, NFS3ERR_INVAL: a block or length out of range.
    Inval,
    /// 28, NFS3ERR_NOSPC: no room.
    NoSpc,
    /// 70, NFS3ERR_STALE: the file is not kept.
    Stale,
    /// 501: put off; ask again later.
    TryLater,
    /// 502: the delayed write comes too late.
    Fenced,
    /// 503: the incarnation is not attached.
    NotAttached,
    /// 504: a later request was decided already.
    Old,
}

/// A reply, one variant for each procedure's result and one for a refusal. `inc` repeats the request's incarnation.
#[derive(Drop)]
pub enum Reply {
    /// To NULL.
    Null,
    /// To ATTACH.
    Attach {
        inc: Inc,
    },
    /// To LOOKUP.
    Lookup {
        inc: Inc,
        file: FileId,
        blocks: u32,
    },
    /// To CREATE.
    Create {
        inc: Inc,
        file: FileId,
    },
    /// To GETATTR.
    GetAttr {
        inc: Inc,
        blocks: u32,
        rev: Rev,
    },
    /// To READ.
    Read {
        inc: Inc,
        rev: Rev,
        body: Block,
        grant: Option<Grant>,
    },
    /// To WRITE.
    Write {
        inc: Inc,
        rev: Rev,
    },
    /// To GETLEASE.
    GetLease {
        inc: Inc,
        grant: Option<Grant>,
    },
    /// To RESIZE.
    Resize {
        inc: Inc,
        rev: Rev,
    },
    /// To REMOVE.
    Remove {
        inc: Inc,
    },
    /// To any of them but NULL, with a status other than OK.
    Refused {
        inc: Inc,
        status: Refusal,
    },
}
