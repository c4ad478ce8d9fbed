//! What the messages say.

ghost use Rattle.std.specs.Prelude.{◌≡◌};
ghost use Rattle.nq_stage.specs.Messages.{written_of};

use nq_base::{BlockNo, FileId, Host, Number, PushBase, Seq, Who};

/// The procedure COMMIT. The server proper answers it as one that is not served.
pub const COMMIT_PROCEDURE: u32 = 12;

/// The procedure STAGE. The server proper answers it as one that is not served.
pub const STAGE_PROCEDURE: u32 = 14;

/// The status of a COMMIT whose body the server does not have.
pub const UNSTAGED_STATUS: u32 = 505;

/// Which delayed write a body is of: the last one of its block in a push. It is what bodies are kept by, so its numbers are
/// plain.
#[derive(Clone, Copy, PartialEq, Eq, Hash)]
pub struct Written {
    /// The host that wrote.
    pub host: Host,
    /// The number of its incarnation.
    pub inc: u32,
    /// The file.
    pub file: FileId,
    /// The block.
    pub block: BlockNo,
    /// The number of the write.
    pub last: u64,
}

/// A STAGE as it stands in a datagram, which lends its body.
#[derive(Clone, Copy)]
pub struct LentStage<'a> {
    /// The number of the call.
    pub xid: u32,
    /// Which write the body is of.
    pub written: Written,
    /// The 4096 bytes of the body.
    pub body: &'a [u8],
}

/// A push without its body: a WRITE under a writing lease.
#[derive(Clone, Copy)]
pub struct Pushed {
    /// The number of the call.
    pub xid: u32,
    /// Who pushes.
    pub who: Who,
    /// The sequence of the request.
    pub seq: Seq,
    /// The file.
    pub file: FileId,
    /// The block.
    pub block: BlockNo,
    /// The number of the first write that it stores.
    pub first: Number,
    /// The number of the last write that it stores.
    pub last: Number,
    /// What it rests on.
    pub base: PushBase,
}

/// A COMMIT: it stands for a push whose body was staged.
#[derive(Clone, Copy)]
pub struct Commit {
    /// The push.
    pub pushed: Pushed,
    /// The boot of the server that took the body.
    pub verifier: u32,
}

impl Pushed {
    /// Which write its body is of.
    pub fn written(&self) -> Written
        ensures { result ≡ written_of self.now }
    {
        Written {
            host: self.who.host,
            inc: self.who.inc.0,
            file: self.file,
            block: self.block,
            last: self.last.0,
        }
    }
}
