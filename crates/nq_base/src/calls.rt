//! What users call, and the events of a schedule.

ghost use Rattle.std.specs.Prelude.{◌≡◌, IfOk};
ghost use Rattle.nq_base.specs.Calls.{told};

use crate::blocks::Block;
use crate::entries::Told;
use crate::names::Name;
use crate::numbers::{BlockNo, FileId, Host};
use nq_memory::NoMemory;
use std::alloc::Global;

/// A call of a user at a client.
#[derive(Drop)]
pub enum Call {
    /// Makes a file of so many blocks of zeros.
    Create {
        name: Name,
        blocks: u32,
    },
    /// Asks for the id of a name.
    Lookup {
        name: Name,
    },
    /// Asks for the length of a file.
    Attr {
        file: FileId,
    },
    /// Reads a block under a reading lease.
    Read {
        file: FileId,
        block: BlockNo,
    },
    /// Reads a block from the server, under no lease.
    Fetch {
        file: FileId,
        block: BlockNo,
    },
    /// Writes a block, and is answered before the write is stored where a writing lease is held.
    Write {
        file: FileId,
        block: BlockNo,
        body: Block,
    },
    /// Writes a block, and is answered once the write is stored.
    Put {
        file: FileId,
        block: BlockNo,
        body: Block,
    },
    /// Stores all delayed writes of a file.
    Sync {
        file: FileId,
    },
    /// Gives a file another length in blocks.
    Resize {
        file: FileId,
        blocks: u32,
    },
    /// Takes a file away.
    Remove {
        file: FileId,
    },
}

impl Call {
    /// The call as a journal tells it: a body by its value.
    pub fn told(&self) -> Told
        ensures { result ≡ told self.now }
    {
        match self {
            Call::Create { name, blocks } => Told::Create {
                name: *name,
                blocks: *blocks,
            },
            Call::Lookup { name } => Told::Lookup { name: *name },
            Call::Attr { file } => Told::Attr { file: *file },
            Call::Read { file, block } => Told::Read {
                file: *file,
                block: *block,
            },
            Call::Fetch { file, block } => Told::Fetch {
                file: *file,
                block: *block,
            },
            Call::Write { file, block, body } => Told::Write {
                file: *file,
                block: *block,
                value: body.value(),
            },
            Call::Put { file, block, body } => Told::Put {
                file: *file,
                block: *block,
                value: body.value(),
            },
            Call::Sync { file } => Told::Sync { file: *file },
            Call::Resize { file, blocks } => Told::Resize {
                file: *file,
                blocks: *blocks,
            },
            Call::Remove { file } => Told::Remove { file: *file },
        }
    }

    /// A second call of the same words. A body that a number fills takes no memory.
    ///
    /// # Errors
    ///
    /// Only want of memory.
    pub fn copied(&self, alloc: Global) -> Result<Call, NoMemory>
        ensures { IfOk result (λ c. c ≡ self.now) }
    {
        Ok(match self {
            Call::Create { name, blocks } => Call::Create {
                name: *name,
                blocks: *blocks,
            },
            Call::Lookup { name } => Call::Lookup { name: *name },
            Call::Attr { file } => Call::Attr { file: *file },
            Call::Read { file, block } => Call::Read {
                file: *file,
                block: *block,
            },
            Call::Fetch { file, block } => Call::Fetch {
                file: *file,
                block: *block,
            },
            Call::Write { file, block, body } => Call::Write {
                file: *file,
                block: *block,
                body: body.copied(alloc)?,
            },
            Call::Put { file, block, body } => Call::Put {
                file: *file,
                block: *block,
                body: body.copied(alloc)?,
            },
            Call::Sync { file } => Call::Sync { file: *file },
            Call::Resize { file, blocks } => Call::Resize {
                file: *file,
                blocks: *blocks,
            },
            Call::Remove { file } => Call::Remove { file: *file },
        })
    }
}

/// One atomic step at one host.
#[derive(Drop)]
pub enum Event {
    /// A user at a host calls.
    Call { host: Host, call: Call },
    /// The receiver of this packet takes it in. Packets are numbered from 0, as they are sent.
    Deliver(u64),
    /// The server's clock ticks.
    ServerTick,
    /// A host's clock ticks.
    ClientTick(Host),
    /// A host starts again, as the next incarnation.
    Restart(Host),
    /// The server stops and boots; its longest term in ticks is from then on `longest`.
    Crash { longest: u32 },
}
