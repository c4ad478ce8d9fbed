//! Calls as they are kept: in few bytes, since a journal has many.

ghost use Rattle.std.specs.Prelude.{◌≡◌, IfOk};
ghost use Rattle.nq_base.specs.KeptCalls.{told_of};

use crate::entries::Told;
use crate::numbers::{BlockNo, FileId};
use nq_memory::NoMemory;
use std::alloc::Global;
use std::marker::Model;

/// What is told of a call, in few bytes. Clauses see it as what is told.
#[derive(Drop)]
pub struct KeptCall {
    words: CallWords,
}

impl Model for KeptCall {
    ghost use Rattle.nq_base.specs.KeptCalls.{told_of};
    ghost use Rattle.nq_base.specs.declared.entries.Told.{Told};

    ghost Value = { Told };

    ghost view = { λ k. told_of k.words };
}

impl KeptCall {
    /// Keeps what is told of a call. Only one that has a name takes memory.
    ///
    /// # Errors
    ///
    /// Only want of memory.
    pub fn new(alloc: Global, told: &Told) -> Result<KeptCall, NoMemory>
        ensures { IfOk result (λ kept. kept ≡ told.now) }
    {
        let words = words_of(alloc, told)?;
        Ok(KeptCall { words })
    }

    /// What is told.
    pub fn told(&self) -> Told
        ensures { result ≡ self.now }
    {
        told_of(&self.words)
    }
}

/// What is told of a call, as it is kept: a name, which few calls have, stands apart.
#[derive(Drop)]
pub(crate) enum CallWords {
    Named(Box<Told>),
    Attr {
        file: FileId,
    },
    Read {
        file: FileId,
        block: BlockNo,
    },
    Fetch {
        file: FileId,
        block: BlockNo,
    },
    Write {
        file: FileId,
        block: BlockNo,
        value: u32,
    },
    Put {
        file: FileId,
        block: BlockNo,
        value: u32,
    },
    Sync {
        file: FileId,
    },
    Resize {
        file: FileId,
        blocks: u32,
    },
    Remove {
        file: FileId,
    },
}

/// What is kept of what is told.
fn words_of(alloc: Global, told: &Told) -> Result<CallWords, NoMemory>
    ensures { IfOk result (λ kept. told_of kept ≡ told.now) }
{
    Ok(match *told {
        Told::Create { name, blocks } => {
            CallWords::Named(Box::new(alloc, Told::Create { name, blocks })?)
        }
        Told::Lookup { name } => CallWords::Named(Box::new(alloc, Told::Lookup { name })?),
        Told::Attr { file } => CallWords::Attr { file },
        Told::Read { file, block } => CallWords::Read { file, block },
        Told::Fetch { file, block } => CallWords::Fetch { file, block },
        Told::Write { file, block, value } => CallWords::Write { file, block, value },
        Told::Put { file, block, value } => CallWords::Put { file, block, value },
        Told::Sync { file } => CallWords::Sync { file },
        Told::Resize { file, blocks } => CallWords::Resize { file, blocks },
        Told::Remove { file } => CallWords::Remove { file },
    })
}

/// What a call tells that is kept.
fn told_of(kept: &CallWords) -> Told
    ensures { result ≡ told_of kept.now }
{
    match kept {
        CallWords::Named(told) => **told,
        CallWords::Attr { file } => Told::Attr { file: *file },
        CallWords::Read { file, block } => Told::Read {
            file: *file,
            block: *block,
        },
        CallWords::Fetch { file, block } => Told::Fetch {
            file: *file,
            block: *block,
        },
        CallWords::Write { file, block, value } => Told::Write {
            file: *file,
            block: *block,
            value: *value,
        },
        CallWords::Put { file, block, value } => Told::Put {
            file: *file,
            block: *block,
            value: *value,
        },
        CallWords::Sync { file } => Told::Sync { file: *file },
        CallWords::Resize { file, blocks } => Told::Resize {
            file: *file,
            blocks: *blocks,
        },
        CallWords::Remove { file } => Told::Remove { file: *file },
    }
}
