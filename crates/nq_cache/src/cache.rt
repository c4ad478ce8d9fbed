//! The cache of a client.

ghost use Rattle.std.specs.Prelude.{◌≡◌, ◌≤◌, ◌+◌, [], option_map, true, IsSome, IsOk, OnOk, OnErr, IfOk};
ghost use Rattle.nq_model.specs.protocol.Client.{clean_at, drop_clean, purge, put_clean, revision_of, revision_or_zero, put_revision};
ghost use Rattle.nq_model.specs.protocol.Settle.{clean_body, looked_up};

use crate::blocks::Blocks;
use crate::entries::Key;
use crate::revisions::Revisions;
use nq_base::{Block, BlockNo, FileId, NoMemory, Rev, Spare};
use std::alloc::Global;
use std::marker::Model;

/// What a client caches: at most 512 clean blocks, and for each file the revision of its blocks. Clauses see the
/// blocks with the most recently used first, the revisions in order of files, and how many more files get a
/// revision before memory is wanted.
#[derive(Drop)]
pub struct Cache {
    clean: Blocks,
    revisions: Revisions,
}

impl Model for Cache {
    ghost use Rattle.nq_cache.specs.Cached.{Cached};

    ghost Value = { Cached };

    ghost view = { λ c. record { clean = c.clean; revisions = c.revisions.items; spare = c.revisions.spare } };
}

impl Cache {
    /// The empty cache.
    pub fn new(alloc: Global) -> Result<Cache, NoMemory>
        ensures { IfOk result (λ c. (c.clean ≡ []) × (c.revisions ≡ [])) }
    {
        let clean = Blocks::new(alloc)?;
        Ok(Cache {
            clean,
            revisions: Revisions::new(alloc),
        })
    }

    /// A copy of a block, if it is there, in room that is there. It comes to the front.
    pub fn read(&mut self, file: FileId, block: BlockNo, room: &mut Spare) -> Option<Block>
        requires { room.old ≡ true }
        ensures body { result ≡ clean_body (clean_at file block self.old.clean) }
        ensures front { self.new ≡ record self.old { clean = looked_up file block self.old.clean } }
    {
        let key = Key { file, block };
        let body = match self.clean.get(&key) {
            Some(body) => Some(body.copied_in(room)),
            None => None,
        };
        self.clean.touch(&key);
        body
    }

    /// Puts a block in front. The last one goes where there would be more than 512.
    ///
    /// # Errors
    ///
    /// Only want of memory, and then nothing changed. A block that is there wants none.
    pub fn put_block(&mut self, file: FileId, block: BlockNo, body: Block) -> Result<(), NoMemory>
        ensures put { OnOk result (self.new ≡ record self.old { clean = put_clean file block body self.old.clean }) }
        ensures refused { OnErr result (self.new ≡ self.old) }
        ensures succeeds { IsSome (clean_at file block self.old.clean) → IsOk result }
    {
        self.clean.put_block(&Key { file, block }, body)
    }

    /// Takes a block out, if it is there.
    pub fn remove(&mut self, file: FileId, block: BlockNo)
        ensures { self.new ≡ record self.old { clean = drop_clean file block self.old.clean } }
    {
        self.clean.remove(&Key { file, block });
    }

    /// Takes all blocks of a file out.
    pub fn purge(&mut self, file: FileId)
        ensures { self.new ≡ record self.old { clean = purge file self.old.clean } }
    {
        self.clean.purge(file);
    }

    /// Takes all blocks of a file out and puts one in front.
    ///
    /// # Errors
    ///
    /// Only want of memory, and then nothing changed: no block was taken out. A block that is there wants none.
    pub fn put_alone(&mut self, file: FileId, block: BlockNo, body: Block) -> Result<(), NoMemory>
        ensures put { OnOk result (self.new ≡ record self.old { clean = put_clean file block body (purge file self.old.clean) }) }
        ensures refused { OnErr result (self.new ≡ self.old) }
        ensures succeeds { IsSome (clean_at file block self.old.clean) → IsOk result }
    {
        self.clean.put_alone(&Key { file, block }, body)
    }

    /// The revision of a file's clean blocks, if there is one.
    pub fn rev(&self, file: FileId) -> Option<Rev>
        ensures { result ≡ option_map (λ r. r.rev) (revision_of file self.now.revisions) }
    {
        self.revisions.get(file)
    }

    /// The revision of a file's clean blocks, or 0.
    pub fn rev_or_zero(&self, file: FileId) -> Rev
        ensures { result ≡ revision_or_zero (revision_of file self.now.revisions) }
    {
        match self.rev(file) {
            Some(rev) => rev,
            None => Rev(0),
        }
    }

    /// Makes room for the revisions of `files` files that have none.
    ///
    /// # Errors
    ///
    /// Only want of memory, and then nothing changed.
    pub fn reserve(&mut self, files: usize) -> Result<(), NoMemory>
        ensures clean { self.new.clean ≡ self.old.clean }
        ensures revisions { self.new.revisions ≡ self.old.revisions }
        ensures room { OnOk result (files ≤ self.new.spare) }
        ensures refused { OnErr result (self.new ≡ self.old) }
        ensures succeeds { files ≤ self.old.spare → IsOk result }
        ensures spare { self.old.spare ≤ self.new.spare }
    {
        self.revisions.reserve(files)
    }

    /// Gives a file a revision.
    ///
    /// # Errors
    ///
    /// Only want of memory, and then nothing changed. A file that has a revision wants none, nor does another where
    /// room is reserved.
    pub fn retag(&mut self, file: FileId, rev: Rev) -> Result<(), NoMemory>
        ensures clean { self.new.clean ≡ self.old.clean }
        ensures put { OnOk result (self.new.revisions ≡ put_revision file rev self.old.revisions) }
        ensures refused { OnErr result (self.new ≡ self.old) }
        ensures there { IsSome (revision_of file self.old.revisions) → IsOk result }
        ensures kept { IsSome (revision_of file self.old.revisions) → self.new.spare ≡ self.old.spare }
        ensures succeeds { 1 ≤ self.old.spare → IsOk result }
        ensures spare { self.old.spare ≤ self.new.spare + 1 }
    {
        self.revisions.put_revision(file, rev)
    }
}
