//! The clean blocks of a client.

ghost use Rattle.std.specs.Prelude.{◌≡◌, [], option_copied, IsSome, IsOk, OnOk, OnErr, IfOk};
ghost use Rattle.nq_model.specs.protocol.Client.{clean_at, drop_clean, purge, put_clean};
ghost use Rattle.nq_model.specs.protocol.Settle.{clean_body, looked_up};

use crate::entries::{
    Entries, Key, MOST, bring_forward, cut, leave_first, put_first, read, take_file, take_out,
};
use nq_base::{Block, FileId, NoMemory};
use std::alloc::Global;
use std::marker::Model;
use std::num::NonZeroUsize;

/// At most 512 clean blocks. Clauses see them as a list, the most recently used first.
#[derive(Drop)]
pub(crate) struct Blocks {
    entries: Entries,
}

impl Model for Blocks {
    ghost use Rattle.std.specs.Prelude.{◌≡◌, ◌≤◌, List, length};
    ghost use Rattle.nq_model.specs.protocol.Client.{Clean};
    ghost use Rattle.nq_cache.specs.Entries.{clean_blocks};

    ghost Value = { List Clean };

    ghost view = { λ b. clean_blocks b.entries.entries };

    ghost invariant = { λ b. (b.entries.cap ≡ 513) × (length b.entries.entries ≤ 512) };
}

impl Blocks {
    /// No blocks. It takes the room for their keys.
    pub(crate) fn new(alloc: Global) -> Result<Blocks, NoMemory>
        ensures { IfOk result (λ b. b ≡ []) }
    {
        let room = NonZeroUsize::new(MOST + 1).unwrap();
        let entries = Entries::new(alloc, room)?;
        Ok(Blocks { entries })
    }

    /// A block that is there.
    pub(crate) fn get(&self, key: &Key) -> Option<&Block>
        ensures { option_copied result ≡ clean_body (clean_at key.now.file key.now.block self.now) }
    {
        read(&self.entries, key)
    }

    /// Brings a block to the front, if it is there.
    pub(crate) fn touch(&mut self, key: &Key)
        ensures { self.new ≡ looked_up key.now.file key.now.block self.old }
    {
        bring_forward(&mut self.entries, key);
    }

    /// Puts a block in front. The last one goes where there would be more than 512.
    pub(crate) fn put_block(&mut self, key: &Key, body: Block) -> Result<(), NoMemory>
        ensures put { OnOk result (self.new ≡ put_clean key.now.file key.now.block body self.old) }
        ensures refused { OnErr result (self.new ≡ self.old) }
        ensures succeeds { IsSome (clean_at key.now.file key.now.block self.old) → IsOk result }
    {
        put_first(&mut self.entries, key, body)?;
        cut(&mut self.entries);
        Ok(())
    }

    /// Takes a block out, if it is there.
    pub(crate) fn remove(&mut self, key: &Key)
        ensures { self.new ≡ drop_clean key.now.file key.now.block self.old }
    {
        take_out(&mut self.entries, key);
    }

    /// Takes the blocks of a file out.
    pub(crate) fn purge(&mut self, file: FileId)
        ensures { self.new ≡ purge file self.old }
    {
        take_file(&mut self.entries, file);
    }

    /// Takes the other blocks of a file out, and puts a block in front.
    pub(crate) fn put_alone(&mut self, key: &Key, body: Block) -> Result<(), NoMemory>
        ensures put { OnOk result (self.new ≡ put_clean key.now.file key.now.block body (purge key.now.file self.old)) }
        ensures refused { OnErr result (self.new ≡ self.old) }
        ensures succeeds { IsSome (clean_at key.now.file key.now.block self.old) → IsOk result }
    {
        put_first(&mut self.entries, key, body)?;
        leave_first(&mut self.entries, key);
        cut(&mut self.entries);
        Ok(())
    }
}
