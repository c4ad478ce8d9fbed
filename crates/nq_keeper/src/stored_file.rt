//! A kept file with its blocks.

ghost use Rattle.std.specs.Prelude.{[], ◌≡◌, ◌+◌, ◌-◌, ◌<◌, ◌≤◌, ◌++◌, replicate, slice_set, slice_get, Some, IfOk, OnOk, OnErr, vec_len, vec_capacity};
ghost use Rattle.nq_base.specs.Block.{zeros};
ghost use Rattle.nq_model.specs.protocol.Change.{file_of, row_of, with_body};
ghost use Rattle.nq_model.specs.protocol.Kept.{blocks_of, resized};
ghost use Rattle.nq_model.specs.protocol.Profile.{most_blocks_of_file};

use nq_base::{Block, BlockNo, FileId, FileRow, Name, NoMemory, Rev};
use std::alloc::Global;
use std::marker::Model;

/// A file with its blocks. Contracts see the model's file.
#[derive(Drop)]
pub(crate) struct StoredFile {
    id: FileId,
    name: Name,
    rev: Rev,
    blocks: Vec<Block>,
}

impl Model for StoredFile {
    ghost use Rattle.std.specs.Prelude.{◌≤◌, vec_len};
    ghost use Rattle.nq_model.specs.protocol.Kept.{File};
    ghost use Rattle.nq_model.specs.protocol.Profile.{most_blocks_of_file};

    ghost Value = { File };

    ghost view = { λ f. record { id = f.id; name = f.name; rev = f.rev; bodies = f.blocks.items } };

    ghost invariant = { λ f. vec_len f.blocks ≤ most_blocks_of_file };
}

/// Adds so many blocks of zeros, without memory.
fn add_zeros(blocks: &mut Vec<Block>, more: usize)
    requires { vec_len blocks.old + more ≤ vec_capacity blocks.old }
    ensures items { blocks.new.items ≡ blocks.old.items ++ replicate more zeros }
    ensures len { vec_len blocks.new ≡ vec_len blocks.old + more }
{
    for _count in 0..more {
        blocks.push(Block::fill(0)).unwrap();
    }
}

/// Cuts the blocks, or adds zeros, until there are so many.
fn set_length(blocks: &mut Vec<Block>, count: usize) -> Result<(), NoMemory>
    ensures ok { OnOk result (blocks.new.items ≡ resized count blocks.old.items) }
    ensures len { OnOk result (vec_len blocks.new ≡ count) }
    ensures err { OnErr result (blocks.new.items ≡ blocks.old.items) }
    ensures same { OnErr result (vec_len blocks.new ≡ vec_len blocks.old) }
{
    let len = blocks.len();
    if count <= len {
        blocks.truncate(count);
        return Ok(());
    }
    blocks.reserve(count - len)?;
    add_zeros(blocks, count - len);
    Ok(())
}

/// Puts a body in the place of a block.
fn write_over(blocks: &mut Vec<Block>, place: usize, body: Block)
    requires { place < vec_len blocks.old }
    ensures items { blocks.new.items ≡ slice_set blocks.old.items place body }
    ensures len { vec_len blocks.new ≡ vec_len blocks.old }
{
    blocks[place] = body;
}

#[tactic(auto, unfolding(nq_model::specs::protocol::Change::file_of, nq_model::specs::protocol::Change::with_body))]
impl StoredFile {
    /// The new file of a row: its blocks are zeros.
    pub(crate) fn new(alloc: Global, row: &FileRow) -> Result<StoredFile, NoMemory>
        requires { row.now.blocks ≤ most_blocks_of_file }
        ensures { IfOk result (λ file. file ≡ file_of row.now []) }
    {
        let mut blocks = Vec::new(alloc);
        set_length(&mut blocks, row.blocks as usize)?;
        Ok(StoredFile {
            id: row.id,
            name: row.name,
            rev: row.rev,
            blocks,
        })
    }

    /// Its id.
    pub(crate) fn id(&self) -> FileId
        ensures { result ≡ self.now.id }
    {
        self.id
    }

    /// Its row.
    pub(crate) fn row(&self) -> FileRow
        ensures { result ≡ row_of self.now }
    {
        FileRow {
            id: self.id,
            name: self.name,
            blocks: self.blocks.len() as u32,
            rev: self.rev,
        }
    }

    /// A copy of a block of it.
    pub(crate) fn read(&self, alloc: Global, block: BlockNo) -> Result<Block, NoMemory>
        requires { block < blocks_of self.now }
        ensures { IfOk result (λ body. slice_get self.now.bodies block ≡ Some body) }
    {
        self.blocks[block.0 as usize].copied(alloc)
    }

    /// Puts a body in the place of a block of it.
    pub(crate) fn write(&mut self, block: BlockNo, body: Block)
        requires { block < blocks_of self.old }
        ensures { self.new ≡ with_body self.old block body }
    {
        write_over(&mut self.blocks, block.0 as usize, body);
    }

    /// Becomes the file of a row that has its id and name. Blocks that come in are zeros.
    pub(crate) fn follow(&mut self, row: &FileRow) -> Result<(), NoMemory>
        requires id { row.now.id ≡ self.old.id }
        requires name { row.now.name ≡ self.old.name }
        requires short { row.now.blocks ≤ most_blocks_of_file }
        ensures ok { OnOk result (self.new ≡ file_of row.now self.old.bodies) }
        ensures err { OnErr result (self.new ≡ self.old) }
    {
        set_length(&mut self.blocks, row.blocks as usize)?;
        self.rev = row.rev;
        Ok(())
    }
}
