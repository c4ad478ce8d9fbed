//! Where the file of a change comes to stand.

ghost use Rattle.std.specs.Prelude.{◌≡◌, ◌<◌, ◌≤◌, ◌+◌, ◌-◌, ◌++◌, ◌&&◌, not, IfOk, IfSome, Some, drop, length, min, position};
ghost use Rattle.nq_image.specs.Tables.{is_marked, is_of_tables};
ghost use Rattle.nq_plan.specs.Finding.{slot_of as slot_at_id};
ghost use Rattle.nq_plan.specs.Placing.{IsPlaced, free_blocks, is_free as is_free_block, is_unused as is_free_row, placed_blocks, placed_slot as slot_placed};

use crate::block_table::BlockTable;
use crate::finding::slot_of;
use crate::stored_file::StoredFile;
use crate::tables::Tables;
use nq_base::{FileId, FileRow};
use nq_image::{PHYSICAL_BLOCKS, TABLE_BLOCKS};
use nq_memory::NoMemory;
use std::alloc::Global;

/// The most blocks that a file has.
const MOST_BLOCKS: u32 = 1024;

/// Where a file comes to stand. The first of its blocks are those that it had before.
#[derive(Drop)]
pub struct Placed {
    /// The file, at its place.
    pub file: StoredFile,
    /// How many of its blocks it had before.
    pub stay: usize,
}

impl Placed {
    /// The blocks that the file gets.
    pub fn fresh(&self) -> &[u32]
        ensures { result.now ≡ drop self.now.stay self.now.file.blocks }
    {
        let blocks = self.file.blocks().as_slice();
        if self.stay < blocks.len() {
            &blocks[self.stay..]
        } else {
            &[]
        }
    }
}

fn is_unused(row: &Option<StoredFile>) -> bool
    ensures { result ≡ is_free_row row.now }
{
    match row {
        Some(_) => false,
        None => true,
    }
}

/// The least unused row; None where all are used.
fn unused_slot(rows: &[Option<StoredFile>]) -> Option<usize>
    ensures place { result ≡ position is_free_row rows.now }
    ensures within { IfSome result (λ place. place < length rows.now) }
{
    rows.iter().position(is_unused)
}

fn is_of_tables(tables: u32, block: u32) -> bool
    requires { block < 16641 }
    ensures { result ≡ is_of_tables tables block }
{
    tables <= block && block - tables < TABLE_BLOCKS
}

fn is_marked(marks: &[bool], block: u32) -> bool
    requires { block < length marks.now }
    ensures { result ≡ is_marked marks.now block }
{
    marks[block as usize]
}

impl Tables {
    /// Whether no file has a physical block, and it is none of the tables'.
    fn is_free(&self, block: u32) -> bool
        requires { block < 16641 }
        ensures { result ≡ is_free_block self.now block }
    {
        !is_of_tables(self.tables, block) && !is_marked(&self.marks, block)
    }

    /// The least so many free blocks; fewer where there are not as many.
    fn free_blocks(&self, alloc: Global, count: usize) -> Result<Vec<u32>, NoMemory>
        requires { count ≤ 1024 }
        ensures { IfOk result (λ free. free.items ≡ free_blocks self.now count) }
    {
        let mut free = Vec::with_capacity(alloc, count)?;
        for block in 0..PHYSICAL_BLOCKS {
            if free.len() == count {
                return Ok(free);
            }
            if self.is_free(block) {
                free.push(block)?;
            }
        }
        Ok(free)
    }

    /// The row of the image for a file: its own, or the least unused one.
    fn slot_for(&self, id: FileId) -> Option<usize>
        ensures slot { result ≡ slot_placed self.now.standing.rows (slot_at_id id self.now.standing.rows) }
        ensures within { IfSome result (λ slot. slot < 256) }
    {
        match slot_of(&self.rows, id) {
            Some(slot) => Some(slot),
            None => unused_slot(&self.rows),
        }
    }

    /// The blocks of a file that comes to have so many.
    fn blocks_for(&self, alloc: Global, known: &[u32], count: usize) -> Result<Vec<u32>, NoMemory>
        requires { count ≤ 1024 }
        ensures { IfOk result (λ blocks. blocks.items ≡ placed_blocks self.now known.now count) }
    {
        let stay = known.len().min(count);
        let mut blocks = Vec::from_slice(alloc, &known[..stay])?;
        let free = self.free_blocks(alloc, count - stay)?;
        blocks.extend_from_slice(&free)?;
        Ok(blocks)
    }

    /// Where the file of a row comes to stand.
    ///
    /// # Errors
    ///
    /// Want of memory, or of room: no row is free, or too few blocks.
    pub(crate) fn place(&self, alloc: Global, row: &FileRow) -> Result<Placed, NoMemory>
        ensures { IfOk result (IsPlaced self.now row.now) }
    {
        if row.blocks > MOST_BLOCKS {
            return Err(NoMemory::Memory);
        }
        let Some(slot) = self.slot_for(row.id) else {
            return Err(NoMemory::Memory);
        };
        let known = self.blocks_of(row.id);
        let stay = known.len().min(row.blocks as usize);
        let blocks = self.blocks_for(alloc, known, row.blocks as usize)?;
        if blocks.len() != row.blocks as usize {
            return Err(NoMemory::Memory);
        }
        let Some(blocks) = BlockTable::new(blocks) else {
            return Err(NoMemory::Memory);
        };
        let file = StoredFile {
            id: row.id,
            name: row.name,
            rev: row.rev,
            slot: slot as u32,
            blocks,
        };
        Ok(Placed { file, stay })
    }
}
