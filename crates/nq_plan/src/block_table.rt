//! The table of a file's blocks.

ghost use Rattle.std.specs.Prelude.{◌≡◌, ◌<◌, ◌≤◌, ℕ, [], IfOk, IfSome, IsTrue, length, slice_get, slice_index};
ghost use Rattle.nq_image.specs.Writing.{table_of_blocks};
ghost use Rattle.nq_plan.specs.Held.{AreBlocks};

use nq_image::{PHYSICAL_BLOCKS, spell_table};
use nq_memory::NoMemory;
use std::alloc::Global;
use std::marker::Model;

/// The most blocks that a file has.
const MOST_BLOCKS: usize = 1024;

/// The physical blocks of a file, in order: 1024 at most. Clauses see the list of their numbers.
#[derive(Drop)]
pub struct BlockTable {
    blocks: Vec<u32>,
}

impl Model for BlockTable {
    ghost use Rattle.std.specs.Prelude.{ℕ, List};
    ghost use Rattle.nq_plan.specs.Held.{AreBlocks};

    ghost Value = { List ℕ };

    ghost view = { λ t. t.blocks.items };

    ghost invariant = { λ t. AreBlocks t.blocks.items };
}

/// Whether each of these is a physical block that there is.
fn are_near(blocks: &[u32]) -> bool
    ensures { IsTrue result → (k : ℕ) → slice_index blocks.now k < 16641 }
{
    for block in blocks {
        if *block >= PHYSICAL_BLOCKS {
            return false;
        }
    }
    true
}

impl BlockTable {
    /// No blocks. They take no memory.
    pub(crate) fn none(alloc: Global) -> BlockTable
        ensures { result ≡ [] }
    {
        BlockTable {
            blocks: Vec::new(alloc),
        }
    }

    /// The table of these blocks; None where they are more than 1024, or one is none that there is.
    pub(crate) fn new(blocks: Vec<u32>) -> Option<BlockTable>
        ensures { IfSome result (λ table. table ≡ blocks.items) }
    {
        if blocks.len() > MOST_BLOCKS {
            return None;
        }
        if !are_near(&blocks) {
            return None;
        }
        Some(BlockTable { blocks })
    }

    /// The blocks.
    pub(crate) fn as_slice(&self) -> &[u32]
        ensures blocks { result.now ≡ self.now }
        ensures fit { AreBlocks self.now }
    {
        &self.blocks
    }

    /// How many blocks there are.
    pub(crate) fn len(&self) -> u32
        ensures count { result ≡ length self.now }
        ensures short { result ≤ 1024 }
    {
        self.blocks.len() as u32
    }

    /// The block of a number; None where the file has not as many.
    pub(crate) fn block(&self, number: u32) -> Option<u32>
        ensures { result ≡ slice_get self.now number }
    {
        self.blocks.get(number as usize).copied()
    }

    /// The table as the image has it: 4096 bytes.
    ///
    /// # Errors
    ///
    /// Only want of memory.
    pub(crate) fn spell(&self, alloc: Global) -> Result<Vec<u8>, NoMemory>
        ensures { IfOk result (λ bytes. bytes.items ≡ table_of_blocks self.now) }
    {
        spell_table(alloc, &self.blocks)
    }
}
