//! A change as the ranges of one batch. All memory that it wants is taken here.

ghost use Rattle.std.specs.Prelude.{◌≡◌, ◌<◌, ◌≤◌, ◌+◌, [], ◌++◌, IfOk, IsSome, OnOk, length, slice_get};
ghost use Rattle.std.specs.Option.{ForSome};
ghost use Rattle.nq_plan.specs.Placing.{IsPlacedFor};
ghost use Rattle.nq_plan.specs.Ranges.{blocks_then, body_ranges, placed_ranges, ranges_of, removed_ranges};

use crate::finding::slot_of;
use crate::placing::Placed;
use crate::ranges::{add_body, add_file, add_heads, add_host, add_removal};
use crate::tables::Tables;
use nq_base::{BlockChange, Change, FileId, FileRow};
use nq_disk::redo::Batch;
use nq_memory::NoMemory;
use std::alloc::Global;

/// What a change writes, and where its file comes to stand.
#[derive(Drop)]
pub struct Plan {
    /// The ranges.
    pub batch: Batch,
    /// Where the file of the change comes to stand.
    pub placed: Option<Placed>,
}

impl Tables {
    /// Where the file of a change comes to stand, if it has one.
    fn place_if(&self, alloc: Global, row: &Option<FileRow>) -> Result<Option<Placed>, NoMemory>
        ensures { IfOk result (IsPlacedFor self.now row.now) }
    {
        match row {
            Some(row) => {
                let placed = self.place(alloc, row)?;
                Ok(Some(placed))
            }
            None => Ok(None),
        }
    }

    /// Adds the file of a change.
    fn add_placed(
        &self,
        batch: &mut Batch,
        alloc: Global,
        row: &Option<FileRow>,
        placed: &Option<Placed>,
    ) -> Result<(), NoMemory>
        requires few { length batch.old + 3 ≤ 8 }
        requires placed { IsPlacedFor self.now row.now placed.now }
        ensures ranges { OnOk result (batch.new ≡ batch.old ++ placed_ranges self.now.standing row.now placed.now) }
        ensures short { OnOk result (length batch.new ≤ length batch.old + 3) }
    {
        let (Some(row), Some(placed)) = (row, placed) else {
            return Ok(());
        };
        add_file(
            batch,
            alloc,
            self.tables,
            &self.row(row.id),
            row,
            &placed.file,
        )
    }

    /// The physical blocks of a file as it stands after the change of a file.
    fn blocks_then<'a>(&'a self, placed: &'a Option<Placed>, id: FileId) -> &'a [u32]
        ensures { result.now ≡ blocks_then self.now.standing placed.now id }
    {
        match placed {
            Some(placed) => {
                if placed.file.id() == id {
                    return placed.file.blocks().as_slice();
                }
                self.blocks_of(id)
            }
            None => self.blocks_of(id),
        }
    }

    /// The physical block of a block of a file as it stands after the change of a file; None where it has none.
    fn physical_then(&self, placed: &Option<Placed>, change: &BlockChange) -> Option<u32>
        ensures { result ≡ slice_get (blocks_then self.now.standing placed.now change.now.file) change.now.block }
    {
        let blocks = self.blocks_then(placed, change.file);
        blocks.get(change.block.0 as usize).copied()
    }

    /// Adds the block of a change.
    fn add_block(
        &self,
        batch: &mut Batch,
        alloc: Global,
        change: &Option<BlockChange>,
        placed: &Option<Placed>,
    ) -> Result<(), NoMemory>
        requires { length batch.old < 8 }
        ensures ranges { OnOk result (batch.new ≡ batch.old ++ body_ranges self.now.standing placed.now change.now) }
        ensures short { OnOk result (length batch.new ≤ length batch.old + 1) }
    {
        let Some(change) = change else {
            return Ok(());
        };
        match self.physical_then(placed, change) {
            Some(physical) => add_body(batch, alloc, physical, &change.body),
            None => Err(NoMemory::Memory),
        }
    }

    /// Adds that the file of a change is taken away.
    fn add_removed(&self, batch: &mut Batch, removed: Option<FileId>) -> Result<(), NoMemory>
        requires { length batch.old + 2 ≤ 8 }
        ensures { OnOk result (batch.new ≡ batch.old ++ removed_ranges self.now.standing removed) }
    {
        let Some(id) = removed else {
            return Ok(());
        };
        match slot_of(&self.rows, id) {
            Some(slot) => add_removal(batch, self.tables, slot as u32),
            None => Ok(()),
        }
    }

    /// Adds all that a change writes to a batch that has no ranges yet.
    fn add_all(
        &self,
        batch: &mut Batch,
        alloc: Global,
        change: &Change,
        placed: &Option<Placed>,
    ) -> Result<(), NoMemory>
        requires none { batch.old ≡ [] }
        requires host { ForSome change.now.host (λ h. h.host < 64) }
        requires placed { IsPlacedFor self.now change.now.file placed.now }
        ensures { OnOk result (batch.new ≡ ranges_of self.now.standing change.now placed.now) }
    {
        add_heads(batch, alloc, &change.heads)?;
        add_host(batch, alloc, &change.host)?;
        self.add_placed(batch, alloc, &change.file, placed)?;
        self.add_block(batch, alloc, &change.block, placed)?;
        self.add_removed(batch, change.removed)
    }

    /// What a change writes. A block that its file has not, and a file for which there is no room, is answered as want of memory.
    ///
    /// # Errors
    ///
    /// Want of memory, or of room.
    pub fn plan(&self, alloc: Global, change: &Change) -> Result<Plan, NoMemory>
        requires { ForSome change.now.host (λ h. h.host < 64) }
        ensures placed { IfOk result (λ plan. IsPlacedFor self.now change.now.file plan.placed) }
        ensures ranges { IfOk result (λ plan. plan.batch ≡ ranges_of self.now.standing change.now plan.placed) }
    {
        let placed = self.place_if(alloc, &change.file)?;
        let mut batch = Batch::new(alloc)?;
        self.add_all(&mut batch, alloc, change, &placed)?;
        Ok(Plan { batch, placed })
    }
}
