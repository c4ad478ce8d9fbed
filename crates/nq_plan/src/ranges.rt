//! The ranges of bytes that the parts of a change write.

ghost use Rattle.std.specs.Prelude.{◌≡◌, ◌<◌, ◌≤◌, ◌+◌, [], ◌∷◌, ◌++◌, OnOk, length};
ghost use Rattle.std.specs.Option.{ForSome};
ghost use Rattle.nq_plan.specs.Ranges.{body_range, file_ranges as ranges_of_file, heads_ranges, host_ranges, id_range, removal_ranges, row_range, table_range};
ghost use Rattle.nq_plan.specs.Ranges.{whole_ranges};

use crate::bodies::spell_block;
use crate::stored_file::StoredFile;
use nq_base::{Block, FileRow, Heads, HostChange};
use nq_disk::redo::Batch;
use nq_image::{
    HEADS_PLACE, block_place, host_place, id_place, row_place, spell_heads, spell_host, spell_row,
};
use nq_memory::NoMemory;
use std::alloc::Global;

/// Adds the numbers of the server.
#[tactic(auto, using(crate::proofs::Sizes::sizes))]
pub(crate) fn add_heads(
    batch: &mut Batch,
    alloc: Global,
    heads: &Option<Heads>,
) -> Result<(), NoMemory>
    requires { length batch.old < 8 }
    ensures ranges { OnOk result (batch.new ≡ batch.old ++ heads_ranges heads.now) }
    ensures short { OnOk result (length batch.new ≤ length batch.old + 1) }
{
    match heads {
        Some(heads) => batch.add(HEADS_PLACE, &spell_heads(alloc, heads)?),
        None => Ok(()),
    }
}

/// Adds the row of a host.
#[tactic(auto, using(crate::proofs::Sizes::sizes))]
pub(crate) fn add_host(
    batch: &mut Batch,
    alloc: Global,
    change: &Option<HostChange>,
) -> Result<(), NoMemory>
    requires few { length batch.old < 8 }
    requires host { ForSome change.now (λ h. h.host < 64) }
    ensures ranges { OnOk result (batch.new ≡ batch.old ++ host_ranges change.now) }
    ensures short { OnOk result (length batch.new ≤ length batch.old + 1) }
{
    match change {
        Some(change) => {
            let row = spell_host(alloc, &change.row)?;
            batch.add(host_place(change.host.0), &row)
        }
        None => Ok(()),
    }
}

/// Adds the body of a block.
pub(crate) fn add_body(
    batch: &mut Batch,
    alloc: Global,
    block: u32,
    body: &Block,
) -> Result<(), NoMemory>
    requires { length batch.old < 8 }
    ensures ranges { OnOk result (batch.new ≡ batch.old ++ body_range (Some block) body.now) }
    ensures short { OnOk result (length batch.new ≤ length batch.old + 1) }
{
    let _size = body.seen();
    let bytes = spell_block(alloc, body)?;
    batch.add(block_place(block), &bytes)
}

/// Adds the row of a file.
fn add_row(batch: &mut Batch, alloc: Global, slot: u32, row: &FileRow) -> Result<(), NoMemory>
    requires few { length batch.old < 8 }
    requires within { slot < 256 }
    ensures { OnOk result (batch.new ≡ batch.old ++ row_range slot row.now ∷ []) }
{
    row.name.as_bytes();
    let bytes = spell_row(alloc, row)?;
    batch.add(row_place(slot), &bytes)
}

/// Adds the id of a row.
fn add_id(batch: &mut Batch, tables: u32, slot: u32, id: u32) -> Result<(), NoMemory>
    requires few { length batch.old < 8 }
    requires near { tables ≤ 16384 }
    requires within { slot < 256 }
    ensures { OnOk result (batch.new ≡ batch.old ++ id_range tables slot id ∷ []) }
{
    batch.add(id_place(tables, slot), &id.to_be_bytes())
}

/// Adds the table of a file.
fn add_table(
    batch: &mut Batch,
    alloc: Global,
    tables: u32,
    file: &StoredFile,
) -> Result<(), NoMemory>
    requires few { length batch.old < 8 }
    requires near { tables ≤ 16384 }
    requires within { file.now.slot < 256 }
    ensures { OnOk result (batch.new ≡ batch.old ++ table_range tables file.now.slot file.now.blocks ∷ []) }
{
    let table = file.blocks();
    table.len();
    let bytes = table.spell(alloc)?;
    batch.add(block_place(tables + file.slot()), &bytes)
}

/// Adds a file whole: its row, its id, and its table.
fn add_whole(
    batch: &mut Batch,
    alloc: Global,
    tables: u32,
    row: &FileRow,
    file: &StoredFile,
) -> Result<(), NoMemory>
    requires few { length batch.old + 3 ≤ 8 }
    requires near { tables ≤ 16384 }
    requires within { file.now.slot < 256 }
    ensures { OnOk result (batch.new ≡ batch.old ++ whole_ranges tables row.now file.now) }
{
    add_row(batch, alloc, file.slot(), row)?;
    add_id(batch, tables, file.slot(), row.id.0)?;
    add_table(batch, alloc, tables, file)
}

/// Adds a kept file: its row, and where its length becomes another all of it.
fn add_kept(
    batch: &mut Batch,
    alloc: Global,
    tables: u32,
    known: &FileRow,
    row: &FileRow,
    file: &StoredFile,
) -> Result<(), NoMemory>
    requires few { length batch.old + 3 ≤ 8 }
    requires near { tables ≤ 16384 }
    requires within { file.now.slot < 256 }
    ensures { OnOk result (batch.new ≡ batch.old ++ ranges_of_file tables (Some known.now) row.now file.now) }
{
    if known.blocks == row.blocks {
        add_row(batch, alloc, file.slot(), row)
    } else {
        add_whole(batch, alloc, tables, row, file)
    }
}

/// Adds a file, which is kept with a row or is new.
pub(crate) fn add_file(
    batch: &mut Batch,
    alloc: Global,
    tables: u32,
    known: &Option<FileRow>,
    row: &FileRow,
    file: &StoredFile,
) -> Result<(), NoMemory>
    requires few { length batch.old + 3 ≤ 8 }
    requires near { tables ≤ 16384 }
    requires within { file.now.slot < 256 }
    ensures ranges { OnOk result (batch.new ≡ batch.old ++ ranges_of_file tables known.now row.now file.now) }
    ensures short { OnOk result (length batch.new ≤ length batch.old + 3) }
{
    match known {
        Some(known) => add_kept(batch, alloc, tables, known, row, file),
        None => add_whole(batch, alloc, tables, row, file),
    }
}

/// Adds that a row becomes unused.
#[tactic(auto, unfolding(nq_image::specs::Writing::zeros_of))]
pub(crate) fn add_removal(batch: &mut Batch, tables: u32, slot: u32) -> Result<(), NoMemory>
    requires few { length batch.old + 2 ≤ 8 }
    requires near { tables ≤ 16384 }
    requires within { slot < 256 }
    ensures { OnOk result (batch.new ≡ batch.old ++ removal_ranges tables (Some slot)) }
{
    batch.add(row_place(slot), &[0; 96])?;
    add_id(batch, tables, slot, 0)
}
