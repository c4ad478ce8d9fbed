//! The tables of the files' blocks and the block of the ids, in an image of version 2.

ghost use Rattle.std.specs.Prelude.{◌≡◌, ◌<◌, ◌≤◌, ◌+◌, ◌^◌, ◌*◌, [], IfSome, OnOk, All, is_some, length};
ghost use Rattle.nq_image.specs.Check.{tested};
ghost use Rattle.nq_image.specs.Reading.{Reads};
ghost use Rattle.nq_image.specs.Rows.{blocks_of as blocks_in};
ghost use Rattle.nq_image.specs.Tables.{is_entry, is_of_tables, marks_behind, slot_checks, slot_marks, slot_table, table_checks, table_of, tables_blocks};
ghost use Rattle.nq_image.specs.Tables.{tables_checks, tables_marks};

use crate::fault::ImageFault;
use crate::fields::{are_zeros, piece, word_in};
use crate::rows::Slot;
use std::alloc::Global;

/// How many physical blocks there are at most: those of all files, and the tables'.
pub const PHYSICAL_BLOCKS: u32 = 16641;

/// How many blocks the tables have: one for each file row, and one for the ids.
pub const TABLE_BLOCKS: u32 = 257;

/// Whether a block is one of the tables'.
fn is_of_tables(tables: u32, block: u32) -> bool
    requires { tables ≤ 16384 }
    ensures { result ≡ is_of_tables tables block }
{
    tables <= block && block < tables + TABLE_BLOCKS
}

/// The physical block that an entry of a table names; None where the entry is wrong.
#[tactic(auto, unfolding(crate::specs::Tables::is_entry))]
fn block_of(entry: u32, tables: u32, marks: &[bool]) -> Option<u32>
    requires size { length marks.now ≡ 16641 }
    requires near { tables ≤ 16384 }
    ensures known { is_some result ≡ is_entry tables marks.now entry }
    ensures block { IfSome result (λ block. (block + 1 ≡ entry) × (block < 16641)) }
{
    if entry == 0 || entry > PHYSICAL_BLOCKS {
        return None;
    }
    let block = entry - 1;
    if is_of_tables(tables, block) {
        return None;
    }
    if marks[block as usize] {
        return None;
    }
    Some(block)
}

/// The physical blocks of a file with so many of them, from its table, which stands at `place` of an image whose tables
/// begin at the physical block `tables`. A mark for each physical block says whether it was given to a file before; the
/// marks of the blocks that are read become true. After an error the marks may be any.
///
/// # Errors
///
/// `BadField` at the first entry that is wrong, or at the first byte behind the last entry where those bytes are not all
/// zeros; `Memory`.
pub fn read_table(
    alloc: Global,
    table: &[u8],
    count: usize,
    place: u64,
    tables: u32,
    marks: &mut [bool],
) -> Result<Vec<u32>, ImageFault>
    requires size { 4 * count ≤ length table.now }
    requires room { place + 4 * count < 2 ^ 64 }
    requires marks { length marks.old ≡ 16641 }
    requires near { tables ≤ 16384 }
    ensures told { Reads (λ blocks. blocks.items) result (tested (table_checks count tables place marks.old table.now) (table_of count table.now)) }
    ensures marks { OnOk result (marks.new ≡ marks_behind count marks.old table.now) }
{
    let mut given = Vec::new(alloc);
    let mut rest = table;
    let mut at = place;
    for _ in 0..count {
        let Some(block) = block_of(word_in(rest, 0), tables, marks) else {
            return Err(ImageFault::BadField(at));
        };
        marks[block as usize] = true;
        given.push(block)?;
        let (_, behind) = rest.split_at(4);
        rest = behind;
        at += 4;
    }
    if !are_zeros(rest) {
        return Err(ImageFault::BadField(at));
    }
    Ok(given)
}

/// The physical blocks of a row, from its table; none where the row is unused.
#[tactic(auto, unfolding(crate::specs::Tables::slot_checks, crate::specs::Tables::slot_table, crate::specs::Tables::slot_marks))]
fn read_slot(
    alloc: Global,
    table: &[u8],
    slot: &Option<Slot>,
    place: u64,
    tables: u32,
    marks: &mut [bool],
) -> Result<Vec<u32>, ImageFault>
    requires size { length table.now ≡ 4096 }
    requires short { blocks_in slot.now ≤ 1024 }
    requires room { place + 4096 < 2 ^ 64 }
    requires marks { length marks.old ≡ 16641 }
    requires near { tables ≤ 16384 }
    ensures told { Reads (λ blocks. blocks.items) result (tested (slot_checks tables place slot.now marks.old table.now) (slot_table slot.now table.now)) }
    ensures marks { OnOk result (marks.new ≡ slot_marks slot.now marks.old table.now) }
{
    match slot {
        Some(slot) => read_table(alloc, table, slot.blocks as usize, place, tables, marks),
        None => Ok(Vec::new(alloc)),
    }
}

/// The physical blocks of the files in these rows, row after row, from their tables, of which the first stands at `place` of
/// the image `bytes`.
///
/// # Errors
///
/// `BadField` at the first table that is not whole, or at the first field of one that is wrong; `Memory`.
pub fn read_tables(
    alloc: Global,
    bytes: &[u8],
    place: u64,
    slots: &[Option<Slot>],
    tables: u32,
    marks: &mut [bool],
) -> Result<Vec<u32>, ImageFault>
    requires room { place + 4096 * length slots.now < 2 ^ 64 }
    requires short { All (λ slot. blocks_in slot ≤ 1024) slots.now }
    requires marks { length marks.old ≡ 16641 }
    requires near { tables ≤ 16384 }
    ensures told { Reads (λ blocks. blocks.items) result
        (tested (tables_checks tables place slots.now marks.old bytes.now) (tables_blocks place slots.now bytes.now)) }
    ensures marks { OnOk result (marks.new ≡ tables_marks place slots.now marks.old bytes.now) }
{
    let mut given = Vec::new(alloc);
    let mut at = place;
    for slot in slots {
        let start = at as usize;
        if bytes.len() < start + 4096 {
            return Err(ImageFault::BadField(at));
        }
        let table = piece(bytes, start, 4096);
        let own = read_slot(alloc, table, slot, at, tables, marks)?;
        given.extend_from_slice(&own)?;
        at += 4096;
    }
    Ok(given)
}
