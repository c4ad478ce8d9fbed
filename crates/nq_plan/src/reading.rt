//! The tables of an image of version 2, from its first bytes and the bytes of its tables.

ghost use Rattle.std.specs.Prelude.{◌≡◌, ◌<◌, ◌≤◌, ◌+◌, ◌*◌, ◌^◌, ℕ, List, All, IfOk, OnOk, drop, length, slice_index_or, take};
ghost use Rattle.nq_image.specs.Check.{tested};
ghost use Rattle.nq_image.specs.Image.{ids_in, image_two, no_marks};
ghost use Rattle.nq_image.specs.Layout.{block_place as place_of_block, piece as piece_at};
ghost use Rattle.nq_image.specs.Reading.{Reads};
ghost use Rattle.nq_image.specs.Rows.{blocks_of as blocks_at};
ghost use Rattle.nq_image.specs.Tables.{tables_blocks, tables_checks, tables_marks};
ghost use Rattle.nq_plan.specs.Reading.{ArePartsOf, HoldsIn, IsMoved, row_from, rows_of};

use crate::block_table::BlockTable;
use crate::stored_file::StoredFile;
use crate::tables::Tables;
use nq_base::{FileId, Heads};
use nq_image::{
    Front, ImageFault, PHYSICAL_BLOCKS, Slot, Version, block_place, blocks_of, check_held,
    fresh_marks, piece, read_all_rows, read_ids, read_tables,
};
use nq_memory::NoMemory;
use std::alloc::Global;

/// How many bytes the tables of the files have, without the ids.
const FILE_TABLES: usize = 1_048_576;

/// A fault whose place is counted from another one on.
fn moved(fault: ImageFault, start: u64) -> ImageFault
    ensures { IsMoved start fault result }
{
    match fault {
        ImageFault::BadField(place) => match start.checked_add(place) {
            Some(at) => ImageFault::BadField(at),
            None => ImageFault::Memory,
        },
        ImageFault::NotAnImage => ImageFault::NotAnImage,
        ImageFault::Memory => ImageFault::Memory,
    }
}

/// The physical blocks of the files in these rows, row after row, from the bytes of the tables.
fn read_all_blocks(
    alloc: Global,
    window: &[u8],
    slots: &[Option<Slot>],
    tables: u32,
    marks: &mut [bool],
) -> Result<Vec<u32>, ImageFault>
    requires few { length slots.now ≡ 256 }
    requires short { All (λ slot. blocks_at slot ≤ 1024) slots.now }
    requires marks { length marks.old ≡ 16641 }
    requires near { tables ≤ 16384 }
    ensures told { (bytes : List ℕ) → window.now ≡ piece_at (place_of_block tables) 1052672 bytes
        → Reads (λ blocks. blocks.items) result
        (tested (tables_checks tables (place_of_block tables) slots.now marks.old bytes) (tables_blocks (place_of_block tables) slots.now bytes)) }
    ensures marks { OnOk result ((bytes : List ℕ) → window.now ≡ piece_at (place_of_block tables) 1052672 bytes
        → marks.new ≡ tables_marks (place_of_block tables) slots.now marks.old bytes) }
{
    match read_tables(alloc, window, 0, slots, tables, marks) {
        Ok(blocks) => Ok(blocks),
        Err(fault) => Err(moved(fault, block_place(tables))),
    }
}

/// The ids, where the block in which they stand is there whole.
fn read_all_ids(
    alloc: Global,
    window: &[u8],
    slots: &[Option<Slot>],
    tables: u32,
    next: u32,
) -> Result<Vec<u32>, ImageFault>
    requires all { length slots.now ≡ 256 }
    requires near { tables ≤ 16384 }
    ensures told { (bytes : List ℕ) → window.now ≡ piece_at (place_of_block tables) 1052672 bytes
        → Reads (λ ids. ids.items) result (ids_in (place_of_block tables + 1048576) next slots.now bytes) }
    ensures all { IfOk result (λ ids. length ids.items ≡ 256) }
{
    let place = block_place(tables + 256);
    if window.len() < FILE_TABLES + 4096 {
        return Err(ImageFault::BadField(place));
    }
    read_ids(alloc, piece(window, FILE_TABLES, 4096), slots, next, place)
}

/// The first of these blocks, so many or as many as there are, and those behind them.
fn split_blocks(blocks: &[u32], count: usize) -> (&[u32], &[u32])
    ensures own { result.0.now ≡ take count blocks.now }
    ensures behind { result.1.now ≡ drop count blocks.now }
{
    blocks.split_at(count.min(blocks.len()))
}

fn first_of(ids: &[u32]) -> u32
    requires { 1 ≤ length ids.now }
    ensures { result ≡ slice_index_or ids.now 0 0 }
{
    ids[0]
}

/// The file of a row, with its id and its blocks.
fn file_from(
    alloc: Global,
    number: u32,
    slot: &Option<Slot>,
    id: u32,
    blocks: &[u32],
) -> Result<Option<StoredFile>, NoMemory>
    ensures { IfOk result (λ row. row ≡ row_from number slot.now id blocks.now) }
{
    let Some(slot) = slot else {
        return Ok(None);
    };
    let own = Vec::from_slice(alloc, blocks)?;
    let Some(blocks) = BlockTable::new(own) else {
        return Err(NoMemory::Memory);
    };
    Ok(Some(StoredFile {
        id: FileId(id),
        name: slot.name,
        rev: slot.rev,
        slot: number,
        blocks,
    }))
}

/// The files of these rows, with their ids, and their blocks, which stand one behind another.
fn files_of(
    alloc: Global,
    slots: &[Option<Slot>],
    ids: &[u32],
    blocks: &[u32],
) -> Result<Vec<Option<StoredFile>>, NoMemory>
    requires few { length slots.now ≡ 256 }
    requires all { length ids.now ≡ 256 }
    ensures told { IfOk result (λ rows. rows.items ≡ rows_of 0 slots.now ids.now blocks.now) }
    ensures all { IfOk result (λ rows. length rows.items ≡ 256) }
{
    let mut rows = Vec::new(alloc);
    let mut rest = blocks;
    let mut left = ids;
    let mut number: u32 = 0;
    for slot in slots {
        let id = first_of(left);
        let (own, behind) = split_blocks(rest, blocks_of(slot) as usize);
        let row = file_from(alloc, number, slot, id, own)?;
        rows.push(row)?;
        rest = behind;
        let (_, others) = left.split_at(1);
        left = others;
        number += 1;
    }
    Ok(rows)
}

/// The numbers of the server.
fn heads_of(front: &Front) -> Heads
    ensures { result ≡ record { boot = front.now.boot; opened = front.now.opened; longest = front.now.longest; next = front.now.next } }
{
    Heads {
        boot: front.boot,
        opened: front.opened,
        longest: front.longest,
        next: front.next,
    }
}

impl Tables {
    /// What stands in an image of version 2 with these numbers, by its first bytes up to the record, the bytes of its tables, as
    /// many as there are of 1,052,672, and how long the disk is.
    ///
    /// # Errors
    ///
    /// `BadField` at the least field that is wrong; `Memory`.
    pub fn read(
        alloc: Global,
        front: &Front,
        head: &[u8],
        window: &[u8],
        size: u64,
    ) -> Result<Tables, ImageFault>
        requires near { front.now.tables ≤ 16384 }
        requires head { length head.now ≡ 28672 }
        ensures { (bytes : List ℕ) → ArePartsOf bytes front.now head.now window.now size → HoldsIn bytes result (image_two (no_marks 16641) bytes) }
    {
        let rows = read_all_rows(alloc, Version::Two, head)?;
        let mut marks = fresh_marks(alloc, PHYSICAL_BLOCKS as usize)?;
        let blocks = read_all_blocks(alloc, window, &rows.slots, front.tables, &mut marks)?;
        let ids = read_all_ids(alloc, window, &rows.slots, front.tables, front.next)?;
        check_held(size, &marks)?;
        let files = files_of(alloc, &rows.slots, &ids, &blocks)?;
        Ok(Tables {
            heads: heads_of(front),
            tables: front.tables,
            hosts: rows.hosts,
            rows: files,
            marks,
        })
    }
}
