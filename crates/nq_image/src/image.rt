//! A whole image, in one piece of memory.

ghost use Rattle.std.specs.Prelude.{◌≡◌, ◌≤◌, ◌+◌, ◌*◌, All, IfOk, length, sum_by};
ghost use Rattle.nq_image.specs.Image.{image_one, image_two, no_marks, rows_in, tables_in};
ghost use Rattle.nq_image.specs.Reading.{Reads};
ghost use Rattle.nq_image.specs.Rows.{blocks_of};
ghost use Rattle.nq_image.specs.Seen.{seen_one, seen_rows, seen_tables, seen_two};

use crate::fault::ImageFault;
use crate::fields::{are_zeros, piece};
use crate::heads::{Boots, Front, read_boots, read_front};
use crate::hosts::read_hosts;
use crate::ids::{check_held, read_ids, whole_blocks};
use crate::rows::{Slot, Version, blocks_in, read_rows};
use crate::tables::read_tables;
use nq_base::HostRow;
use std::alloc::{AllocError, Global};

/// The rows of an image.
#[derive(Drop)]
pub struct Rows {
    /// The rows of the 64 hosts.
    pub hosts: Vec<HostRow>,
    /// The 256 file rows, None for an unused one.
    pub slots: Vec<Option<Slot>>,
}

/// What stands in an image of version 1: the numbers of the server, and the rows. Each file begins at the block behind those
/// of the files before it.
#[derive(Drop)]
pub struct ImageOne {
    /// The numbers of the server.
    pub boots: Boots,
    /// The rows of hosts and files.
    pub rows: Rows,
}

/// What stands in the tables of an image of version 2.
#[derive(Drop)]
pub struct Tables {
    /// The ids of the 256 file rows, 0 for an unused one.
    pub ids: Vec<u32>,
    /// The physical blocks of the files, row after row.
    pub blocks: Vec<u32>,
    /// For each of the 16641 physical blocks whether a file has it.
    pub marks: Vec<bool>,
}

/// What stands in an image of version 2.
#[derive(Drop)]
pub struct ImageTwo {
    /// The numbers of the server, and where the tables are.
    pub front: Front,
    /// The rows of hosts and files.
    pub rows: Rows,
    /// What the tables say.
    pub tables: Tables,
}

/// The rows of hosts and files in the first bytes of an image of this version, where the zeros behind them are right too.
///
/// # Errors
///
/// `BadField` at the least field that is wrong; `Memory`.
#[tactic(auto, unfolding(crate::specs::Image::rows_in))]
pub fn read_all_rows(alloc: Global, version: Version, bytes: &[u8]) -> Result<Rows, ImageFault>
    requires { 28672 ≤ length bytes.now }
    ensures told { Reads seen_rows result (rows_in version bytes.now) }
    ensures hosts { IfOk result (λ rows. length rows.hosts.items ≡ 64) }
    ensures all { IfOk result (λ rows. length rows.slots.items ≡ 256) }
    ensures few { IfOk result (λ rows. sum_by blocks_of rows.slots.items ≤ 16384) }
    ensures short { IfOk result (λ rows. All (λ slot. blocks_of slot ≤ 1024) rows.slots.items) }
{
    let hosts = read_hosts(alloc, piece(bytes, 64, 2048), 64, 64)?;
    let slots = read_rows(alloc, version, piece(bytes, 2112, 24576), 256, 2112)?;
    if !are_zeros(piece(bytes, 26688, 1984)) {
        return Err(ImageFault::BadField(26688));
    }
    Ok(Rows { hosts, slots })
}

/// What stands in these bytes as an image of version 1, whose redo record is closed or was applied before.
///
/// # Errors
///
/// `BadField` at the least field that is wrong; `Memory`.
#[tactic(auto, unfolding(crate::specs::Image::image_one))]
pub fn read_one(alloc: Global, bytes: &[u8]) -> Result<ImageOne, ImageFault>
    requires { 40960 ≤ length bytes.now }
    ensures told { Reads seen_one result (image_one bytes.now) }
    ensures all { IfOk result (λ image. length image.rows.slots.items ≡ 256) }
    ensures few { IfOk result (λ image. sum_by blocks_of image.rows.slots.items ≤ 16384) }
{
    let boots = read_boots(piece(bytes, 0, 64))?;
    let rows = read_all_rows(alloc, Version::One, bytes)?;
    let blocks = u64::from(blocks_in(&rows.slots));
    let whole = whole_blocks(bytes.len() as u64);
    if blocks > whole {
        return Err(ImageFault::BadField(40960 + 4096 * whole));
    }
    Ok(ImageOne { boots, rows })
}

/// What stands in the tables, and that the disk holds the blocks that they name.
#[tactic(auto, unfolding(crate::specs::Image::tables_in))]
fn read_all_tables(
    alloc: Global,
    bytes: &[u8],
    front: &Front,
    slots: &[Option<Slot>],
    mut marks: Vec<bool>,
) -> Result<Tables, ImageFault>
    requires near { front.now.tables ≤ 16384 }
    requires all { length slots.now ≡ 256 }
    requires short { All (λ slot. blocks_of slot ≤ 1024) slots.now }
    requires marks { length marks.items ≡ 16641 }
    ensures told { Reads seen_tables result (tables_in front.now slots.now marks.items bytes.now) }
    ensures all { IfOk result (λ tables. length tables.ids.items ≡ 256) }
{
    let place = 40960 + 4096 * u64::from(front.tables);
    let blocks = read_tables(alloc, bytes, place, slots, front.tables, &mut marks)?;
    let behind = place + 1_048_576;
    if (bytes.len() as u64) < behind + 4096 {
        return Err(ImageFault::BadField(behind));
    }
    let ids = read_ids(
        alloc,
        piece(bytes, behind as usize, 4096),
        slots,
        front.next,
        behind,
    )?;
    check_held(bytes.len() as u64, &marks)?;
    Ok(Tables { ids, blocks, marks })
}

/// A mark for each of so many physical blocks: none was given.
///
/// # Errors
///
/// Memory was refused.
#[tactic(auto, unfolding(crate::specs::Image::no_marks))]
pub fn fresh_marks(alloc: Global, count: usize) -> Result<Vec<bool>, AllocError>
    ensures marks { IfOk result (λ marks. marks.items ≡ no_marks count) }
    ensures size { IfOk result (λ marks. length marks.items ≡ count) }
{
    vec![in alloc; false; count]
}

/// What stands in these bytes as an image of version 2, whose redo record is closed or was applied before.
///
/// # Errors
///
/// `BadField` at the least field that is wrong; `Memory`.
#[tactic(auto, unfolding(crate::specs::Image::image_two))]
pub fn read_two(alloc: Global, bytes: &[u8]) -> Result<ImageTwo, ImageFault>
    requires { 40960 ≤ length bytes.now }
    ensures told { Reads seen_two result (image_two (no_marks 16641) bytes.now) }
    ensures all { IfOk result (λ image. length image.rows.slots.items ≡ 256) }
    ensures few { IfOk result (λ image. sum_by blocks_of image.rows.slots.items ≤ 16384) }
    ensures ids { IfOk result (λ image. length image.tables.ids.items ≡ 256) }
{
    let front = read_front(piece(bytes, 0, 64))?;
    let rows = read_all_rows(alloc, Version::Two, bytes)?;
    let marks = fresh_marks(alloc, 16641)?;
    let tables = read_all_tables(alloc, bytes, &front, &rows.slots, marks)?;
    Ok(ImageTwo {
        front,
        rows,
        tables,
    })
}
