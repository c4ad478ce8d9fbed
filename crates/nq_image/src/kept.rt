//! For which kept state an image stands. The bodies of the blocks stay where they are in the image.

ghost use Rattle.std.specs.Prelude.{◌≡◌, ◌<◌, ◌≤◌, ◌+◌, ◌^◌, [], IfOk, IfSome, OnOk, length, position, slice_index_or, sum_by};
ghost use Rattle.nq_image.specs.Kept.{
  files_of as files_at,
  found_file,
  found_kept,
  is_later as is_later_at,
  kept_in,
  kept_one,
  kept_two,
  numbers_from as numbers_at,
  opened,
  place_of as place_at,
  seen_kept,
  with_slot,
};
ghost use Rattle.nq_image.specs.Reading.{Opens};
ghost use Rattle.nq_image.specs.Rows.{blocks_of as blocks_at};
ghost use Rattle.nq_image.specs.Seen.{seen_one, seen_two};
ghost use Rattle.nq_image.specs.Whole.{HasAllRows, seen};

use crate::fault::ImageFault;
use crate::image::{ImageOne, ImageTwo};
use crate::rows::{Slot, blocks_in, blocks_of};
use crate::whole::{Image, read_image};
use nq_base::{FileId, FileRow, Heads, HostRow};
use nq_memory::NoMemory;
use std::alloc::Global;

/// A file as it is found in an image.
#[derive(Clone, Copy)]
pub struct FoundFile {
    /// Its row.
    pub row: FileRow,
    /// Where its blocks begin in the list of the blocks of all files.
    pub start: u32,
}

/// What is kept in an image, but for the bodies of the blocks.
#[derive(Drop)]
pub struct KeptImage {
    /// The numbers of the server.
    pub heads: Heads,
    /// The rows of the 64 hosts.
    pub hosts: Vec<HostRow>,
    /// The files, in order of their ids.
    pub files: Vec<FoundFile>,
    /// The physical blocks of all files. Block k begins at byte 40960 + 4096 * k.
    pub blocks: Vec<u32>,
}

/// So many numbers from one on.
///
/// # Errors
///
/// Memory was refused.
pub fn numbers_from(alloc: Global, first: u32, count: u32) -> Result<Vec<u32>, NoMemory>
    requires { first + count < 2 ^ 32 }
    ensures told { IfOk result (λ numbers. numbers.items ≡ numbers_at first count) }
    ensures size { IfOk result (λ numbers. length numbers.items ≡ count) }
{
    let mut numbers = Vec::new(alloc);
    let mut number = first;
    for _ in 0..count {
        numbers.push(number)?;
        number += 1;
    }
    Ok(numbers)
}

fn is_later(file: &FoundFile, id: FileId) -> bool
    ensures { result ≡ is_later_at id file.now }
{
    id.0 < file.row.id.0
}

fn first_later(files: &[FoundFile], id: FileId) -> Option<usize>
    ensures place { result ≡ position (is_later_at id) files.now }
    ensures within { IfSome result (λ place. place < length files.now) }
{
    files.iter().position(|file| is_later(file, id))
}

/// Where the file of an id goes among files.
fn place_of(files: &[FoundFile], id: FileId) -> usize
    ensures place { result ≡ place_at id files.now }
    ensures within { result ≤ length files.now }
{
    match first_later(files, id) {
        Some(place) => place,
        None => files.len(),
    }
}

/// Puts the file of a row among files.
#[tactic(auto, unfolding(crate::specs::Kept::found_file))]
fn put_slot(
    files: &mut Vec<FoundFile>,
    slot: &Option<Slot>,
    id: u32,
    start: u32,
) -> Result<(), NoMemory>
    ensures items { OnOk result (files.new.items ≡ with_slot id start slot.now files.old.items) }
    ensures size { OnOk result (length files.new.items ≤ length files.old.items + 1) }
{
    let Some(slot) = slot else {
        return Ok(());
    };
    let row = FileRow {
        id: FileId(id),
        name: slot.name,
        blocks: slot.blocks,
        rev: slot.rev,
    };
    let place = place_of(files, row.id);
    files.insert(place, FoundFile { row, start })?;
    Ok(())
}

fn first_of(ids: &[u32]) -> u32
    requires { 1 ≤ length ids.now }
    ensures { result ≡ slice_index_or ids.now 0 0 }
{
    ids[0]
}

/// The files of these rows, in order of their ids.
fn files_of(alloc: Global, slots: &[Option<Slot>], ids: &[u32]) -> Result<Vec<FoundFile>, NoMemory>
    requires all { length ids.now ≡ length slots.now }
    requires few { sum_by blocks_at slots.now ≤ 16384 }
    ensures told { IfOk result (λ files. files.items ≡ files_at [] 0 slots.now ids.now) }
    ensures many { IfOk result (λ files. length files.items ≤ length slots.now) }
{
    let mut files = Vec::new(alloc);
    let mut start = 0;
    let mut rest = ids;
    for slot in slots {
        let id = first_of(rest);
        put_slot(&mut files, slot, id, start)?;
        let own = blocks_of(slot);
        start += own;
        let (_, behind) = rest.split_at(1);
        rest = behind;
    }
    Ok(files)
}

/// What is kept in an image of version 1.
#[tactic(auto, unfolding(crate::specs::Kept::kept_one))]
fn kept_of_one(alloc: Global, image: ImageOne) -> Result<KeptImage, NoMemory>
    requires all { length image.rows.slots.items ≡ 256 }
    requires few { sum_by blocks_at image.rows.slots.items ≤ 16384 }
    ensures { IfOk result (λ kept. seen_kept kept ≡ kept_one (seen_one image)) }
{
    let rows = image.rows;
    let ids = numbers_from(alloc, 1, 256)?;
    let files = files_of(alloc, &rows.slots, &ids)?;
    let blocks = numbers_from(alloc, 0, blocks_in(&rows.slots))?;
    let heads = Heads {
        boot: image.boots.boot,
        opened: image.boots.opened,
        longest: 60,
        next: files.len() as u32 + 1,
    };
    Ok(KeptImage {
        heads,
        hosts: rows.hosts,
        files,
        blocks,
    })
}

/// What is kept in an image of version 2.
#[tactic(auto, unfolding(crate::specs::Kept::kept_two))]
fn kept_of_two(alloc: Global, image: ImageTwo) -> Result<KeptImage, NoMemory>
    requires all { length image.rows.slots.items ≡ 256 }
    requires few { sum_by blocks_at image.rows.slots.items ≤ 16384 }
    requires ids { length image.tables.ids.items ≡ 256 }
    ensures { IfOk result (λ kept. seen_kept kept ≡ kept_two (seen_two image)) }
{
    let rows = image.rows;
    let tables = image.tables;
    let files = files_of(alloc, &rows.slots, &tables.ids)?;
    let heads = Heads {
        boot: image.front.boot,
        opened: image.front.opened,
        longest: image.front.longest,
        next: image.front.next,
    };
    Ok(KeptImage {
        heads,
        hosts: rows.hosts,
        files,
        blocks: tables.blocks,
    })
}

/// What is kept in an image.
///
/// # Errors
///
/// Memory was refused.
pub fn kept_of(alloc: Global, image: Image) -> Result<KeptImage, NoMemory>
    requires { HasAllRows image }
    ensures { IfOk result (λ kept. seen_kept kept ≡ found_kept (seen image)) }
{
    match image {
        Image::One(image) => kept_of_one(alloc, image),
        Image::Two(image) => kept_of_two(alloc, image),
    }
}

/// For which kept state these bytes stand as an image of either version, whose redo record is closed or was applied before.
///
/// # Errors
///
/// `NotAnImage` where the bytes are fewer than 40,960, or the first eight are those of no version; else `BadField` at the
/// least field that is wrong; `Memory`.
#[tactic(auto, unfolding(crate::specs::Kept::opened))]
pub fn read_kept(alloc: Global, bytes: &[u8]) -> Result<KeptImage, ImageFault>
    ensures { Opens (λ kept. kept_in bytes.now (seen_kept kept)) result (opened bytes.now) }
{
    let image = read_image(alloc, bytes)?;
    let kept = kept_of(alloc, image)?;
    Ok(kept)
}
