//! The rows of the files.

ghost use Rattle.std.specs.Prelude.{◌≡◌, ◌<◌, is_some, not, ◌&&◌, [], IfSome, IfOk, All, ◌≤◌, ◌+◌, ◌^◌, ◌*◌, length, sum_by};
ghost use Rattle.std.specs.List.{list_any};
ghost use Rattle.nq_image.specs.Check.{tested};
ghost use Rattle.nq_image.specs.Layout.{word_in as word_at, are_zeros as all_zeros};
ghost use Rattle.nq_image.specs.Reading.{Reads};
ghost use Rattle.nq_base.specs.Name.{is_name};
ghost use Rattle.nq_image.specs.Rows.{
  blocks_of as blocks_at,
  has_name as is_of_name,
  is_named as is_any_of_name,
  is_shut as shuts,
  is_unused as is_free,
  name_holds,
  name_in,
  is_count as counts,
  is_first as begins,
  least_not_zeros,
  row_checks,
  rows_checks,
  slot_of,
  slots_of,
  used_checks,
  used_slot,
};

use crate::fault::{ImageFault, WrongField};
use crate::fields::{are_zeros, hyper_in, word_in};
use nq_base::{Name, Rev};
use std::alloc::Global;

/// The versions of an image: which one it is stands in its eighth byte.
#[derive(Clone, Copy)]
pub enum Version {
    /// Files stand one behind another; a file's first block is in its row.
    One,
    /// Each file has a table of its blocks, and an id that is not the number of its row.
    Two,
}

/// What stands in a used row of a file.
#[derive(Clone, Copy)]
pub struct Slot {
    /// The file's name.
    pub name: Name,
    /// Its length in blocks, 1 to 1024.
    pub blocks: u32,
    /// Its modify revision, below 2^61.
    pub rev: Rev,
}

/// How many blocks the file of a row has; none where the row is unused.
pub fn blocks_of(slot: &Option<Slot>) -> u32
    ensures { result ≡ blocks_at slot.now }
{
    match slot {
        Some(slot) => slot.blocks,
        None => 0,
    }
}

fn has_name(slot: &Option<Slot>, name: &Name) -> bool
    ensures { result ≡ is_of_name name.now slot.now }
{
    match slot {
        Some(slot) => slot.name.as_bytes() == name.as_bytes(),
        None => false,
    }
}

fn is_named(slots: &[Option<Slot>], name: &Name) -> bool
    ensures { result ≡ is_any_of_name name.now slots.now }
{
    slots.iter().any(|slot| has_name(slot, name))
}

/// How many blocks the files of these rows have together.
pub fn blocks_in(slots: &[Option<Slot>]) -> u32
    requires { sum_by blocks_at slots.now ≤ 16384 }
    ensures { result ≡ sum_by blocks_at slots.now }
{
    slots.iter().map(blocks_of).sum()
}

fn is_unused(slot: &Option<Slot>) -> bool
    ensures { result ≡ is_free slot.now }
{
    match slot {
        Some(_) => false,
        None => true,
    }
}

fn has_unused(slots: &[Option<Slot>]) -> bool
    ensures { result ≡ list_any is_free slots.now }
{
    slots.iter().any(is_unused)
}

fn is_shut(version: Version, slots: &[Option<Slot>]) -> bool
    ensures { result ≡ shuts version slots.now }
{
    match version {
        Version::One => has_unused(slots),
        Version::Two => false,
    }
}

fn is_count(before: u32, count: u32) -> bool
    requires { before ≤ 16384 }
    ensures { result ≡ counts before count }
{
    (1..=1024).contains(&count) && before + count <= 16384
}

fn is_first(version: Version, before: u32, first: u32) -> bool
    ensures { result ≡ begins version before first }
{
    match version {
        Version::One => first == before,
        Version::Two => true,
    }
}

#[tactic(auto, unfolding(crate::specs::Layout::piece))]
fn least_field_not_zeros(row: &[u8], place: u64) -> u64
    requires size { length row.now ≡ 96 }
    requires room { place + 96 < 2 ^ 64 }
    ensures { result ≡ least_not_zeros place row.now }
{
    if word_in(row, 0) != 0 {
        place
    } else if !are_zeros(&row[4..68]) {
        place + 4
    } else if word_in(row, 68) != 0 {
        place + 68
    } else if word_in(row, 72) != 0 {
        place + 72
    } else if hyper_in(row, 76) != 0 {
        place + 76
    } else {
        place + 84
    }
}

/// The name of these bytes; None where they are no name's.
fn name_of(bytes: &[u8]) -> Option<Name>
    ensures known { is_some result ≡ is_name bytes.now }
    ensures name { IfSome result (λ name. name ≡ bytes.now) }
{
    Name::new(bytes)
}

/// The name of these bytes; None where they are no name's, where it is not followed by zeros, and where a row has it.
fn name_before(bytes: &[u8], behind: &[u8], slots: &[Option<Slot>]) -> Option<Name>
    ensures holds { is_some result ≡ (is_name bytes.now && all_zeros behind.now && not (is_any_of_name bytes.now slots.now)) }
    ensures name { IfSome result (λ name. name ≡ bytes.now) }
{
    let Some(name) = name_of(bytes) else {
        return None;
    };
    if !are_zeros(behind) {
        return None;
    }
    if is_named(slots, &name) {
        return None;
    }
    Some(name)
}

/// The name in a row, of so many bytes; None where there is no name of the row's own.
#[tactic(auto, unfolding(crate::specs::Layout::piece, crate::specs::Rows::name_in, crate::specs::Rows::behind_name, crate::specs::Rows::name_holds))]
fn own_name(row: &[u8], count: usize, slots: &[Option<Slot>]) -> Option<Name>
    requires size { length row.now ≡ 96 }
    requires counted { count ≡ word_at 0 row.now }
    requires fits { count ≤ 64 }
    ensures holds { is_some result ≡ name_holds slots.now row.now }
    ensures name { IfSome result (λ name. name ≡ name_in row.now) }
{
    let (bytes, behind) = row[4..68].split_at(count);
    name_before(bytes, behind, slots)
}

/// What stands in a used row.
#[tactic(auto, unfolding(crate::specs::Layout::piece, crate::specs::Rows::used_checks, crate::specs::Rows::used_slot))]
fn read_used(
    version: Version,
    row: &[u8],
    place: u64,
    slots: &[Option<Slot>],
) -> Result<Slot, WrongField>
    requires size { length row.now ≡ 96 }
    requires room { place + 96 < 2 ^ 64 }
    requires few { sum_by blocks_at slots.now ≤ 16384 }
    ensures told { result ≡ tested (used_checks version place slots.now row.now) (used_slot row.now) }
    ensures few { IfOk result (λ slot. sum_by blocks_at slots.now + slot.blocks ≤ 16384) }
    ensures short { IfOk result (λ slot. slot.blocks ≤ 1024) }
{
    let length = word_in(row, 0);
    if !(1..=64).contains(&length) {
        return Err(WrongField(place));
    }
    let Some(name) = own_name(row, length as usize, slots) else {
        return Err(WrongField(place + 4));
    };
    let before = blocks_in(slots);
    let blocks = word_in(row, 68);
    if !is_count(before, blocks) {
        return Err(WrongField(place + 68));
    }
    if !is_first(version, before, word_in(row, 72)) {
        return Err(WrongField(place + 72));
    }
    let rev = hyper_in(row, 76);
    if rev >= 0x2000_0000_0000_0000 {
        return Err(WrongField(place + 76));
    }
    if !are_zeros(&row[84..96]) {
        return Err(WrongField(place + 84));
    }
    Ok(Slot {
        name,
        blocks,
        rev: Rev(rev),
    })
}

/// What stands in these 96 bytes, which are the row at `place` of an image, behind the rows that were read before: None
/// where the row is unused.
///
/// # Errors
///
/// The place of the first field that is wrong.
#[tactic(auto, unfolding(crate::specs::Rows::slot_of, crate::specs::Rows::row_checks), using(crate::proofs::Checks::values))]
pub fn read_row(
    version: Version,
    row: &[u8],
    place: u64,
    slots: &[Option<Slot>],
) -> Result<Option<Slot>, WrongField>
    requires size { length row.now ≡ 96 }
    requires room { place + 96 < 2 ^ 64 }
    requires few { sum_by blocks_at slots.now ≤ 16384 }
    ensures told { result ≡ tested (row_checks version place slots.now row.now) (slot_of row.now) }
    ensures few { IfOk result (λ slot. sum_by blocks_at slots.now + blocks_at slot ≤ 16384) }
    ensures short { IfOk result (λ slot. blocks_at slot ≤ 1024) }
{
    if are_zeros(row) {
        return Ok(None);
    }
    if is_shut(version, slots) {
        return Err(WrongField(least_field_not_zeros(row, place)));
    }
    let slot = read_used(version, row, place, slots)?;
    Ok(Some(slot))
}

/// What stands in so many rows, of which the first is at `place` of an image.
///
/// # Errors
///
/// `BadField` at the first field that is wrong; `Memory`.
pub fn read_rows(
    alloc: Global,
    version: Version,
    rows: &[u8],
    count: usize,
    place: u64,
) -> Result<Vec<Option<Slot>>, ImageFault>
    requires size { length rows.now ≡ 96 * count }
    requires room { place + 96 * count < 2 ^ 64 }
    ensures told { Reads (λ slots. slots.items) result (tested (rows_checks version count place [] rows.now) (slots_of count rows.now)) }
    ensures all { IfOk result (λ slots. length slots.items ≡ count) }
    ensures few { IfOk result (λ slots. sum_by blocks_at slots.items ≤ 16384) }
    ensures short { IfOk result (λ slots. All (λ slot. blocks_at slot ≤ 1024) slots.items) }
{
    let mut slots = Vec::new(alloc);
    let mut rest = rows;
    let mut at = place;
    for _ in 0..count {
        let (row, behind) = rest.split_at(96);
        let slot = read_row(version, row, at, &slots)?;
        slots.push(slot)?;
        rest = behind;
        at += 96;
    }
    Ok(slots)
}
