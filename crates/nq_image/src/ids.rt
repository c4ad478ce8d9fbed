//! The block of the ids, and which blocks a disk holds, in an image of version 2.

ghost use Rattle.std.specs.Prelude.{◌≡◌, ◌==◌, position, IfOk, IfSome, ◌<◌, ◌≤◌, ◌+◌, ◌^◌, ◌*◌, [], length};
ghost use Rattle.std.specs.List.{list_any};
ghost use Rattle.nq_image.specs.Check.{tested};
ghost use Rattle.nq_image.specs.Layout.{whole_blocks as whole_in};
ghost use Rattle.nq_image.specs.Reading.{Reads};
ghost use Rattle.nq_image.specs.Tables.{held, ids_checks, ids_of, is_id as is_id_of};

use crate::fault::{ImageFault, WrongField};
use crate::fields::{are_zeros, word_in};
use crate::rows::Slot;
use std::alloc::Global;

fn is_known(id: u32, ids: &[u32]) -> bool
    ensures { result ≡ list_any (λ known. known == id) ids.now }
{
    ids.iter().any(|known| *known == id)
}

#[tactic(auto, unfolding(crate::specs::Tables::is_id))]
fn is_id(id: u32, next: u32, ids: &[u32], slot: &Option<Slot>) -> bool
    ensures { result ≡ is_id_of next ids.now slot.now id }
{
    match slot {
        Some(_) => (1..next).contains(&id) && !is_known(id, ids),
        None => id == 0,
    }
}

/// The ids of the files in these rows, 0 for an unused row, from the block of the ids, which stands at `place` of an image
/// with this next id.
///
/// # Errors
///
/// `BadField` at the first id that is wrong, or at the first byte behind the last id where those bytes are not all zeros;
/// `Memory`.
pub fn read_ids(
    alloc: Global,
    block: &[u8],
    slots: &[Option<Slot>],
    next: u32,
    place: u64,
) -> Result<Vec<u32>, ImageFault>
    requires size { 4 * length slots.now ≤ length block.now }
    requires room { place + 4 * length slots.now < 2 ^ 64 }
    ensures told { Reads (λ ids. ids.items) result (tested (ids_checks next place [] slots.now block.now) (ids_of slots.now block.now)) }
    ensures all { IfOk result (λ ids. length ids.items ≡ length slots.now) }
{
    let mut ids = Vec::new(alloc);
    let mut rest = block;
    let mut at = place;
    for slot in slots {
        let id = word_in(rest, 0);
        if !is_id(id, next, &ids, slot) {
            return Err(ImageFault::BadField(at));
        }
        ids.push(id)?;
        let (_, behind) = rest.split_at(4);
        rest = behind;
        at += 4;
    }
    if !are_zeros(rest) {
        return Err(ImageFault::BadField(at));
    }
    Ok(ids)
}

/// How many blocks a disk of so many bytes holds whole.
#[tactic(auto, unfolding(crate::specs::Layout::whole_blocks))]
pub fn whole_blocks(size: u64) -> u64
    ensures { result ≡ whole_in size }
{
    size.saturating_sub(40960) / 4096
}

fn first_marked(marks: &[bool]) -> Option<usize>
    ensures place { result ≡ position (λ mark. mark) marks.now }
    ensures within { IfSome result (λ place. place < length marks.now) }
{
    marks.iter().position(|mark| *mark)
}

/// Tests that a disk of so many bytes holds each physical block whole that has a mark.
///
/// # Errors
///
/// The place of the least one that it does not hold whole.
#[tactic(auto, unfolding(crate::specs::Tables::held))]
pub fn check_held(size: u64, marks: &[bool]) -> Result<(), WrongField>
    requires { length marks.now ≡ 16641 }
    ensures { result ≡ held size marks.now }
{
    let whole = whole_blocks(size).min(marks.len() as u64) as usize;
    match first_marked(&marks[whole..]) {
        Some(behind) => Err(WrongField(40960 + 4096 * (whole + behind) as u64)),
        None => Ok(()),
    }
}
