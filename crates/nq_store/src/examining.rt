//! What an image of version 1 says.

ghost use Rattle.std.specs.Prelude.{◌≡◌, ◌≤◌, IfOk, count_by, is_some, length};
ghost use Rattle.std.specs.Option.{ForSome};
ghost use Rattle.nq_store.specs.Head.{head_one};
ghost use Rattle.nq_image.specs.Image.{image_one, reached};
ghost use Rattle.nq_image.specs.Layout.{piece as piece_at};
ghost use Rattle.nq_image.specs.Reading.{Reads};
ghost use Rattle.nq_image.specs.Seen.{seen_one};
ghost use Rattle.nq_store.specs.Examining.{Examines, IsSized, Tests};
ghost use Rattle.nq_store.specs.Loading.{OnlyAsked};
ghost use Rattle.nq_store.specs.Opening.{CountsFault};

use crate::fault::Fault;
use nq_disk::Disk;
use nq_image::{
    ImageFault, ImageOne, Slot, Version, blocks_in, piece, read_all_rows, read_boots, whole_blocks,
};
use std::alloc::Global;

/// How many rows are used.
pub(crate) fn files_in(slots: &[Option<Slot>]) -> u32
    requires { length slots.now ≤ 256 }
    ensures count { result ≡ count_by (λ slot. is_some slot) slots.now }
    ensures few { result ≤ 256 }
{
    slots.iter().filter(|slot| slot.is_some()).count() as u32
}

/// The numbers and rows, by the first bytes of the image.
#[tactic(auto, unfolding(crate::specs::Head::head_one))]
fn read_head(alloc: Global, head: &[u8]) -> Result<ImageOne, ImageFault>
    requires { length head.now ≡ 28672 }
    ensures told { Reads seen_one result (head_one head.now) }
    ensures sized { IfOk result (λ image. IsSized image.rows.slots.items) }
{
    let boots = read_boots(piece(head, 0, 64))?;
    let rows = read_all_rows(alloc, Version::One, head)?;
    Ok(ImageOne { boots, rows })
}

/// Tests that a disk holds so many blocks.
fn check_reach<D: Disk>(disk: &mut D, blocks: u32) -> Result<(), Fault>
    ensures told { ForSome (D.told disk.old) (λ bytes. Tests result (reached (length bytes) blocks)) }
    ensures asked { OnlyAsked D.told D.follows D.may_leave D.leaves disk.old disk.new }
    ensures cause { CountsFault result (D.faults disk.old) (D.faults disk.new) }
{
    let size = disk.size()?;
    let whole = whole_blocks(size);
    if whole < u64::from(blocks) {
        return Err(Fault::BadField(40960 + 4096 * whole));
    }
    Ok(())
}

/// What an image of version 1 says, whose first bytes were read and whose record is closed.
pub(crate) fn examine<D: Disk>(disk: &mut D, alloc: Global, head: &[u8]) -> Result<ImageOne, Fault>
    requires { length head.now ≡ 28672 }
    ensures told { ForSome (D.told disk.old) (λ bytes. head.now ≡ piece_at 0 28672 bytes → Examines result (image_one bytes)) }
    ensures sized { IfOk result (λ image. IsSized image.rows.slots.items) }
    ensures asked { OnlyAsked D.told D.follows D.may_leave D.leaves disk.old disk.new }
    ensures cause { CountsFault result (D.faults disk.old) (D.faults disk.new) }
{
    let image = read_head(alloc, head)?;
    check_reach(disk, blocks_in(&image.rows.slots))?;
    Ok(image)
}
