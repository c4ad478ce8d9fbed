//! The calls of a disk for one block, and for one change.

ghost use Rattle.std.specs.Prelude.{◌≡◌, ◌≤◌, ◌+◌, List, IfOk, OnOk, length};
ghost use Rattle.std.specs.Option.{ForSome};
ghost use Rattle.nq_base.specs.Block.{zeros as block_of_zeros};
ghost use Rattle.nq_disk.specs.Calling.{Counts};
ghost use Rattle.nq_plan.specs.Standing.{image_area};
ghost use Rattle.nq_image.specs.Kept.{body_in};
ghost use Rattle.nq_image.specs.Layout.{block_place as place_of_block};
ghost use Rattle.nq_image.specs.Standing.{Standing};
ghost use Rattle.nq_disk.specs.Batch.{IsFit};
ghost use Rattle.nq_disk.specs.Saying.{Each};
ghost use Rattle.nq_disk.specs.Whole.{Settled, after};
ghost use Rattle.nq_store.specs.Changing.{new_blocks, zeroed};
ghost use Rattle.nq_store.specs.Loading.{OnlyAsked};
ghost use Rattle.nq_store.specs.Storing.{CountsKeep, IsReady, OpensWhole, StandsStill};

use nq_base::Block;
use nq_disk::redo::{Batch, Redo};
use nq_disk::{Disk, DiskFault};
use nq_image::block_place;
use nq_keeper::KeepFault;
use nq_plan::Placed;
use std::alloc::Global;

/// Reads the body of a physical block. What the disk does not hold of it is zeros.
pub(crate) fn read_body<D: Disk>(
    disk: &mut D,
    alloc: Global,
    block: u32,
) -> Result<Block, KeepFault>
    ensures body { ForSome (D.told disk.old) (λ bytes. place_of_block block + 4096 ≤ length bytes → IfOk result (λ body. body ≡ body_in bytes block)) }
    ensures asked { OnlyAsked D.told D.follows D.may_leave D.leaves disk.old disk.new }
    ensures cause { CountsKeep result (D.faults disk.old) (D.faults disk.new) }
{
    let mut bytes = [0; Block::SIZE];
    let read = disk.read(block_place(block), &mut bytes);
    if let Err(DiskFault::Failed) = read {
        return Err(KeepFault::Failed);
    }
    match Block::from_bytes(alloc, &bytes) {
        Ok(Some(body)) => Ok(body),
        Ok(None) => Ok(Block::fill(0)),
        Err(_) => Err(KeepFault::Memory),
    }
}

/// The blocks that a file gets by a change; none where the change has no file.
pub(crate) fn fresh_blocks(placed: &Option<Placed>) -> &[u32]
    ensures { result.now ≡ new_blocks placed.now }
{
    match placed {
        Some(placed) => placed.fresh(),
        None => &[],
    }
}

/// Writes zeros over blocks that no file has. Whatever a stop leaves, the same stands in the image.
fn write_zeros<D: Disk>(disk: &mut D, blocks: &[u32], zeros: &[u8]) -> Result<(), DiskFault>
    requires { zeros.now ≡ block_of_zeros }
    ensures written { OnOk result (ForSome (D.told disk.old) (λ old. D.told disk.new ≡ Some (zeroed blocks.now old))) }
    ensures cause { Counts result (D.faults disk.old) (D.faults disk.new) }
    ensures follows { D.follows disk.old disk.new }
    ensures still { ForSome (D.told disk.old) (λ old. (s : Standing) → IsReady s blocks.now (D.may_leave disk.old) old
        → Each (D.leaves disk.old disk.new) (StandsStill s old)) }
{
    for block in blocks {
        disk.write_at(block_place(*block), zeros)?;
    }
    Ok(())
}

/// Writes zeros over the blocks that a file gets, and then the ranges of a change, whole or not at all. The first sync of the
/// change settles the zeros.
pub(crate) fn carry_out<D: Disk>(
    redo: &mut Redo<D>,
    fresh: &[u32],
    batch: &Batch,
    zeros: &[u8],
) -> Result<(), DiskFault>
    requires area { redo.old.area ≡ image_area }
    requires zeros { zeros.now ≡ block_of_zeros }
    ensures area { redo.new.area ≡ image_area }
    ensures settled { OnOk result (ForSome (D.told redo.old.disk) (λ old. (s : Standing) → IsReady s fresh.now (D.may_leave redo.old.disk) old
        → IsFit image_area (length (zeroed fresh.now old)) batch.now
        → Settled image_area (after image_area batch.now (zeroed fresh.now old)) (D.told redo.new.disk) (D.may_leave redo.new.disk))) }
    ensures cause { Counts result (D.faults redo.old.disk) (D.faults redo.new.disk) }
    ensures follows { D.follows redo.old.disk redo.new.disk }
    ensures whole { ForSome (D.told redo.old.disk) (λ old. (s : Standing) → IsReady s fresh.now (D.may_leave redo.old.disk) old
        → IsFit image_area (length (zeroed fresh.now old)) batch.now
        → Each (D.leaves redo.old.disk redo.new.disk) (OpensWhole s batch.now old (zeroed fresh.now old))) }
{
    write_zeros(&mut redo.disk, fresh, zeros)?;
    redo.apply(batch)
}
