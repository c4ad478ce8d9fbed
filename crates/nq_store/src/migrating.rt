//! An image of version 1 becomes one of version 2.

ghost use Rattle.std.specs.Prelude.{◌≡◌, ◌≤◌, ◌<◌, ◌+◌, ◌⊎◌, ◌^◌, IfOk, OnOk, Some, length};
ghost use Rattle.std.specs.Option.{ForSome};
ghost use Rattle.nq_store.specs.Migrated.{blocks_in as blocks_at_all, files_in as files_at, numbers_then};
ghost use Rattle.nq_store.specs.Prepared.{SameBelow, change_of, prepared, tabled};
ghost use Rattle.nq_plan.specs.Standing.{image_area};
ghost use Rattle.nq_image.specs.Image.{FoundOne};
ghost use Rattle.nq_image.specs.Kept.{numbers_from as numbers_at};
ghost use Rattle.nq_image.specs.Layout.{block_place as place_of_block};
ghost use Rattle.nq_image.specs.Rows.{blocks_of as blocks_at};
ghost use Rattle.nq_image.specs.Writing.{table_of_blocks};
ghost use Rattle.nq_disk.specs.Batch.{IsFit};
ghost use Rattle.nq_disk.specs.Saying.{Each, Only};
ghost use Rattle.nq_disk.specs.Whole.{IsClosed, OpensAfter, OpensAsOne, Settled, after};
ghost use Rattle.nq_store.specs.Examining.{IsSized};
ghost use Rattle.nq_store.specs.Migrating.{CountsWriting, IsFoundIn, IsMigrated, IsOld, IsOldImage, LeavesSameKept, Migrates};
ghost use Rattle.nq_store.specs.Opening.{CountsFault};

use crate::examining::{examine, files_in};
use crate::fault::Fault;
use nq_base::Heads;
use nq_disk::Disk;
use nq_disk::redo::{Batch, Redo};
use nq_image::{
    Boots, Slot, block_place, blocks_in, blocks_of, numbers_from, spell_heads, spell_table,
};
use nq_memory::NoMemory;
use std::alloc::Global;

/// The table of a file with so many blocks, of which the first is this one.
fn table_from(alloc: Global, first: u32, count: u32) -> Result<Vec<u8>, NoMemory>
    requires few { first + count ≤ 16384 }
    requires short { count ≤ 1024 }
    ensures { IfOk result (λ table. table.items ≡ table_of_blocks (numbers_at first count)) }
{
    let blocks = numbers_from(alloc, first, count)?;
    spell_table(alloc, &blocks)
}

/// Writes the tables of the files, each of which stands behind the one before it. Nothing below them changes, whenever a stop comes.
fn write_tables<D: Disk>(
    disk: &mut D,
    alloc: Global,
    slots: &[Option<Slot>],
    tables: u32,
) -> Result<(), Fault>
    requires sized { IsSized slots.now }
    requires near { tables ≤ 16384 }
    ensures written { OnOk result (ForSome (D.told disk.old) (λ old. D.told disk.new ≡ Some (tabled (place_of_block tables) 0 slots.now old))) }
    ensures cause { CountsWriting result (D.faults disk.old) (D.faults disk.new) }
    ensures follows { D.follows disk.old disk.new }
    ensures below { ForSome (D.told disk.old) (λ old. Only old (D.may_leave disk.old) → place_of_block tables ≤ length old
        → Each (D.leaves disk.old disk.new) (SameBelow (place_of_block tables) old)) }
{
    let mut first = 0;
    let mut place = block_place(tables);
    for slot in slots {
        let count = blocks_of(slot);
        let table = table_from(alloc, first, count)?;
        disk.write_at(place, &table)?;
        first += count;
        place += 4096;
    }
    Ok(())
}

/// Writes the tables behind the blocks of the files, and the ids behind the tables. Row n has the id n + 1: so the ids are spelled as
/// the table of as many first blocks is. Nothing below them changes, whenever a stop comes.
fn prepare<D: Disk>(disk: &mut D, alloc: Global, slots: &[Option<Slot>]) -> Result<(), Fault>
    requires { IsSized slots.now }
    ensures written { OnOk result (ForSome (D.told disk.old) (λ old. D.told disk.new ≡ Some (prepared slots.now old))) }
    ensures cause { CountsWriting result (D.faults disk.old) (D.faults disk.new) }
    ensures follows { D.follows disk.old disk.new }
    ensures below { ForSome (D.told disk.old) (λ old. Only old (D.may_leave disk.old) → place_of_block (blocks_at_all slots.now) ≤ length old
        → Each (D.leaves disk.old disk.new) (SameBelow (place_of_block (blocks_at_all slots.now)) old)) }
{
    let tables = blocks_in(slots);
    write_tables(disk, alloc, slots, tables)?;
    let ids = table_from(alloc, 0, files_in(slots))?;
    disk.write_at(block_place(tables + 256), &ids)?;
    Ok(())
}

/// The version, and the numbers of version 2, as they stand behind the name.
#[tactic(auto, unfolding(nq_image::specs::Writing::heads_bytes))]
fn spell_numbers(alloc: Global, boots: Boots, files: u32, tables: u32) -> Result<Vec<u8>, NoMemory>
    requires { files ≤ 256 }
    ensures numbers { IfOk result (λ bytes. (found : FoundOne) → found.boots ≡ boots → files_at found.rows.slots ≡ files
        → blocks_at_all found.rows.slots ≡ tables → bytes.items ≡ numbers_then found) }
    ensures size { IfOk result (λ bytes. length bytes.items ≡ 21) }
{
    let heads = Heads {
        boot: boots.boot,
        opened: boots.opened,
        longest: 60,
        next: files + 1,
    };
    let numbers = spell_heads(alloc, &heads)?;
    let mut bytes = Vec::with_capacity(alloc, 21)?;
    bytes.extend_from_slice(b"2")?;
    bytes.extend_from_slice(&numbers)?;
    bytes.extend_from_slice(&tables.to_be_bytes())?;
    Ok(bytes)
}

/// The change that makes an image with these numbers and rows one of version 2.
fn batch_of(alloc: Global, boots: Boots, slots: &[Option<Slot>]) -> Result<Batch, NoMemory>
    requires { IsSized slots.now }
    ensures { IfOk result (λ batch. (found : FoundOne) → IsFoundIn boots slots.now found → batch ≡ change_of found) }
{
    let files = files_in(slots);
    let tables = blocks_in(slots);
    let numbers = spell_numbers(alloc, boots, files, tables)?;
    let mut batch = Batch::new(alloc)?;
    batch.add(7, &numbers)?;
    Ok(batch)
}

/// Syncs, and then writes a batch whole or not at all.
fn finish<D: Disk>(redo: &mut Redo<D>, batch: &Batch) -> Result<(), Fault>
    requires { redo.old.area ≡ image_area }
    ensures area { redo.new.area ≡ image_area }
    ensures settled { OnOk result (ForSome (D.told redo.old.disk) (λ mid. Each (D.may_leave redo.old.disk) (IsClosed image_area)
        → IsFit image_area (length mid) batch.now → Settled image_area (after image_area batch.now mid) (D.told redo.new.disk) (D.may_leave redo.new.disk))) }
    ensures cause { CountsWriting result (D.faults redo.old.disk) (D.faults redo.new.disk) }
    ensures follows { D.follows redo.old.disk redo.new.disk }
    ensures whole { ForSome (D.told redo.old.disk) (λ mid. Each (D.may_leave redo.old.disk) (IsClosed image_area) → IsFit image_area (length mid) batch.now
        → Each (D.leaves redo.old.disk redo.new.disk) (λ image. OpensAsOne image_area (D.may_leave redo.old.disk) image
        ⊎ OpensAfter image_area batch.now mid image)) }
{
    redo.disk.sync()?;
    redo.apply(batch)?;
    Ok(())
}

/// Makes an image of version 1 that was examined, with these numbers and rows, one of version 2.
fn rewrite<D: Disk>(
    redo: &mut Redo<D>,
    alloc: Global,
    boots: Boots,
    slots: &[Option<Slot>],
) -> Result<(), Fault>
    requires area { redo.old.area ≡ image_area }
    requires sized { IsSized slots.now }
    ensures area { redo.new.area ≡ image_area }
    ensures migrated { OnOk result (ForSome (D.told redo.old.disk) (λ old. (found : FoundOne) → IsFoundIn boots slots.now found
        → IsOldImage found (D.may_leave redo.old.disk) old → IsMigrated old (D.told redo.new.disk) (D.may_leave redo.new.disk))) }
    ensures cause { CountsWriting result (D.faults redo.old.disk) (D.faults redo.new.disk) }
    ensures follows { D.follows redo.old.disk redo.new.disk }
    ensures leaves { ForSome (D.told redo.old.disk) (λ old. (found : FoundOne) → IsFoundIn boots slots.now found
        → IsOldImage found (D.may_leave redo.old.disk) old → LeavesSameKept old (D.leaves redo.old.disk redo.new.disk)) }
{
    let batch = batch_of(alloc, boots, slots)?;
    prepare(&mut redo.disk, alloc, slots)?;
    finish(redo, &batch)
}

/// Makes an image of version 1 one of version 2 that stands for the same. Whenever a stop comes, what it leaves stands for the same
/// kept state, in one version or the other.
pub(crate) fn migrate<D: Disk>(redo: &mut Redo<D>, alloc: Global, head: &[u8]) -> Result<(), Fault>
    requires area { redo.old.area ≡ image_area }
    requires size { length head.now ≡ 28672 }
    ensures area { redo.new.area ≡ image_area }
    ensures migrates { ForSome (D.told redo.old.disk) (λ bytes. IsOld head.now (D.may_leave redo.old.disk) bytes
        → Migrates result bytes (D.told redo.new.disk) (D.may_leave redo.new.disk)) }
    ensures leaves { ForSome (D.told redo.old.disk) (λ bytes. IsOld head.now (D.may_leave redo.old.disk) bytes
        → LeavesSameKept bytes (D.leaves redo.old.disk redo.new.disk)) }
    ensures cause { CountsFault result (D.faults redo.old.disk) (D.faults redo.new.disk) }
    ensures follows { D.follows redo.old.disk redo.new.disk }
{
    let image = examine(&mut redo.disk, alloc, head)?;
    rewrite(redo, alloc, image.boots, &image.rows.slots)
}
