//! The opening of a disk with a redo record.

ghost use Rattle.std.specs.Prelude.{◌≡◌, ◌≢◌, ◌+◌, ◌≤◌, List, Some, length, slice_index, IfOk, OnOk};
ghost use Rattle.std.specs.Option.{ForSome};
ghost use Rattle.nq_disk.specs.Calling.{Counts, IsAllThatIsLeft, LeavesNoMore};
ghost use Rattle.nq_disk.specs.declared.redo.replay.OpenFault.TheVariants.{Failed};
ghost use Rattle.nq_disk.specs.Opens.{CountsFault, OpensOn};
ghost use Rattle.nq_disk.specs.Saying.{Each, Only};
ghost use Rattle.nq_disk.specs.Whole.{IsArea, IsClosed, OpensAs, OpensAsOne, record_of};

use crate::redo::area::Area;
use crate::redo::change::settle;
use crate::redo::fields::ranges_of;
use crate::{Disk, DiskFault};
use std::alloc::Global;

/// Why a disk with a redo record does not open.
pub(crate) enum OpenFault {
    /// The gate is open, and this is the first byte of the first wrong field.
    BadField(u64),
    /// The disk failed.
    Failed,
    /// Memory was wanting.
    Memory,
}

impl From<DiskFault> for OpenFault {
    ghost from_gives = { λ _ fault. fault ≡ Failed };

    fn from(_: DiskFault) -> OpenFault {
        OpenFault::Failed
    }
}

/// Syncs, and reads the record. Says how long the disk is.
fn read_record<D: Disk>(disk: &mut D, area: Area, content: &mut [u8]) -> Result<u64, DiskFault>
    requires { length content.old ≡ area.size }
    ensures long { ForSome (D.told disk.old) (λ old. IfOk result (λ len. len ≡ length old)) }
    ensures record { OnOk result (ForSome (D.told disk.old) (λ old. area.place + area.size ≤ length old → content.new ≡ record_of area old)) }
    ensures settles { OnOk result (IsAllThatIsLeft (D.told disk.old) (D.may_leave disk.new)) }
    ensures same { D.told disk.new ≡ D.told disk.old }
    ensures cause { Counts result (D.faults disk.old) (D.faults disk.new) }
    ensures follows { D.follows disk.old disk.new }
    ensures leaves { LeavesNoMore (D.may_leave disk.old) (D.leaves disk.old disk.new) }
{
    disk.sync()?;
    let len = disk.size()?;
    disk.read(area.place, content)?;
    Ok(len)
}

/// Does what a record says that was read: writes its ranges and closes the gate, where the gate is open.
fn replay<D: Disk>(disk: &mut D, area: Area, len: u64, content: &[u8]) -> Result<(), OpenFault>
    requires area { IsArea area }
    requires whole { length content.now ≡ area.size }
    ensures opens { ForSome (D.told disk.old) (λ old. Only old (D.may_leave disk.old) → area.place + area.size ≤ length old → len ≡ length old
        → content.now ≡ record_of area old → OpensOn area result old (D.told disk.new) (D.may_leave disk.new)) }
    ensures quiet { slice_index content.now 0 ≢ 1 → D.told disk.new ≡ D.told disk.old }
    ensures cause { CountsFault result (D.faults disk.old) (D.faults disk.new) }
    ensures follows { D.follows disk.old disk.new }
    ensures leaves { ForSome (D.told disk.old) (λ old. Only old (D.may_leave disk.old) → area.place + area.size ≤ length old → len ≡ length old
        → content.now ≡ record_of area old → Each (D.leaves disk.old disk.new) (OpensAs area old)) }
{
    if content[0] != 1 {
        return Ok(());
    }
    if let Some(place) = area.wrong_field(len, content) {
        return Err(OpenFault::BadField(place));
    }
    let (count, ranges) = ranges_of(content);
    settle(disk, area, count, ranges)?;
    Ok(())
}

/// Opens a disk with a redo record, with room for its record.
fn open_with<D: Disk>(disk: &mut D, area: Area, content: &mut [u8]) -> Result<(), OpenFault>
    requires area { IsArea area }
    requires room { length content.old ≡ area.size }
    ensures opens { ForSome (D.told disk.old) (λ old. area.place + area.size ≤ length old → OpensOn area result old (D.told disk.new) (D.may_leave disk.new)) }
    ensures again { ForSome (D.told disk.old) (λ old. IsClosed area old → D.told disk.new ≡ Some old) }
    ensures cause { CountsFault result (D.faults disk.old) (D.faults disk.new) }
    ensures follows { D.follows disk.old disk.new }
    ensures leaves { ForSome (D.told disk.old) (λ old. area.place + area.size ≤ length old
        → Each (D.leaves disk.old disk.new) (OpensAsOne area (D.may_leave disk.old))) }
{
    let len = read_record(disk, area, content)?;
    replay(disk, area, len, content)
}

/// Opens a disk with a redo record.
pub(crate) fn open_on<D: Disk>(alloc: Global, disk: &mut D, area: Area) -> Result<(), OpenFault>
    requires { IsArea area }
    ensures opens { ForSome (D.told disk.old) (λ old. area.place + area.size ≤ length old → OpensOn area result old (D.told disk.new) (D.may_leave disk.new)) }
    ensures again { ForSome (D.told disk.old) (λ old. IsClosed area old → D.told disk.new ≡ Some old) }
    ensures cause { CountsFault result (D.faults disk.old) (D.faults disk.new) }
    ensures follows { D.follows disk.old disk.new }
    ensures leaves { ForSome (D.told disk.old) (λ old. area.place + area.size ≤ length old
        → Each (D.leaves disk.old disk.new) (OpensAsOne area (D.may_leave disk.old))) }
{
    match vec![in alloc; 0; area.size as usize] {
        Ok(mut content) => open_with(disk, area, &mut content),
        Err(_) => Err(OpenFault::Memory),
    }
}
