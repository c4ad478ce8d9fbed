//! A change of a disk: its record is staged, and then settled.

ghost use Rattle.std.specs.Prelude.{◌≡◌, ◌⊎◌, ◌+◌, ◌≤◌, ℕ, List, Option, Some, length, OnOk};
ghost use Rattle.std.specs.Option.{ForSome};
ghost use Rattle.nq_disk.specs.Calling.{Counts, IsAllThatIsLeft};
ghost use Rattle.nq_disk.specs.Ranges.{applied, Settling};
ghost use Rattle.nq_disk.specs.Record.{ranges_in, ranges_of};
ghost use Rattle.nq_disk.specs.Saying.{Each, Only};
ghost use Rattle.nq_disk.specs.Whole.{IsArea, IsClosed, IsOpen, OpensAs, OpensAsOne, Settled, found, record_of, staged};

use crate::redo::area::Area;
use crate::redo::steps::{put_ranges, write_synced};
use crate::{Disk, DiskFault};

/// Writes so many ranges, which stand at the front of these bytes, and syncs.
pub(crate) fn put_synced<D: Disk>(disk: &mut D, count: u32, bytes: &[u8]) -> Result<(), DiskFault>
    ensures written { OnOk result (ForSome (D.told disk.old) (λ old. D.told disk.new ≡ Some (applied (ranges_in count bytes.now) old))) }
    ensures settles { OnOk result (IsAllThatIsLeft (D.told disk.new) (D.may_leave disk.new)) }
    ensures cause { Counts result (D.faults disk.old) (D.faults disk.new) }
    ensures follows { D.follows disk.old disk.new }
    ensures leaves { ForSome (D.told disk.old) (λ old. Only old (D.may_leave disk.old)
        → Each (D.leaves disk.old disk.new) (Settling (ranges_in count bytes.now) old)) }
{
    put_ranges(disk, count, bytes)?;
    disk.sync()
}

/// Writes the ranges of the record, whose gate is open, and closes the gate behind them.
pub(crate) fn settle<D: Disk>(
    disk: &mut D,
    area: Area,
    count: u32,
    bytes: &[u8],
) -> Result<(), DiskFault>
    requires { IsArea area }
    ensures settled { OnOk result (ForSome (D.told disk.old) (λ old. Only old (D.may_leave disk.old) → IsOpen area old
        → ranges_in count bytes.now ≡ ranges_of (record_of area old) → Settled area (found area old) (D.told disk.new) (D.may_leave disk.new))) }
    ensures cause { Counts result (D.faults disk.old) (D.faults disk.new) }
    ensures follows { D.follows disk.old disk.new }
    ensures leaves { ForSome (D.told disk.old) (λ old. Only old (D.may_leave disk.old) → IsOpen area old
        → ranges_in count bytes.now ≡ ranges_of (record_of area old) → Each (D.leaves disk.old disk.new) (OpensAs area old)) }
{
    put_synced(disk, count, bytes)?;
    write_synced(disk, area.place, &[0])
}

/// Writes a record behind a closed gate, and opens the gate.
pub(crate) fn stage<D: Disk>(disk: &mut D, area: Area, body: &[u8]) -> Result<(), DiskFault>
    requires { IsArea area }
    ensures staged { OnOk result (ForSome (D.told disk.old) (λ old. D.told disk.new ≡ Some (staged area body.now old))) }
    ensures settles { OnOk result (IsAllThatIsLeft (D.told disk.new) (D.may_leave disk.new)) }
    ensures cause { Counts result (D.faults disk.old) (D.faults disk.new) }
    ensures follows { D.follows disk.old disk.new }
    ensures leaves { ForSome (D.told disk.old) (λ old. length body.now + 1 ≤ area.size → Each (D.may_leave disk.old) (IsClosed area)
        → Each (D.leaves disk.old disk.new) (λ image. OpensAsOne area (D.may_leave disk.old) image ⊎ OpensAs area (staged area body.now old) image)) }
{
    write_synced(disk, area.place + 1, body)?;
    write_synced(disk, area.place, &[1])
}

/// Writes ranges, so many at the front of the bytes behind a record's head, through the record.
pub(crate) fn change<D: Disk>(
    disk: &mut D,
    area: Area,
    body: &[u8],
    count: u32,
    bytes: &[u8],
) -> Result<(), DiskFault>
    requires { IsArea area }
    ensures settled { OnOk result (ForSome (D.told disk.old) (λ old. IsOpen area (staged area body.now old)
        → ranges_in count bytes.now ≡ ranges_of (record_of area (staged area body.now old))
        → Settled area (found area (staged area body.now old)) (D.told disk.new) (D.may_leave disk.new))) }
    ensures cause { Counts result (D.faults disk.old) (D.faults disk.new) }
    ensures follows { D.follows disk.old disk.new }
    ensures leaves { ForSome (D.told disk.old) (λ old. length body.now + 1 ≤ area.size → Each (D.may_leave disk.old) (IsClosed area)
        → IsOpen area (staged area body.now old) → ranges_in count bytes.now ≡ ranges_of (record_of area (staged area body.now old))
        → Each (D.leaves disk.old disk.new) (λ image. OpensAsOne area (D.may_leave disk.old) image ⊎ OpensAs area (staged area body.now old) image)) }
{
    stage(disk, area, body)?;
    settle(disk, area, count, bytes)
}
