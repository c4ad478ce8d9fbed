//! A disk with a redo record.

ghost use Rattle.std.specs.Prelude.{◌≡◌, ◌⊎◌, ◌+◌, ◌≤◌, List, Some, length, IfOk, OnOk};
ghost use Rattle.std.specs.Option.{ForSome};
ghost use Rattle.nq_disk.specs.Calling.{Counts};
ghost use Rattle.nq_disk.specs.Batch.{IsFit};
ghost use Rattle.nq_disk.specs.Opens.{CountsOpen, Opens, disk_in};
ghost use Rattle.nq_disk.specs.Saying.{Each};
ghost use Rattle.nq_disk.specs.Whole.{IsArea, IsClosed, OpensAfter, OpensAsOne, Settled, after, found};

use crate::redo::area::Area;
use crate::redo::batch::Batch;
use crate::redo::change::change;
use crate::redo::replay::{OpenFault, open_on};
use crate::{Disk, DiskFault};
use std::alloc::Global;

/// A disk with a redo record, whose gate is closed between two changes. Whoever writes to the disk otherwise leaves the record
/// alone.
#[derive(Drop)]
pub struct Redo<D> {
    /// The disk.
    pub disk: D,
    /// Where the record stands.
    pub area: Area,
}

/// Why a disk with a redo record does not open. The disk is handed back.
#[derive(Drop)]
pub enum RedoOpen<D> {
    /// The gate is open, and this is the first byte of the first wrong field of the record.
    BadField(D, u64),
    /// The disk failed.
    Failed(D),
    /// Memory was wanting; the disk is as before.
    Memory(D),
}

impl<D: Disk> Redo<D> {
    /// Opens a disk that has the whole record. Where the gate is open it writes the record's ranges, and closes the gate. It
    /// begins with a sync, so that nothing is pending when the gate is read. Where the gate is closed it changes nothing, so to
    /// open again and again changes nothing either. Whenever a stop comes, the next open finds what this one finds.
    ///
    /// # Errors
    ///
    /// `BadField` exactly where the gate is open and a field is wrong, `Failed` only where the disk failed, and want of memory.
    pub fn open(alloc: Global, disk: D, area: Area) -> Result<Redo<D>, RedoOpen<D>>
        requires { IsArea area }
        ensures opens { ForSome (D.told disk) (λ old. area.place + area.size ≤ length old
            → Opens area result old (D.told (disk_in result)) (D.may_leave (disk_in result))) }
        ensures again { ForSome (D.told disk) (λ old. IsClosed area old → D.told (disk_in result) ≡ Some old) }
        ensures area { IfOk result (λ redo. redo.area ≡ area) }
        ensures cause { CountsOpen result (D.faults disk) (D.faults (disk_in result)) }
        ensures follows { D.follows disk (disk_in result) }
        ensures leaves { ForSome (D.told disk) (λ old. area.place + area.size ≤ length old
            → Each (D.leaves disk (disk_in result)) (OpensAsOne area (D.may_leave disk))) }
    {
        let mut disk = disk;
        match open_on(alloc, &mut disk, area) {
            Ok(()) => Ok(Redo { disk, area }),
            Err(OpenFault::BadField(place)) => Err(RedoOpen::BadField(disk, place)),
            Err(OpenFault::Failed) => Err(RedoOpen::Failed(disk)),
            Err(OpenFault::Memory) => Err(RedoOpen::Memory(disk)),
        }
    }

    /// Writes the ranges of a batch. They are written whole or not at all: whenever a stop comes, an open finds the disk before
    /// or the disk after. This holds where the batch fits, and where the gate is closed in all that a stop may leave before. It
    /// takes no memory.
    ///
    /// # Errors
    ///
    /// Only where the disk failed. The record has to be opened again then.
    pub fn apply(&mut self, batch: &Batch) -> Result<(), DiskFault>
        requires { IsArea self.old.area }
        ensures applied { OnOk result (ForSome (D.told self.old.disk) (λ old. Each (D.may_leave self.old.disk) (IsClosed self.old.area)
            → IsFit self.old.area (length old) batch.now
            → Settled self.old.area (after self.old.area batch.now old) (D.told self.new.disk) (D.may_leave self.new.disk))) }
        ensures same { self.new.area ≡ self.old.area }
        ensures cause { Counts result (D.faults self.old.disk) (D.faults self.new.disk) }
        ensures follows { D.follows self.old.disk self.new.disk }
        ensures whole { ForSome (D.told self.old.disk) (λ old. Each (D.may_leave self.old.disk) (IsClosed self.old.area)
            → IsFit self.old.area (length old) batch.now
            → Each (D.leaves self.old.disk self.new.disk) (λ image. OpensAsOne self.old.area (D.may_leave self.old.disk) image
            ⊎ OpensAfter self.old.area batch.now old image)) }
    {
        change(
            &mut self.disk,
            self.area,
            batch.body(),
            batch.count(),
            batch.ranges(),
        )
    }
}
