//! The image in which nothing is kept.

ghost use Rattle.std.specs.Prelude.{◌≡◌, ◌*◌, ◌<◌, ◌++◌, Some, length, drop, OnOk};
ghost use Rattle.std.specs.Option.{ForSome};
ghost use Rattle.nq_disk.specs.Calling.{Counts};
ghost use Rattle.nq_plan.specs.Formatted.{StandsForNothing, TellsNothing};
ghost use Rattle.nq_image.specs.Writing.{zeros_of};
ghost use Rattle.nq_disk.specs.Saying.{Each};

use nq_disk::{Disk, DiskFault};

/// How many bytes are written at once.
const CHUNK: usize = 4096;

/// How many such chunks the image has: the rows, the record, and the tables.
const CHUNKS: u64 = 267;

/// Its name, and the numbers of a server that never booted: the longest term is 60, and the next id is 1.
const FRONT: &[u8] = b"NQNFSIM2\x00\x00\x00\x00\x00\x00\x00\x00\x00\x00\x00<\x00\x00\x00\x01";

/// Writes zeros over so many chunks, from the first byte on.
fn write_zeros<D: Disk>(disk: &mut D, zeros: &[u8], chunks: u64) -> Result<(), DiskFault>
    requires size { length zeros.now ≡ 4096 }
    requires zeros { zeros.now ≡ zeros_of 4096 }
    requires few { chunks < 1000 }
    ensures written { OnOk result (ForSome (D.told disk.old) (λ old. D.told disk.new ≡ Some (zeros_of (4096 * chunks) ++ drop (4096 * chunks) old))) }
    ensures cause { Counts result (D.faults disk.old) (D.faults disk.new) }
    ensures follows { D.follows disk.old disk.new }
{
    for chunk in 0..chunks {
        disk.write_at(4096 * chunk, zeros)?;
    }
    Ok(())
}

/// Makes a disk an image in which nothing is kept: of 1,093,632 bytes, and what stood behind them stays. It takes no memory.
///
/// # Errors
///
/// Only where the disk failed; for what it stands is open then.
pub fn format<D: Disk>(disk: &mut D) -> Result<(), DiskFault>
    ensures formatted { OnOk result (ForSome (D.told disk.old) (λ old. TellsNothing (D.told disk.new) × Each (D.may_leave disk.new) StandsForNothing)) }
    ensures cause { Counts result (D.faults disk.old) (D.faults disk.new) }
    ensures follows { D.follows disk.old disk.new }
{
    write_zeros(disk, &[0; CHUNK], CHUNKS)?;
    disk.write_at(0, FRONT)?;
    disk.sync()
}
