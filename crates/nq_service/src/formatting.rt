//! Making an empty image.

ghost use Rattle.nq_service.specs.Formatting.{Formats};

use crate::serving::ended_with;
use nq_base::ending::{Ended, Ending};
use nq_disk::Disk;
use nq_store::format;

/// Makes a disk an image in which nothing is kept, whatever it was. It takes no memory, and the status is 0; it is 6 only where the
/// disk failed.
pub fn format_disk<D: Disk + Drop>(disk: D) -> Ended<u8, D>
    ensures formats { Formats D.faults D.told D.may_leave result.end disk result.left }
    ensures follows { D.follows disk result.left }
{
    let mut disk = disk;
    match format(&mut disk) {
        Ok(()) => ended_with(Ending::Done, disk),
        Err(_) => ended_with(Ending::KeepFault, disk),
    }
}
