//! Opening an image, or making it.

ghost use Rattle.std.specs.Option.{ForSome};
ghost use Rattle.std.specs.Prelude.{◌≡◌, ◌<◌, [], Some, length, IfOk};
ghost use Rattle.nq_image.specs.Nothing.{nothing_kept};
ghost use Rattle.nq_service.specs.Opening.{OpensOrMakes, Readies};
ghost use Rattle.nq_store.specs.Storing.{IsFresh, content_of, kept_told};

use nq_disk::{Disk, DiskFault};
use nq_store::{OpenFault, Store, format};
use std::alloc::Global;

/// Opens the image on a disk. A disk with no byte is made an image first, in which nothing is kept; of any other one the bytes stay as
/// they are until it is opened, and what they stood for is kept, whenever a stop comes. A stop while the image is made may leave
/// bytes that are none.
///
/// # Errors
///
/// Those of [`Store::open`], and `Failed` where the disk failed before. An empty disk is never refused for its bytes.
pub fn open_or_make<D: Disk + Drop>(alloc: Global, disk: D) -> Result<Store<D>, OpenFault<D>>
    ensures opens { OpensOrMakes D.told D.faults D.may_leave D.follows D.leaves disk result }
    ensures keeps { ForSome (D.told disk) (λ bytes. 0 < length bytes → IfOk result (λ store. content_of D.told store ≡ kept_told (D.told disk))) }
    ensures makes { D.told disk ≡ Some [] → IfOk result (λ store. content_of D.told store ≡ Some nothing_kept) }
    ensures fresh { IfOk result IsFresh }
{
    let mut disk = disk;
    match make_ready(&mut disk) {
        Ok(()) => Store::open(alloc, disk),
        Err(_) => Err(OpenFault::Failed(disk)),
    }
}

/// Makes a disk an empty image, if it has no byte.
fn make_ready<D: Disk>(disk: &mut D) -> Result<(), DiskFault>
    ensures { Readies D.told D.faults D.may_leave D.follows D.leaves result disk.old disk.new }
{
    match disk.size() {
        Ok(0) => format(disk),
        Ok(_) => Ok(()),
        Err(fault) => Err(fault),
    }
}
