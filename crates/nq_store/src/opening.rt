//! A disk is opened as what a server keeps.

ghost use Rattle.std.specs.Prelude.{◌≡◌, ◌≤◌, true, IfOk, OnOk, length, slice_index};
ghost use Rattle.std.specs.Option.{ForSome};
ghost use Rattle.nq_disk.specs.Calling.{IsAllThatIsLeft};
ghost use Rattle.nq_plan.specs.Standing.{begins_as_image, image_area};
ghost use Rattle.nq_image.specs.Heads.{version_of as version_at};
ghost use Rattle.nq_image.specs.Layout.{piece};
ghost use Rattle.nq_disk.specs.Saying.{Only};
ghost use Rattle.nq_store.specs.Loading.{Gives, IsShut, IsShutAs, OnlyAsked, OpensTables, StaysAs, is_name as is_image_name};
ghost use Rattle.nq_store.specs.Migrating.{IsOld, LeavesSameKept};
ghost use Rattle.nq_store.specs.Opening.{AnswersOpen, CountsFault, FollowsOpen, LeavesLike, SaysWrong, StaysRefused, disk_of};

use crate::fault::{Fault, OpenFault};
use crate::loading::{ROWS_SIZE, load, read_piece};
use crate::migrating::migrate;
use nq_disk::Disk;
use nq_disk::redo::{Area, Redo, RedoOpen};
use nq_image::{Version, version_of};
use nq_plan::Tables;
use std::alloc::Global;

/// The record of a change, and the end of the largest image.
const AREA: Area = Area {
    place: 28672,
    size: 12288,
    bound: 68_202_496,
};

/// How long the rows and the record are together.
const SHORTEST: u64 = 40960;

fn is_name(name: &[u8]) -> bool
    ensures { result ≡ is_image_name name.now }
{
    name == b"NQNFSIM".as_slice()
}

/// Whether a disk is long enough for an image and begins as one does.
fn is_named<D: Disk>(disk: &mut D, alloc: Global) -> Result<bool, Fault>
    ensures told { ForSome (D.told disk.old) (λ bytes. Gives result (λ named. named ≡ begins_as_image bytes)) }
    ensures settles { OnOk result (IsAllThatIsLeft (D.told disk.old) (D.may_leave disk.new)) }
    ensures asked { OnlyAsked D.told D.follows D.may_leave D.leaves disk.old disk.new }
    ensures cause { CountsFault result (D.faults disk.old) (D.faults disk.new) }
{
    disk.sync()?;
    let size = disk.size()?;
    if size < SHORTEST {
        return Ok(false);
    }
    let name = read_piece(disk, alloc, 0, 7)?;
    Ok(is_name(&name))
}

/// A disk that begins as an image, with its record closed; what its record said is written.
fn open_named<D: Disk>(disk: D, alloc: Global) -> Result<Redo<D>, OpenFault<D>>
    ensures area { IfOk result (λ redo. redo.area ≡ image_area) }
    ensures shut { ForSome (D.told disk) (λ bytes. begins_as_image bytes ≡ true
        → IfOk result (λ redo. IsShutAs bytes (D.told redo.disk) (D.may_leave redo.disk))) }
    ensures wrong { ForSome (D.told disk) (λ bytes. begins_as_image bytes ≡ true → SaysWrong result (D.told disk)) }
    ensures stays { ForSome (D.told disk) (λ bytes. begins_as_image bytes ≡ true → StaysRefused D.told result bytes) }
    ensures cause { AnswersOpen (λ redo. redo.disk) D.faults result disk }
    ensures follows { FollowsOpen (λ redo. redo.disk) D.follows result disk }
    ensures leaves { ForSome (D.told disk) (λ bytes. begins_as_image bytes ≡ true → Only bytes (D.may_leave disk)
        → LeavesSameKept bytes (D.leaves disk (disk_of (λ redo. redo.disk) result))) }
{
    match Redo::open(alloc, disk, AREA) {
        Ok(redo) => Ok(redo),
        Err(RedoOpen::BadField(disk, place)) => Err(OpenFault::BadField(disk, place)),
        Err(RedoOpen::Failed(disk)) => Err(OpenFault::Failed(disk)),
        Err(RedoOpen::Memory(disk)) => Err(OpenFault::Memory(disk)),
    }
}

/// A disk whose record is closed; what its record said is written.
pub(crate) fn open_record<D: Disk>(disk: D, alloc: Global) -> Result<Redo<D>, OpenFault<D>>
    ensures area { IfOk result (λ redo. redo.area ≡ image_area) }
    ensures shut { ForSome (D.told disk) (λ bytes. IfOk result (λ redo. IsShutAs bytes (D.told redo.disk) (D.may_leave redo.disk))) }
    ensures wrong { SaysWrong result (D.told disk) }
    ensures stays { ForSome (D.told disk) (λ bytes. StaysRefused D.told result bytes) }
    ensures cause { AnswersOpen (λ redo. redo.disk) D.faults result disk }
    ensures follows { FollowsOpen (λ redo. redo.disk) D.follows result disk }
    ensures leaves { LeavesLike (D.told disk) (D.may_leave disk) (D.leaves disk (disk_of (λ redo. redo.disk) result)) }
{
    let mut disk = disk;
    match is_named(&mut disk, alloc) {
        Ok(true) => open_named(disk, alloc),
        Ok(false) => Err(OpenFault::NotAnImage(disk)),
        Err(fault) => Err(fault.of(disk)),
    }
}

/// The rows of an image: its first bytes, up to the record. Where the disk gives fewer it is no image.
fn read_head<D: Disk>(disk: &mut D, alloc: Global) -> Result<Vec<u8>, Fault>
    ensures size { IfOk result (λ head. length head.items ≡ 28672) }
    ensures told { ForSome (D.told disk.old) (λ bytes. 28672 ≤ length bytes → Gives result (λ head. head.items ≡ piece 0 28672 bytes)) }
    ensures asked { OnlyAsked D.told D.follows D.may_leave D.leaves disk.old disk.new }
    ensures cause { CountsFault result (D.faults disk.old) (D.faults disk.new) }
{
    let head = read_piece(disk, alloc, 0, ROWS_SIZE)?;
    if head.len() != ROWS_SIZE {
        return Err(Fault::NotAnImage);
    }
    Ok(head)
}

/// What is in an image that was migrated.
fn load_migrated<D: Disk>(disk: &mut D, alloc: Global) -> Result<Tables, Fault>
    ensures told { ForSome (D.told disk.old) (λ bytes. IsShut (D.may_leave disk.old) bytes → slice_index bytes 7 ≡ 50
        → OpensTables result bytes (D.told disk.new) (D.may_leave disk.new)) }
    ensures asked { OnlyAsked D.told D.follows D.may_leave D.leaves disk.old disk.new }
    ensures cause { CountsFault result (D.faults disk.old) (D.faults disk.new) }
{
    let head = read_head(disk, alloc)?;
    load(disk, alloc, &head)
}

/// What is in an image of version 1, whose record is closed. It becomes one of version 2.
fn load_old<D: Disk>(redo: &mut Redo<D>, alloc: Global, head: &[u8]) -> Result<Tables, Fault>
    requires area { redo.old.area ≡ image_area }
    requires size { length head.now ≡ 28672 }
    ensures area { redo.new.area ≡ image_area }
    ensures told { ForSome (D.told redo.old.disk) (λ bytes. IsOld head.now (D.may_leave redo.old.disk) bytes
        → OpensTables result bytes (D.told redo.new.disk) (D.may_leave redo.new.disk)) }
    ensures stays { ForSome (D.told redo.old.disk) (λ bytes. IsOld head.now (D.may_leave redo.old.disk) bytes → StaysAs result bytes (D.told redo.new.disk)) }
    ensures cause { CountsFault result (D.faults redo.old.disk) (D.faults redo.new.disk) }
    ensures follows { D.follows redo.old.disk redo.new.disk }
    ensures leaves { ForSome (D.told redo.old.disk) (λ bytes. IsOld head.now (D.may_leave redo.old.disk) bytes
        → LeavesSameKept bytes (D.leaves redo.old.disk redo.new.disk)) }
{
    migrate(redo, alloc, head)?;
    load_migrated(&mut redo.disk, alloc)
}

/// The version of an image, by its first bytes; None where they say none.
fn version_in(head: &[u8]) -> Option<Version>
    requires { length head.now ≡ 28672 }
    ensures { result ≡ version_at (slice_index head.now 7) }
{
    version_of(head[7])
}

/// What is in the image of a disk whose record is closed, by its first bytes.
fn load_any<D: Disk>(redo: &mut Redo<D>, alloc: Global, head: &[u8]) -> Result<Tables, Fault>
    requires area { redo.old.area ≡ image_area }
    requires size { length head.now ≡ 28672 }
    ensures area { redo.new.area ≡ image_area }
    ensures told { ForSome (D.told redo.old.disk) (λ bytes. IsShut (D.may_leave redo.old.disk) bytes → head.now ≡ piece 0 28672 bytes
        → OpensTables result bytes (D.told redo.new.disk) (D.may_leave redo.new.disk)) }
    ensures stays { ForSome (D.told redo.old.disk) (λ bytes. IsShut (D.may_leave redo.old.disk) bytes → head.now ≡ piece 0 28672 bytes
        → StaysAs result bytes (D.told redo.new.disk)) }
    ensures cause { CountsFault result (D.faults redo.old.disk) (D.faults redo.new.disk) }
    ensures follows { D.follows redo.old.disk redo.new.disk }
    ensures leaves { ForSome (D.told redo.old.disk) (λ bytes. IsShut (D.may_leave redo.old.disk) bytes → head.now ≡ piece 0 28672 bytes
        → LeavesSameKept bytes (D.leaves redo.old.disk redo.new.disk)) }
{
    match version_in(head) {
        None => Err(Fault::NotAnImage),
        Some(Version::Two) => load(&mut redo.disk, alloc, head),
        Some(Version::One) => load_old(redo, alloc, head),
    }
}

/// What is in the image of a disk whose record is closed. It becomes an image of version 2 if it is none yet.
pub(crate) fn open_tables<D: Disk>(redo: &mut Redo<D>, alloc: Global) -> Result<Tables, Fault>
    requires { redo.old.area ≡ image_area }
    ensures area { redo.new.area ≡ image_area }
    ensures told { ForSome (D.told redo.old.disk) (λ bytes. IsShut (D.may_leave redo.old.disk) bytes
        → OpensTables result bytes (D.told redo.new.disk) (D.may_leave redo.new.disk)) }
    ensures stays { ForSome (D.told redo.old.disk) (λ bytes. IsShut (D.may_leave redo.old.disk) bytes → StaysAs result bytes (D.told redo.new.disk)) }
    ensures cause { CountsFault result (D.faults redo.old.disk) (D.faults redo.new.disk) }
    ensures follows { D.follows redo.old.disk redo.new.disk }
    ensures leaves { ForSome (D.told redo.old.disk) (λ bytes. IsShut (D.may_leave redo.old.disk) bytes
        → LeavesSameKept bytes (D.leaves redo.old.disk redo.new.disk)) }
{
    let head = read_head(&mut redo.disk, alloc)?;
    load_any(redo, alloc, &head)
}
