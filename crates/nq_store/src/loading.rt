//! Reads what is in an image of version 2 from a disk whose record is closed, but for the bodies.

ghost use Rattle.std.specs.Prelude.{◌≡◌, ◌≤◌, length};
ghost use Rattle.std.specs.Option.{ForSome};
ghost use Rattle.nq_image.specs.Layout.{piece as piece_at};
ghost use Rattle.nq_store.specs.Loading.{AreFrontOf, Gives, IsHeadOf, IsShut, Loads, OnlyAsked, OpensTables};
ghost use Rattle.nq_store.specs.Opening.{CountsFault};

use crate::fault::Fault;
use nq_disk::Disk;
use nq_image::{Front, block_place, piece, read_front};
use nq_plan::Tables;
use std::alloc::Global;

/// How long the rows are.
pub(crate) const ROWS_SIZE: usize = 28672;

/// How long the tables are.
const TABLES_SIZE: usize = 1_052_672;

/// The bytes from a place on, so many or as many as there are.
pub(crate) fn read_piece<D: Disk>(
    disk: &mut D,
    alloc: Global,
    place: u64,
    size: usize,
) -> Result<Vec<u8>, Fault>
    ensures told { ForSome (D.told disk.old) (λ bytes. Gives result (λ part. part.items ≡ piece_at place size bytes)) }
    ensures asked { OnlyAsked D.told D.follows D.may_leave D.leaves disk.old disk.new }
    ensures cause { CountsFault result (D.faults disk.old) (D.faults disk.new) }
{
    let mut bytes = vec![in alloc; 0; size]?;
    let count = disk.read(place, &mut bytes)?;
    bytes.truncate(count);
    Ok(bytes)
}

/// What is in an image of version 2 with these numbers.
fn load_behind<D: Disk>(
    disk: &mut D,
    alloc: Global,
    front: &Front,
    head: &[u8],
) -> Result<Tables, Fault>
    requires near { front.now.tables ≤ 16384 }
    requires size { length head.now ≡ 28672 }
    ensures told { ForSome (D.told disk.old) (λ bytes. AreFrontOf bytes head.now front.now → Loads result bytes) }
    ensures asked { OnlyAsked D.told D.follows D.may_leave D.leaves disk.old disk.new }
    ensures cause { CountsFault result (D.faults disk.old) (D.faults disk.new) }
{
    let window = read_piece(disk, alloc, block_place(front.tables), TABLES_SIZE)?;
    let size = disk.size()?;
    let tables = Tables::read(alloc, front, head, &window, size)?;
    Ok(tables)
}

/// What is in an image of version 2, whose record is closed and whose first bytes were read.
pub(crate) fn load<D: Disk>(disk: &mut D, alloc: Global, head: &[u8]) -> Result<Tables, Fault>
    requires { length head.now ≡ 28672 }
    ensures told { ForSome (D.told disk.old) (λ bytes. IsShut (D.may_leave disk.old) bytes → IsHeadOf bytes head.now
        → OpensTables result bytes (D.told disk.new) (D.may_leave disk.new)) }
    ensures asked { OnlyAsked D.told D.follows D.may_leave D.leaves disk.old disk.new }
    ensures cause { CountsFault result (D.faults disk.old) (D.faults disk.new) }
{
    let front = read_front(piece(head, 0, 64))?;
    load_behind(disk, alloc, &front, head)
}
