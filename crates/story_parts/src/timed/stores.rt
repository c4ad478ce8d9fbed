//! What a server keeps: requests that are decided over it, in lists or on a disk; and such a disk alone.

use nq_base::{
    Block, BlockNo, Decided, FileId, Gate, Host, Inc, Name, Number, Request, Seq, Verdict, Who,
};
use nq_disk::{Disk, FileDisk, MemDisk, Room};
use nq_keeper::requests::{ReadOut, decide, read_block};
use nq_keeper::{KeepFault, Keeper, ListKeeper};
use nq_store::{Store, format};
use std::alloc::Global;

/// A disk in memory has room for the largest image, and for so many calls and bytes.
const ROOM: Room = Room {
    size: 68_202_496,
    calls: 4_000_000,
    written: 600_000_000,
};

/// Who asks.
const ASKER: Who = Who {
    host: Host(0),
    inc: Inc(1),
};

/// A boot serves, and no other host caches the file.
const SERVING: Gate = Gate::Serving {
    boot: 0,
    conflict: false,
    writing_row: false,
};

/// Does one thing so many times, with lists, with a disk in memory, or with the file at this path; None where that cannot be done
/// there, memory is wanting, or the disk fails.
pub(crate) fn often(rt: &HostRuntime, deed: &str, place: &str, times: u32) -> Option<u64> {
    let alloc = rt.alloc();
    match place {
        "list" => {
            let mut keeper = ListKeeper::new(alloc, Vec::new(alloc)).ok()?;
            ask_often(&mut keeper, deed, times)
        }
        "memory" => {
            let disk = MemDisk::new(alloc, Vec::new(alloc), ROOM, Vec::new(alloc), None).ok()?;
            with_disk(alloc, disk, deed, times)
        }
        path => {
            let disk = FileDisk::new(alloc, rt.clone().ok()?, path).ok()?;
            with_disk(alloc, disk, deed, times)
        }
    }
}

/// Does one thing so many times with a disk: four writes and syncs, as a change of a block has, the opening of the empty image or of the
/// largest one, with 16 files of 1,024 blocks, or what is asked of a store.
fn with_disk<D: Disk + Drop>(alloc: Global, disk: D, deed: &str, times: u32) -> Option<u64> {
    let mut disk = disk;
    if deed == "bare" {
        return bare(&mut disk, times);
    }
    format(&mut disk).ok()?;
    let mut store = Store::open(alloc, disk).ok()?;
    match deed {
        "open" => open_often(alloc, store, times),
        "open-full" if fill(&mut store, 16, 1024) => open_often(alloc, store, times),
        _ => ask_often(&mut store, deed, times),
    }
}

/// Four writes and syncs, so many times.
fn bare<D: Disk>(disk: &mut D, times: u32) -> Option<u64> {
    let record = [7; 4352];
    let block = [7; 4096];
    for _ in 0..times {
        write_once(disk, 28673, &record)?;
        write_once(disk, 28672, &[1])?;
        write_once(disk, 40960, &block)?;
        write_once(disk, 28672, &[0])?;
    }
    Some(u64::from(times))
}

/// Writes and syncs.
fn write_once<D: Disk>(disk: &mut D, place: u64, bytes: &[u8]) -> Option<()> {
    disk.write_at(place, bytes).ok()?;
    disk.sync().ok()
}

/// Opens a disk again and again.
fn open_often<D: Disk + Drop>(alloc: Global, store: Store<D>, times: u32) -> Option<u64> {
    let mut disk = store.into_disk();
    for _ in 0..times {
        disk = Store::open(alloc, disk).ok()?.into_disk();
    }
    Some(u64::from(times))
}

/// Asks for one thing so many times, over nothing that is kept: for a change of the first block of the first file, or for that block.
fn ask_often<K: Keeper>(keeper: &mut K, deed: &str, times: u32) -> Option<u64> {
    let writes = match deed {
        "commit" => true,
        "read" => false,
        _ => return None,
    };
    let mut last = if fill(keeper, 1, 1) { Some(0) } else { None };
    for turn in 0..times {
        last?;
        last = if writes {
            write(keeper, turn)
        } else {
            read(keeper)
        };
    }
    last
}

/// Has the asker attach, and make so many files of so many blocks. The first one has the id 1.
fn fill<K: Keeper>(keeper: &mut K, files: u32, blocks: u32) -> bool {
    let attach = Request::Attach { who: ASKER };
    let mut is_well = value_of(decide(keeper, attach, SERVING)).is_some();
    for number in 0..files {
        if let Some(name) = Name::new(&[b'a' + (number % 26) as u8]) {
            let request = Request::Create {
                who: ASKER,
                seq: Seq(u64::from(number) + 1),
                name,
                blocks,
            };
            is_well = value_of(decide(keeper, request, SERVING)).is_some() && is_well;
        }
    }
    is_well
}

/// The value of a request that was done.
fn value_of(decided: Result<Decided, KeepFault>) -> Option<u64> {
    match decided {
        Ok(
            Decided::Fresh {
                verdict: Verdict::Done,
                value,
            },
        ) => Some(value),
        _ => None,
    }
}

/// Writes the first block of the first file.
fn write<K: Keeper>(keeper: &mut K, turn: u32) -> Option<u64> {
    let number = Number(u64::from(turn) + 1);
    let request = Request::Write {
        who: ASKER,
        seq: Seq(u64::from(turn) + 2),
        file: FileId(1),
        block: BlockNo(0),
        first: number,
        last: number,
        push: None,
        body: Block::fill(turn),
    };
    value_of(decide(keeper, request, SERVING))
}

/// Reads the first block of the first file.
fn read<K: Keeper>(keeper: &mut K) -> Option<u64> {
    match read_block(keeper, FileId(1), BlockNo(0)) {
        Ok(ReadOut::Got { .. }) => Some(1),
        _ => None,
    }
}
