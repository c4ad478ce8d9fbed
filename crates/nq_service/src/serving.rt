//! Serving over the image on a disk.

ghost use Rattle.std.specs.Prelude.{◌≡◌, ◌≤◌, IfOk, string_bytes};
ghost use Rattle.nq_clock.specs.Clocks.{clock_told};
ghost use Rattle.nq_link.specs.Links.{link_told};
ghost use Rattle.nq_base.specs.Status.{status_of};
ghost use Rattle.nq_serving.specs.Extending.{no_extension};
ghost use Rattle.nq_serving.specs.LeavingTurns.{LeavesServing};
ghost use Rattle.nq_serving.specs.declared.turning.LinkPolicy.{LinkPolicy};
ghost use Rattle.nq_service.specs.Serving.{EndsServing, PrintsBehind, ServesDisk, TellsByte, image_line};
ghost use Rattle.nq_store.specs.Storing.{GoesOn, LeavesKept, content_of, faults_of};

use nq_base::NoMemory;
use nq_base::ending::{Ended, Ending};
use nq_clock::Clock;
use nq_disk::Disk;
use nq_io::{Sink, put_line};
use nq_link::Link;
use nq_serving::serve;
use nq_store::{OpenFault, Store};
use std::alloc::Global;

/// Where an image says how many boots there were: the wrong byte where no number is left for another one.
const BOOT_PLACE: u64 = 8;

/// The exit status where a byte of the image says that it cannot be served from.
const BAD_IMAGE: u8 = 10;

/// Serves over the image on a disk for so many turns, as [`serve`] tells of the store that the disk opens as. What a stop at any
/// moment of the call may leave on the disk opens, and stands for what was kept at first, or after some of the steps: the boot, and
/// the ticks and datagrams of the turns.
///
/// The status is that of [`serve`]. It is 10, and `image byte P` is printed, exactly where the disk is no image (byte 0), where a field of
/// it is wrong (the first byte of that field), and where no number is left for a boot (byte 8), unless the disk fails before, or memory is
/// wanting. A disk that is refused so for its bytes keeps them, but that the ranges of an open record are written. The status is 6 only where
/// the disk failed.
pub fn serve_disk<D: Disk + Drop, L: Link, C: Clock, K: Sink>(
    alloc: Global,
    disk: D,
    turns: u32,
    longest: u32,
    link: &mut L,
    clock: &mut C,
    out: &mut K,
) -> Ended<u8, D>
    requires long { 5 ≤ longest }
    requires short { longest ≤ 600 }
    ensures serves { ServesDisk D.told D.faults D.may_leave D.follows D.leaves result.end longest turns disk result.left
        (clock_told C.floor C.readings C.reads clock.old) (clock_told C.floor C.readings C.reads clock.new)
        (link_told L.sent L.waiting L.faults L.receives link.old)
        (link_told L.sent L.waiting L.faults L.receives link.new)
        (K.held out.old) (K.held out.new) (K.faults out.old) (K.faults out.new) }
    ensures follows { D.follows disk result.left }
{
    match Store::open(alloc, disk) {
        Ok(store) => serve_store(alloc, store, turns, longest, link, clock, out),
        Err(OpenFault::NotAnImage(disk)) => refuse(alloc, disk, 0, out),
        Err(OpenFault::BadField(disk, place)) => refuse(alloc, disk, place, out),
        Err(OpenFault::Failed(disk)) => ended_with(Ending::KeepFault, disk),
        Err(OpenFault::Memory(disk)) => ended_with(Ending::Memory, disk),
    }
}

/// A command that ended so.
pub(crate) fn ended_with<D>(end: Ending, disk: D) -> Ended<u8, D>
    ensures status { result.end ≡ status_of end }
    ensures disk { result.left ≡ disk }
{
    Ended {
        end: end.status(),
        left: disk,
    }
}

/// Tells which byte of an image is the first wrong one, and ends with the status of that.
fn refuse<D: Drop, K: Sink>(alloc: Global, disk: D, place: u64, out: &mut K) -> Ended<u8, D>
    ensures tells { TellsByte place result.end (K.held out.old) (K.held out.new) (K.faults out.old) (K.faults out.new) }
    ensures disk { result.left ≡ disk }
{
    let Ok(line) = image_text(alloc, place) else {
        return ended_with(Ending::Memory, disk);
    };
    put_line(out, line.as_bytes());
    Ended {
        end: BAD_IMAGE,
        left: disk,
    }
}

/// The line that tells which byte of an image is the first wrong one.
#[tactic(auto, unfolding(crate::specs::Serving::image_line))]
fn image_text(alloc: Global, place: u64) -> Result<String, NoMemory>
    ensures { IfOk result (λ line. string_bytes line ≡ image_line place) }
{
    match format!(in alloc; "image byte {place}\n") {
        Ok(line) => Ok(line),
        Err(_) => Err(NoMemory::Memory),
    }
}

/// Serves over a store, and hands its disk back.
fn serve_store<D: Disk + Drop, L: Link, C: Clock, K: Sink>(
    alloc: Global,
    store: Store<D>,
    turns: u32,
    longest: u32,
    link: &mut L,
    clock: &mut C,
    out: &mut K,
) -> Ended<u8, D>
    requires long { 5 ≤ longest }
    requires short { longest ≤ 600 }
    ensures serves { EndsServing D.told D.faults D.follows
        (λ ended served. LeavesServing (content_of D.told) (faults_of D.faults) LinkPolicy.Stop no_extension (GoesOn D.faults D.follows)
        (λ first last. LeavesKept (D.leaves first.disk last.disk)) longest turns store ended served
        (clock_told C.floor C.readings C.reads clock.old) (clock_told C.floor C.readings C.reads clock.new)
        (link_told L.sent L.waiting L.faults L.receives link.old)
        (link_told L.sent L.waiting L.faults L.receives link.new))
        result.end turns store result.left
        (link_told L.sent L.waiting L.faults L.receives link.old)
        (link_told L.sent L.waiting L.faults L.receives link.new)
        (K.held out.old) (K.held out.new) (K.faults out.old) (K.faults out.new) }
{
    let served = serve(alloc, store, turns, longest, link, clock, out);
    tell_end(alloc, served.end, served.left.into_disk(), out)
}

/// Tells how serving ended, with the byte of the image that says so where no number is left for a boot.
fn tell_end<D: Drop, K: Sink>(alloc: Global, end: Ending, disk: D, out: &mut K) -> Ended<u8, D>
    ensures prints { PrintsBehind end result.end (K.held out.old) (K.held out.new) (K.faults out.old) (K.faults out.new) }
    ensures disk { result.left ≡ disk }
{
    match end {
        Ending::Spent => refuse(alloc, disk, BOOT_PLACE, out),
        end => ended_with(end, disk),
    }
}
