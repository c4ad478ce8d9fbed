//! Serving on over the image on a disk.

ghost use Rattle.std.specs.Prelude.{◌≡◌, ◌<◌, ◌≤◌, ◌^◌, IfErr, IfOk};
ghost use Rattle.nq_service.specs.MountServing.{EndsServing, ServesImage, ServesNot};
ghost use Rattle.nq_serving.specs.Extending.{extension_told};
ghost use Rattle.nq_clock.specs.Clocks.{clock_told};
ghost use Rattle.nq_link.specs.Links.{link_told};
ghost use Rattle.nq_store.specs.Storing.{IsFresh};

use crate::mount::opening::open_or_make;
use crate::mount::survey::{Survey, surveyed};
use crate::recent::RecentKeeper;
use nq_base::ending::{Ended, Fault};
use nq_clock::Clock;
use nq_disk::Disk;
use nq_link::Link;
use nq_serving::{Extension, Watcher, keep_serving};
use nq_store::{OpenFault, Store};
use std::alloc::Global;

/// Somebody who is told what an image holds once it is open. No contract speaks of what is done with that.
pub trait Greeter {
    /// An image was opened that holds so much.
    fn opened(&mut self, survey: &Survey);
}

/// Serves over the image on a disk, which is made where the disk has no byte, as [`keep_serving`] tells of the store that the disk opens as.
/// What a stop at any moment of the call may leave on the disk opens, and stands for what was kept at first, or after some of the
/// steps: the boot, and the ticks and datagrams of the turns. Of an empty disk this is so from the moment on that its image is made.
/// The watcher is told once what the image holds, before the first turn, and answers the datagrams that are its own.
///
/// # Errors
///
/// Those of [`open_or_make`]; then nothing was served, what was kept is kept, and a disk that is refused for its bytes has them still, but
/// that the ranges of an open record may have been written.
pub fn serve_image<D: Disk + Drop, L: Link, C: Clock, W: Watcher<L> + Greeter + Extension>(
    alloc: Global,
    disk: D,
    turns: u64,
    longest: u32,
    link: &mut L,
    clock: &mut C,
    watcher: &mut W,
) -> Result<Ended<Result<(), Fault>, D>, OpenFault<D>>
    requires few { turns < 2 ^ 60 }
    requires long { 5 ≤ longest }
    requires short { longest ≤ 600 }
    ensures serves { IfOk result (λ left. ServesImage D.told D.faults D.may_leave D.follows D.leaves
        (extension_told W.owns W.replies) longest turns disk left.end left.left
        (clock_told C.floor C.readings C.reads clock.old) (clock_told C.floor C.readings C.reads clock.new)
        (link_told L.sent L.waiting L.faults L.receives link.old)
        (link_told L.sent L.waiting L.faults L.receives link.new)) }
    ensures refuses { IfErr result (λ fault. ServesNot D.told D.faults D.may_leave D.leaves disk fault
        (clock_told C.floor C.readings C.reads clock.old) (clock_told C.floor C.readings C.reads clock.new)
        (link_told L.sent L.waiting L.faults L.receives link.old)
        (link_told L.sent L.waiting L.faults L.receives link.new)) }
{
    match open_or_make(alloc, disk) {
        Ok(store) => Ok(serve_store(alloc, store, turns, longest, link, clock, watcher)),
        Err(fault) => Err(fault),
    }
}

/// Serves over a store that was just opened, and hands its disk back.
fn serve_store<D: Disk + Drop, L: Link, C: Clock, W: Watcher<L> + Greeter + Extension>(
    alloc: Global,
    store: Store<D>,
    turns: u64,
    longest: u32,
    link: &mut L,
    clock: &mut C,
    watcher: &mut W,
) -> Ended<Result<(), Fault>, D>
    requires few { turns < 2 ^ 60 }
    requires long { 5 ≤ longest }
    requires short { longest ≤ 600 }
    requires fresh { IsFresh store }
    ensures { EndsServing D.told D.faults D.follows D.leaves (extension_told W.owns W.replies) longest turns store result.end result.left
        (clock_told C.floor C.readings C.reads clock.old) (clock_told C.floor C.readings C.reads clock.new)
        (link_told L.sent L.waiting L.faults L.receives link.old)
        (link_told L.sent L.waiting L.faults L.receives link.new) }
{
    let mut store = store;
    greet(&mut store, watcher);
    let keeper = RecentKeeper::new(alloc, store);
    let ran = keep_serving(alloc, keeper, turns, longest, link, clock, watcher);
    Ended {
        end: ran.end,
        left: ran.left.into_keeper().into_disk(),
    }
}

/// Tells what a store holds that was just opened.
fn greet<D: Disk + Drop, G: Greeter>(store: &mut Store<D>, greeter: &mut G)
    requires { IsFresh store.old }
    ensures { store.new ≡ store.old }
{
    if let Ok(survey) = surveyed(store) {
        greeter.opened(&survey);
    }
}
