//! The command `loop`.

ghost use Rattle.std.specs.Prelude.{◌≡◌, ◌+◌, ◌≤◌, ℕ, List, Some, length, map};
ghost use Rattle.nq_loop.specs.Sending.{told_of};
ghost use Rattle.nq_clock.specs.Clocks.{clock_told};
ghost use Rattle.nq_run.specs.Running.{LoopsOn};

use nq_base::ending::Ended;
use nq_clock::Clock;
use nq_disk::Disk;
use nq_io::Sink;
use nq_link::Link;
use nq_loop::{LoopPlan, run_loop};
use nq_service::blank::emptied;
use std::alloc::Global;

/// Runs a loop among so many hosts, 1 to 64, over their links and an empty store of a disk that tells its bytes.
pub(crate) fn looped<K: Sink, D: Disk + Drop, L: Link, C: Clock>(
    alloc: Global,
    disk: D,
    plan: LoopPlan,
    links: &mut [L],
    clock: &mut C,
    out: &mut K,
) -> Ended<u8, D>
    requires tells { (bytes : List ℕ) × (D.told disk ≡ Some bytes) }
    requires some { 1 ≤ plan.hosts }
    requires few { plan.hosts ≤ 64 }
    requires links { length links.old ≡ plan.hosts + 1 }
    ensures loops { LoopsOn result.end plan.hosts plan.turns (clock_told C.floor C.readings C.reads clock.old) (clock_told C.floor C.readings C.reads clock.new)
        (map (told_of L.sent L.waiting L.faults L.receives) links.old) (map (told_of L.sent L.waiting L.faults L.receives) links.new)
        (K.held out.old) (K.held out.new) (K.faults out.old) (K.faults out.new) (D.faults disk) (D.faults result.left) (D.told result.left) }
    ensures follows { D.follows disk result.left }
{
    let LoopPlan { hosts, turns } = plan;
    match emptied(alloc, disk) {
        Ok(store) => {
            let finished = run_loop(alloc, store, LoopPlan { hosts, turns }, links, clock, out);
            Ended {
                end: finished.end.status(),
                left: finished.left.into_disk(),
            }
        }
        Err(ended) => Ended {
            end: ended.end.status(),
            left: ended.left,
        },
    }
}
