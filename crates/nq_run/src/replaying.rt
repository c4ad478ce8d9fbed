//! The command `replay`.

ghost use Rattle.std.specs.Prelude.{◌≡◌, ◌<◌, ◌^◌, ℕ, List, Some};
ghost use Rattle.nq_run.specs.Running.{PlaysOn, ReplaysOn};
ghost use Rattle.nq_replay.specs.Playing.{play};
ghost use Rattle.nq_replay.specs.Schedules.{IsReady};

use nq_base::ending::Ended;
use nq_disk::Disk;
use nq_io::{Sink, Source};
use nq_replay::{read_script, replay};
use nq_script::Script;
use nq_service::blank::emptied;
use std::alloc::Global;

/// Reads a schedule of at most so many bytes, and plays it over an empty store of a disk that tells its bytes. The disk is touched
/// only once the schedule was read.
pub(crate) fn replayed<S: Source, K: Sink, D: Disk + Drop>(
    alloc: Global,
    disk: D,
    input: &mut S,
    out: &mut K,
    limit: usize,
) -> Ended<u8, D>
    requires short { limit < 2 ^ 31 }
    requires tells { (bytes : List ℕ) × (D.told disk ≡ Some bytes) }
    ensures replays { ReplaysOn limit result.end (S.left input.old) (S.left input.new) (K.held out.old) (K.held out.new)
        (S.faults input.old) (S.faults input.new) (K.faults out.old) (K.faults out.new) (D.faults disk) (D.faults result.left)
        (D.told result.left) disk result.left }
    ensures follows { D.follows disk result.left }
{
    match read_script(alloc, input, out, limit) {
        Ok(script) => play_on(alloc, disk, &script, out),
        Err(end) => Ended {
            end: end.status(),
            left: disk,
        },
    }
}

/// Plays a schedule that was read over an empty store of a disk that tells its bytes.
fn play_on<K: Sink, D: Disk + Drop>(
    alloc: Global,
    disk: D,
    script: &Script,
    out: &mut K,
) -> Ended<u8, D>
    requires ready { IsReady script.now }
    requires tells { (bytes : List ℕ) × (D.told disk ≡ Some bytes) }
    ensures plays { PlaysOn script.now.head (play script.now.head script.now.lines) result.end (K.held out.old) (K.held out.new)
        (K.faults out.old) (K.faults out.new) (D.faults disk) (D.faults result.left) (D.told result.left) }
    ensures follows { D.follows disk result.left }
{
    match emptied(alloc, disk) {
        Ok(store) => {
            let finished = replay(alloc, store, script, out);
            Ended {
                end: finished.end.status(),
                left: finished.left.into_disk(),
            }
        }
        Err(ended) => Ended {
            end: ended.end.status(),
            left: ended.left,
        },
    }
}
