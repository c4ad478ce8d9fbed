//! The command `storm`.

ghost use Rattle.std.specs.Prelude.{◌≡◌, ℕ, List, Some, map};
ghost use Rattle.nq_base.specs.Status.{status_of};
ghost use Rattle.nq_base.specs.declared.ending.ending.Ending.{Ending};
ghost use Rattle.nq_run.specs.Fates.{fate_told};
ghost use Rattle.nq_run.specs.Running.{StormsOn};
ghost use Rattle.nq_storm.specs.Kinds.{TellOthers};

use crate::fates::place_of;
use crate::usage::usage;
use nq_base::ending::Ended;
use nq_disk::Disk;
use nq_io::Sink;
use nq_service::blank::emptied;
use nq_storm::fates::Fate;
use nq_storm::{StormPlan, run_storm};
use std::alloc::Global;

/// Runs a storm of the first fate of a kind over an empty store of a disk that tells its bytes. Where there is none, the disk is not touched.
pub(crate) fn stormed<K: Sink, D: Disk + Drop>(
    alloc: Global,
    disk: D,
    fates: &mut [Box<dyn Fate>],
    kind: u8,
    plan: StormPlan,
    out: &mut K,
) -> Ended<u8, D>
    requires { (bytes : List ℕ) × (D.told disk ≡ Some bytes) }
    ensures storms { StormsOn result.end kind plan.start plan.events (map (λ fate. (Fate-box fate).told fate.value) fates.old)
        (map (λ fate. fate_told ((Fate-box fate).told fate.value) (asks fate)) fates.old)
        (map (λ fate. fate_told ((Fate-box fate).told fate.value) (asks fate)) fates.new)
        (K.held out.old) (K.held out.new) (K.faults out.old) (K.faults out.new) (D.faults disk) (D.faults result.left) (D.told result.left) }
    ensures never { TellOthers kind (map (λ fate. (Fate-box fate).told fate.value) fates.old) → (result.end ≡ status_of Ending.Usage) × (result.left ≡ disk) }
    ensures alone { result.end ≡ status_of Ending.Usage → result.left ≡ disk }
    ensures follows { D.follows disk result.left }
{
    let StormPlan { start, events } = plan;
    match place_of(fates, kind) {
        Some(place) => match emptied(alloc, disk) {
            Ok(store) => {
                let finished = run_storm(
                    alloc,
                    store,
                    &mut *fates[place],
                    StormPlan { start, events },
                    out,
                );
                Ended {
                    end: finished.end.status(),
                    left: finished.left.into_disk(),
                }
            }
            Err(ended) => Ended {
                end: ended.end.status(),
                left: ended.left,
            },
        },
        None => Ended {
            end: usage(out),
            left: disk,
        },
    }
}
