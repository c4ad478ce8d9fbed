//! Printing a storm.

ghost use Rattle.std.specs.List.{AllByRecursion};
ghost use Rattle.std.specs.Prelude.{◌≡◌, reverse};
ghost use Rattle.nq_replay.specs.Ending.{CountsSink};
ghost use Rattle.nq_replay.specs.Playing.{beginning};
ghost use Rattle.nq_storm.specs.Heads.{storm_head};
ghost use Rattle.nq_storm.specs.Printed.{PrintsRan};
ghost use Rattle.nq_storm.specs.Stormy.{IsStormy};
ghost use Rattle.nq_world.specs.Playing.{Plays};

use crate::counts::{count_text, losses};
use nq_base::ending::Ending;
use nq_io::Sink;
use nq_keeper::Keeper;
use nq_replay::{print_parts, schedule_text};
use nq_script::{Head, Schedule};
use nq_world::World;
use std::alloc::Global;

/// Prints the schedule of a storm, its journal and its counts.
pub(crate) fn print_storm<L: Keeper, K: Sink>(
    alloc: Global,
    head: &Head,
    world: &World<L>,
    ran: &Schedule,
    out: &mut K,
) -> Ending
    requires head { head.now ≡ storm_head }
    requires stormy { AllByRecursion IsStormy ran.now }
    ensures prints { Plays (beginning storm_head) (reverse ran.now) world.now (L.content world.now.server.keeper)
        → PrintsRan result ran.now (K.held out.old) (K.held out.new) (K.faults out.old) (K.faults out.new) }
    ensures sink { CountsSink result (K.faults out.old) (K.faults out.new) }
{
    let Ok(text) = schedule_text(alloc, head, ran) else {
        return Ending::Memory;
    };
    let lost = losses(world.journal().entries());
    let Ok(line) = count_text(alloc, ran.len(), world.packets().len(), lost) else {
        return Ending::Memory;
    };
    print_parts(alloc, 1, &text, world.journal(), line.as_bytes(), out)
}
