//! Printing a loop.

ghost use Rattle.std.specs.List.{AllByRecursion};
ghost use Rattle.std.specs.Prelude.{◌≡◌, ◌≤◌, reverse};
ghost use Rattle.nq_loop.specs.Holding.{IsLooped};
ghost use Rattle.nq_loop.specs.Printed.{PrintsRan};
ghost use Rattle.nq_loop.specs.Whole.{loop_head};
ghost use Rattle.nq_replay.specs.Ending.{CountsSink};
ghost use Rattle.nq_replay.specs.Playing.{beginning};
ghost use Rattle.nq_world.specs.Playing.{Plays};

use crate::counts::{answers, calls, count_text};
use nq_base::ending::Ending;
use nq_io::Sink;
use nq_keeper::Keeper;
use nq_replay::{print_parts, schedule_text};
use nq_script::{Head, Schedule};
use nq_world::World;
use std::alloc::Global;

/// Prints the schedule of a loop, its journal and its counts.
pub(crate) fn print_loop<P: Keeper, K: Sink>(
    alloc: Global,
    head: &Head,
    world: &World<P>,
    ran: &Schedule,
    out: &mut K,
) -> Ending
    requires some { 1 ≤ head.now.hosts }
    requires few { head.now.hosts ≤ 64 }
    requires head { head.now ≡ loop_head head.now.hosts }
    requires looped { AllByRecursion (IsLooped head.now.hosts) ran.now }
    ensures prints { Plays (beginning head.now) (reverse ran.now) world.now (P.content world.now.server.keeper)
        → PrintsRan result head.now ran.now (K.held out.old) (K.held out.new) (K.faults out.old) (K.faults out.new) }
    ensures sink { CountsSink result (K.faults out.old) (K.faults out.new) }
{
    let Ok(text) = schedule_text(alloc, head, ran) else {
        return Ending::Memory;
    };
    let entries = world.journal().entries();
    let Ok(line) = count_text(alloc, calls(entries), answers(entries)) else {
        return Ending::Memory;
    };
    print_parts(alloc, 1, &text, world.journal(), line.as_bytes(), out)
}
