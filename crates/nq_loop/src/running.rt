//! Running a loop.

ghost use Rattle.std.specs.List.{AllByRecursion};
ghost use Rattle.std.specs.Prelude.{◌≡◌, ◌≤◌, ◌+◌, [], ℕ, Err, Option, Some, length, map, reverse};
ghost use Rattle.nq_clock.specs.Clocks.{clock_told};
ghost use Rattle.nq_base.specs.declared.ending.ending.Ending.{Ending};
ghost use Rattle.nq_keeper.specs.StoredKeeper.{empty_kept};
ghost use Rattle.nq_loop.specs.Holding.{IsLooped};
ghost use Rattle.nq_loop.specs.Looped.{KeepsLoop, LoopEnds, TellsEnd, TellsStopped};
ghost use Rattle.nq_loop.specs.Sending.{told_of};
ghost use Rattle.nq_loop.specs.Whole.{loop_head};
ghost use Rattle.nq_replay.specs.Playing.{beginning};
ghost use Rattle.nq_replay.specs.Ending.{CountsKeeper, CountsSink};
ghost use Rattle.nq_world.specs.Playing.{HasSettings, Plays};

use crate::printing::print_loop;
use crate::schedules::loop_head;
use crate::state::{LoopState, LoopWorld};
use crate::taking::take_turns;
use crate::turns::Halt;
use nq_base::ending::{Ended, Ending};
use nq_clock::Clock;
use nq_io::Sink;
use nq_keeper::Keeper;
use nq_link::Link;
use nq_replay::tell_limit;
use nq_script::{Head, Schedule};
use nq_world::{NewFault, World, begin};
use std::alloc::Global;

/// How many hosts a loop has, and how many turns it takes at most.
#[derive(Clone, Copy)]
pub struct LoopPlan {
    /// The hosts.
    pub hosts: u32,
    /// The turns.
    pub turns: u32,
}

/// Runs a server and so many hosts, 1 to 64, over their links, of which the server's is the first, and over a keeper that keeps nothing yet,
/// for at most so many turns. Each host writes a block of a file, synchronizes, and reads the block of the next host. It prints the text of
/// the schedule that was made of clock readings and datagrams, the text of that schedule's journal, and a line that counts calls and
/// answers; the keeper keeps at the end what the run of that schedule keeps. How it ends:
///
/// - `Done`: all of that was printed, when all calls were answered or all turns were taken. The schedule is within skew and keeps to the
///   bounds.
/// - `WriteFault`: the sink failed, which it has counted; a front of that is printed.
/// - `KeepFault`: the keeper failed, which it has counted; prints nothing.
/// - `Memory`: memory was wanting; a front of that may be printed.
/// - `LinkFault`: a link failed, which it has counted; prints nothing.
/// - `Limit`: more than 999,936 packets came before an event, or 100,000 events; prints `limit line 0 packets` or `events`.
pub fn run_loop<P: Keeper, K: Sink, L: Link, C: Clock>(
    alloc: Global,
    keeper: P,
    plan: LoopPlan,
    links: &mut [L],
    clock: &mut C,
    out: &mut K,
) -> Ended<Ending, P>
    requires empty { P.content keeper ≡ Some empty_kept }
    requires some { 1 ≤ plan.hosts }
    requires few { plan.hosts ≤ 64 }
    requires links { length links.old ≡ plan.hosts + 1 }
    ensures ends { LoopEnds result.end plan.hosts plan.turns (clock_told C.floor C.readings C.reads clock.old) (clock_told C.floor C.readings C.reads clock.new)
        (map (told_of L.sent L.waiting L.faults L.receives) links.old) (map (told_of L.sent L.waiting L.faults L.receives) links.new)
        (K.held out.old) (K.held out.new) (K.faults out.old) (K.faults out.new) }
    ensures keeps { result.end ≡ Ending.Done
        → KeepsLoop plan.hosts plan.turns (clock_told C.floor C.readings C.reads clock.old) (clock_told C.floor C.readings C.reads clock.new)
        (map (told_of L.sent L.waiting L.faults L.receives) links.old) (map (told_of L.sent L.waiting L.faults L.receives) links.new)
        (K.held out.old) (K.held out.new) (P.content result.left) }
    ensures counts { CountsKeeper result.end (P.faults keeper) (P.faults result.left) }
    ensures sink { CountsSink result.end (K.faults out.old) (K.faults out.new) }
    ensures follows { P.follows keeper result.left }
{
    let Ok(head) = loop_head(alloc, plan.hosts) else {
        return Ended {
            end: Ending::Memory,
            left: keeper,
        };
    };
    match begin(alloc, &head, keeper) {
        Ok(world) => loop_over(alloc, &head, world, plan, links, clock, out),
        Err(NewFault::Failed(keeper)) => Ended {
            end: Ending::KeepFault,
            left: keeper,
        },
        Err(NewFault::Memory(keeper)) => Ended {
            end: Ending::Memory,
            left: keeper,
        },
    }
}

/// Runs a loop over a world in which nothing was played before, and prints what it is.
fn loop_over<P: Keeper, K: Sink, L: Link, C: Clock>(
    alloc: Global,
    head: &Head,
    world: World<P>,
    plan: LoopPlan,
    links: &mut [L],
    clock: &mut C,
    out: &mut K,
) -> Ended<Ending, P>
    requires head { head.now ≡ loop_head plan.hosts }
    requires some { 1 ≤ plan.hosts }
    requires few { plan.hosts ≤ 64 }
    requires links { length links.old ≡ plan.hosts + 1 }
    requires settings { HasSettings plan.hosts 60 30 world }
    requires plays { Plays (beginning (loop_head plan.hosts)) [] world (P.content world.server.keeper) }
    ensures ends { LoopEnds result.end plan.hosts plan.turns (clock_told C.floor C.readings C.reads clock.old) (clock_told C.floor C.readings C.reads clock.new)
        (map (told_of L.sent L.waiting L.faults L.receives) links.old) (map (told_of L.sent L.waiting L.faults L.receives) links.new)
        (K.held out.old) (K.held out.new) (K.faults out.old) (K.faults out.new) }
    ensures keeps { result.end ≡ Ending.Done
        → KeepsLoop plan.hosts plan.turns (clock_told C.floor C.readings C.reads clock.old) (clock_told C.floor C.readings C.reads clock.new)
        (map (told_of L.sent L.waiting L.faults L.receives) links.old) (map (told_of L.sent L.waiting L.faults L.receives) links.new)
        (K.held out.old) (K.held out.new) (P.content result.left) }
    ensures counts { CountsKeeper result.end (P.faults world.server.keeper) (P.faults result.left) }
    ensures sink { CountsSink result.end (K.faults out.old) (K.faults out.new) }
    ensures follows { P.follows world.server.keeper result.left }
{
    let Ok(ran) = Schedule::new(alloc) else {
        return Ended {
            end: Ending::Memory,
            left: world.into_keeper(),
        };
    };
    let Ok(state) = LoopState::new(alloc, plan.hosts) else {
        return Ended {
            end: Ending::Memory,
            left: world.into_keeper(),
        };
    };
    let mut looping = LoopWorld { world, state, ran };
    let last = take_turns(alloc, &mut looping, links, clock, plan.turns);
    let LoopWorld { world, state, ran } = looping;
    let end = tell(alloc, head, &world, &ran, last, out);
    Ended {
        end,
        left: world.into_keeper(),
    }
}

/// Prints a loop whose turns ended so, or at which limit it stopped; nothing where a link or the keeper failed.
fn tell<P: Keeper, K: Sink>(
    alloc: Global,
    head: &Head,
    world: &World<P>,
    ran: &Schedule,
    last: Result<(), Halt>,
    out: &mut K,
) -> Ending
    requires some { 1 ≤ head.now.hosts }
    requires few { head.now.hosts ≤ 64 }
    requires head { head.now ≡ loop_head head.now.hosts }
    requires looped { AllByRecursion (IsLooped head.now.hosts) ran.now }
    ensures tells { TellsEnd result last head.now world.now (P.content world.now.server.keeper) ran.now (K.held out.old) (K.held out.new) (K.faults out.old)
        (K.faults out.new) }
    ensures sink { CountsSink result (K.faults out.old) (K.faults out.new) }
{
    match last {
        Ok(()) => print_loop(alloc, head, world, ran, out),
        Err(why) => tell_stop(alloc, why, out),
    }
}

/// Prints at which limit turns stopped, or nothing where they did so for another reason.
fn tell_stop<K: Sink>(alloc: Global, why: Halt, out: &mut K) -> Ending
    ensures tells { TellsStopped result (Err why) (K.held out.old) (K.held out.new) (K.faults out.old) (K.faults out.new) }
    ensures sink { CountsSink result (K.faults out.old) (K.faults out.new) }
{
    match why {
        Halt::Limit(limit) => tell_limit(alloc, 0, limit, out),
        Halt::Link => Ending::LinkFault,
        Halt::Keep => Ending::KeepFault,
        Halt::Memory => Ending::Memory,
    }
}
