//! Running a storm.

ghost use Rattle.std.specs.List.{AllByRecursion};
ghost use Rattle.std.specs.Prelude.{◌≡◌, [], ℕ, Option, Some, reverse};
ghost use Rattle.nq_base.specs.declared.ending.ending.Ending.{Ending};
ghost use Rattle.nq_keeper.specs.StoredKeeper.{empty_kept};
ghost use Rattle.nq_replay.specs.Playing.{beginning};
ghost use Rattle.nq_replay.specs.Ending.{CountsKeeper, CountsSink};
ghost use Rattle.nq_storm.specs.Asking.{AsksFor, AsksWanted};
ghost use Rattle.nq_storm.specs.Ending.{CountsFaults, Storms};
ghost use Rattle.nq_storm.specs.Heads.{storm_head};
ghost use Rattle.nq_storm.specs.Printed.{KeepsStorm, StormEnds};
ghost use Rattle.nq_storm.specs.Rules.{Rule};
ghost use Rattle.nq_storm.specs.Stormy.{IsStormy};
ghost use Rattle.nq_world.specs.Playing.{HasSettings, Plays};

use crate::fates::Fate;
use crate::printing::print_storm;
use crate::schedules::storm_head;
use crate::stormed::Stormed;
use crate::storms::storm;
use nq_base::ending::{Ended, Ending};
use nq_io::Sink;
use nq_keeper::Keeper;
use nq_replay::tell_limit;
use nq_script::{Head, Schedule};
use nq_world::{NewFault, World, begin};
use std::alloc::Global;

/// Which storm is run.
#[derive(Clone, Copy)]
pub struct StormPlan {
    /// Where its random words begin.
    pub start: u64,
    /// How many events it has.
    pub events: u32,
}

/// Runs a storm of so many events, which a fate chooses, asked once for each, over four hosts, two files, and a keeper that keeps
/// nothing yet. It prints the text of its schedule, the text of that schedule's journal, and a line that counts events, packets and
/// losses; the keeper keeps at the end what the run of that schedule keeps. How it ends:
///
/// - `Done`: all of that was printed. The schedule is within skew and keeps to the bounds.
/// - `WriteFault`: the sink failed, which it has counted; a front of that is printed.
/// - `KeepFault`: the keeper failed, which it has counted; prints nothing.
/// - `Memory`: memory was wanting; a front of that may be printed.
/// - `Limit`: more than 999,936 packets came before an event, or 100,000 events; prints `limit line 0 packets` or `events`.
#[tactic(auto, using(crate::proofs::Asking::asks_none))]
pub fn run_storm<P: Keeper, K: Sink>(
    alloc: Global,
    keeper: P,
    fate: &mut dyn Fate,
    plan: StormPlan,
    out: &mut K,
) -> Ended<Ending, P>
    requires { P.content keeper ≡ Some empty_kept }
    ensures ends { StormEnds result.end plan.start plan.events (told fate.old) (K.held out.old) (K.held out.new) (K.faults out.old) (K.faults out.new) }
    ensures keeps { result.end ≡ Ending.Done → KeepsStorm plan.start plan.events (told fate.old) (K.held out.old) (K.held out.new) (P.content result.left) }
    ensures asks { AsksFor result.end plan.events (asks fate.old) (asks fate.new) }
    ensures counts { CountsKeeper result.end (P.faults keeper) (P.faults result.left) }
    ensures sink { CountsSink result.end (K.faults out.old) (K.faults out.new) }
    ensures follows { P.follows keeper result.left }
{
    let Ok(head) = storm_head(alloc) else {
        return Ended {
            end: Ending::Memory,
            left: keeper,
        };
    };
    match begin(alloc, &head, keeper) {
        Ok(world) => storm_over(alloc, &head, world, fate, plan, out),
        Err(NewFault::Failed(keeper)) => Ended {
            end: Ending::KeepFault,
            left: keeper,
        },
        Err(NewFault::Memory(keeper)) => Ended {
            end: Ending::Memory,
            left: keeper,
        },
    }
}

/// Runs a storm over a world in which nothing was played before, and prints what it is.
#[tactic(auto, using(crate::proofs::Asking::asks_none))]
fn storm_over<P: Keeper, K: Sink>(
    alloc: Global,
    head: &Head,
    world: World<P>,
    fate: &mut dyn Fate,
    plan: StormPlan,
    out: &mut K,
) -> Ended<Ending, P>
    requires head { head.now ≡ storm_head }
    requires settings { HasSettings 4 60 30 world }
    requires plays { Plays (beginning storm_head) [] world (P.content world.server.keeper) }
    ensures ends { StormEnds result.end plan.start plan.events (told fate.old) (K.held out.old) (K.held out.new) (K.faults out.old) (K.faults out.new) }
    ensures keeps { result.end ≡ Ending.Done → KeepsStorm plan.start plan.events (told fate.old) (K.held out.old) (K.held out.new) (P.content result.left) }
    ensures asks { AsksFor result.end plan.events (asks fate.old) (asks fate.new) }
    ensures counts { CountsKeeper result.end (P.faults world.server.keeper) (P.faults result.left) }
    ensures sink { CountsSink result.end (K.faults out.old) (K.faults out.new) }
    ensures follows { P.follows world.server.keeper result.left }
{
    let mut world = world;
    let Ok(mut ran) = Schedule::new(alloc) else {
        return Ended {
            end: Ending::Memory,
            left: world.into_keeper(),
        };
    };
    let stormed = storm(alloc, &mut world, fate, plan.start, plan.events, &mut ran);
    let end = tell(alloc, head, &world, &ran, stormed, out);
    Ended {
        end,
        left: world.into_keeper(),
    }
}

/// Prints what a storm is, or at which limit it stopped; nothing where the keeper failed.
fn tell<L: Keeper, K: Sink>(
    alloc: Global,
    head: &Head,
    world: &World<L>,
    ran: &Schedule,
    stormed: Stormed,
    out: &mut K,
) -> Ending
    requires head { head.now ≡ storm_head }
    requires stormy { AllByRecursion IsStormy ran.now }
    ensures asks { (wanted before now : ℕ) → AsksWanted stormed wanted before now → AsksFor result wanted before now }
    ensures ends { (start count : ℕ) (first : Option Rule) → Storms stormed (beginning storm_head) start count first (reverse ran.now) world.now
        (L.content world.now.server.keeper)
        → StormEnds result start count first (K.held out.old) (K.held out.new) (K.faults out.old) (K.faults out.new) }
    ensures keeps { result ≡ Ending.Done → (start count : ℕ) (first : Option Rule) → Storms stormed (beginning storm_head) start count first
        (reverse ran.now) world.now (L.content world.now.server.keeper)
        → KeepsStorm start count first (K.held out.old) (K.held out.new) (L.content world.now.server.keeper) }
    ensures counts { (start count : ℕ) (first : Option Rule) → Storms stormed (beginning storm_head) start count first (reverse ran.now) world.now
        (L.content world.now.server.keeper)
        → (before now : ℕ) → CountsFaults stormed before now → CountsKeeper result before now }
    ensures sink { CountsSink result (K.faults out.old) (K.faults out.new) }
{
    match stormed {
        Stormed::Done => print_storm(alloc, head, world, ran, out),
        Stormed::Limit(limit) => tell_limit(alloc, 0, limit, out),
        Stormed::Fault => Ending::KeepFault,
        Stormed::Memory => Ending::Memory,
    }
}
