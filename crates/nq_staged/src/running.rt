//! Running a staged schedule: a schedule of version 2 that may have lines `stage H`. The schedule of the inner world that was run is printed,
//! in version 2, its journal, and the line `staged S commits C unstaged U`.

ghost use Rattle.std.specs.Prelude.{◌≡◌, ◌⊎◌, List, [], Some, IfOk};
ghost use Rattle.nq_replay.specs.Text.{IsReadyMixed, mixed};
ghost use Rattle.nq_staged.specs.Worlds.{PlaysOutside};
ghost use Rattle.nq_base.specs.declared.ending.ending.Ending.{Ending};
ghost use Rattle.nq_keeper.specs.StoredKeeper.{empty_kept};
ghost use Rattle.nq_replay.specs.Playing.{beginning};
ghost use Rattle.nq_replay.specs.declared.play.played.Played.{Played};
ghost use Rattle.nq_replay.specs.Ending.{CountsSink};
ghost use Rattle.nq_world.specs.Beginning.{NeverFails};
ghost use Rattle.nq_replay.specs.Schedules.{HasReason};
ghost use Rattle.nq_script.specs.Heads.{FitsHead};
ghost use Rattle.nq_script.specs.declared.heads.Head.{Head};
ghost use Rattle.nq_replay.specs.AsidesGoing.{Comes};
ghost use Rattle.nq_replay.specs.AsidesPlaying.{Ended};
ghost use Rattle.nq_staged.specs.Playing.{play};
ghost use Rattle.nq_staged.specs.Running.{EndsStagedPlayed, IsPrinted, IsTold, PrintsRun};
ghost use Rattle.nq_staged.specs.Text.{IsOfHost};
ghost use Rattle.nq_stage.specs.declared.run.event.StagedEvent.{StagedEvent};
ghost use Rattle.nq_world.specs.Playing.{HasSettings};

use crate::commit::StagedWorld;
use crate::offer::Offer;
use crate::printing::count_text;
use nq_base::NoMemory;
use nq_base::ending::Ending;
use nq_io::Sink;
use nq_keeper::{Keeper, ListKeeper};
use nq_played::PlayedAside;
use nq_replay::asides::MixedScript;
use nq_replay::play::{Played, play};
use nq_replay::{print_parts, schedule_text, tell_stop};
use nq_script::Head;
use nq_world::{MOST_EVENTS, NewFault, begin_surely};
use std::alloc::Global;

impl PlayedAside for Offer {
    ghost Reached = { List StagedEvent };

    ghost due = { play };

    ghost prints = { IsPrinted };

    fn run<K: Sink>(alloc: Global, script: &MixedScript<Offer>, out: &mut K) -> Ending {
        match ListKeeper::new(alloc, Vec::new(alloc)) {
            Ok(keeper) => run_over(alloc, script, keeper, out),
            Err(_) => Ending::Memory,
        }
    }
}

/// Runs a staged schedule over a keeper that keeps nothing yet and never fails, and prints what it made or the line at which it
/// stopped.
fn run_over<L: Keeper + Drop, K: Sink>(
    alloc: Global,
    script: &MixedScript<Offer>,
    keeper: L,
    out: &mut K,
) -> Ending
    requires ready { IsReadyMixed IsOfHost script.now.script script.now.asides.items }
    requires empty { L.content keeper ≡ Some empty_kept }
    requires never { NeverFails L.faults L.follows keeper }
    ensures ends { EndsStagedPlayed result script.now.script.head (play script.now.script.head (mixed script.now.asides.items script.now.script.lines))
        (K.held out.old) (K.held out.new) (K.faults out.old) (K.faults out.new) }
    ensures sink { CountsSink result (K.faults out.old) (K.faults out.new) }
{
    let Ok(mut world) = begin_staged(alloc, &script.script.head, keeper) else {
        return Ending::Memory;
    };
    let played = play_over(alloc, &mut world, script);
    let ending = tell(alloc, &script.script.head, &world, played, out);
    let _keeper = world.into_keeper();
    ending
}

/// The staged world before the first event of a schedule with this head, over a keeper that keeps nothing yet and never fails.
///
/// # Errors
///
/// Only want of memory.
fn begin_staged<L: Keeper + Drop>(
    alloc: Global,
    head: &Head,
    keeper: L,
) -> Result<StagedWorld<L>, NoMemory>
    requires fits { FitsHead head.now }
    requires empty { L.content keeper ≡ Some empty_kept }
    requires never { NeverFails L.faults L.follows keeper }
    ensures plays { IfOk result (λ w. PlaysOutside (beginning head.now) [] w (L.content w.inner.server.keeper)) }
    ensures settings { IfOk result (λ w. HasSettings head.now.hosts head.now.longest head.now.term w.inner) }
    ensures never { IfOk result (λ w. NeverFails L.faults L.follows w.inner.server.keeper) }
{
    let world = begin_surely(alloc, head, keeper)?;
    match StagedWorld::new(alloc, world, head.hosts) {
        Ok(world) => Ok(world),
        Err(NewFault::Memory(_keeper)) => Err(NoMemory::Memory),
        Err(NewFault::Failed(_keeper)) => unreachable!(),
    }
}

/// Plays a staged schedule over a world in which nothing was played before. A flow may have one delivery more than there may be
/// events.
fn play_over<L: Keeper>(
    alloc: Global,
    world: &mut StagedWorld<L>,
    script: &MixedScript<Offer>,
) -> Played
    requires ready { IsReadyMixed IsOfHost script.now.script script.now.asides.items }
    requires settings { HasSettings script.now.script.head.hosts script.now.script.head.longest script.now.script.head.term world.old.inner }
    requires never { NeverFails L.faults L.follows world.old.inner.server.keeper }
    ensures comes { PlaysOutside (beginning script.now.script.head) [] world.old (L.content world.old.inner.server.keeper)
        → Comes result (play script.now.script.head (mixed script.now.asides.items script.now.script.lines))
        (λ events. PlaysOutside (beginning script.now.script.head) events world.new (L.content world.new.inner.server.keeper)) }
    ensures reason { HasReason result }
{
    play(
        alloc,
        world,
        MOST_EVENTS + 1,
        &script.script,
        &script.asides,
    )
}

/// Prints what a world made whose staged schedule was played to its end, or tells where it stopped.
fn tell<L: Keeper, K: Sink>(
    alloc: Global,
    head: &Head,
    world: &StagedWorld<L>,
    played: Played,
    out: &mut K,
) -> Ending
    requires fits { FitsHead head.now }
    requires version { head.now.version ≡ 2 }
    requires reason { HasReason played }
    requires told { played ≡ Played.All → IsTold head.now world.now (L.content world.now.inner.server.keeper) }
    ensures ends { (due : Ended (List StagedEvent))
        → Comes played due (λ events. PlaysOutside (beginning head.now) events world.now (L.content world.now.inner.server.keeper))
        → EndsStagedPlayed result head.now due (K.held out.old) (K.held out.new) (K.faults out.old) (K.faults out.new) }
    ensures sink { CountsSink result (K.faults out.old) (K.faults out.new) }
{
    match played {
        Played::All => print_run(alloc, head, world, out),
        Played::Stopped { line, answer } => tell_stop(alloc, line, answer, out),
    }
}

/// Prints the schedule of the inner world, its journal, and what was counted.
fn print_run<L: Keeper, K: Sink>(
    alloc: Global,
    head: &Head,
    world: &StagedWorld<L>,
    out: &mut K,
) -> Ending
    requires fits { FitsHead head.now }
    requires version { head.now.version ≡ 2 }
    requires told { IsTold head.now world.now (L.content world.now.inner.server.keeper) }
    ensures prints { (events : List StagedEvent) → PlaysOutside (beginning head.now) events world.now (L.content world.now.inner.server.keeper)
        → PrintsRun result head.now events (K.held out.old) (K.held out.new) (K.faults out.old) (K.faults out.new)
        ⊎ ((result ≡ Ending.Memory) × (K.held out.new ≡ K.held out.old)) }
    ensures sink { CountsSink result (K.faults out.old) (K.faults out.new) }
{
    let Ok(text) = schedule_text(alloc, head, world.ran()) else {
        return Ending::Memory;
    };
    let Ok(line) = count_text(alloc, world.counts()) else {
        return Ending::Memory;
    };
    print_parts(alloc, 2, &text, world.journal(), line.as_bytes(), out)
}
