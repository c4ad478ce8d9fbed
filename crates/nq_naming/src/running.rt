//! Running a schedule with lists: a schedule of version 2 that may have lines `list H PREFIX` and `find H NAME`. The schedule of the inner
//! world that was run is printed, in version 2, its journal, and for each `find` the line `find H NAME at E F`, where E is the number of
//! inner events before it, and F the id of the file, 0 where no file has the name, or `none` where the host does not know.

ghost use Rattle.std.specs.Prelude.{◌≡◌, [], Some, IfOk};
ghost use Rattle.nq_replay.specs.Text.{IsReadyMixed, mixed};
ghost use Rattle.nq_names.specs.Playing.{PlaysOutside};
ghost use Rattle.nq_base.specs.declared.ending.ending.Ending.{Ending};
ghost use Rattle.nq_keeper.specs.StoredKeeper.{empty_kept};
ghost use Rattle.nq_replay.specs.Playing.{beginning};
ghost use Rattle.nq_replay.specs.declared.play.played.Played.{Played};
ghost use Rattle.nq_replay.specs.Ending.{CountsSink};
ghost use Rattle.nq_replay.specs.Schedules.{HasReason};
ghost use Rattle.nq_script.specs.Heads.{FitsHead};
ghost use Rattle.nq_script.specs.declared.heads.Head.{Head};
ghost use Rattle.nq_replay.specs.AsidesGoing.{Comes};
ghost use Rattle.nq_naming.specs.Going.{IsAtMoment};
ghost use Rattle.nq_replay.specs.AsidesPlaying.{Ended};
ghost use Rattle.nq_naming.specs.Playing.{Moment, play};
ghost use Rattle.nq_naming.specs.Running.{EndsNamesPlayed, IsPrinted, IsTold};
ghost use Rattle.nq_naming.specs.Text.{IsOfHost};
ghost use Rattle.nq_world.specs.Beginning.{NeverFails};
ghost use Rattle.nq_world.specs.Playing.{HasSettings};

use crate::playing::FindingWorld;
use crate::script::Aside;
use nq_base::NoMemory;
use nq_base::ending::Ending;
use nq_io::Sink;
use nq_keeper::{Keeper, ListKeeper};
use nq_names::NameWorld;
use nq_played::PlayedAside;
use nq_replay::asides::MixedScript;
use nq_replay::play::{Played, play};
use nq_replay::{print_parts, schedule_text, tell_stop};
use nq_script::Head;
use nq_world::{MOST_EVENTS, NewFault, begin_surely};
use std::alloc::Global;

impl PlayedAside for Aside {
    ghost Reached = { Moment };

    ghost due = { play };

    ghost prints = { IsPrinted };

    fn run<K: Sink>(alloc: Global, script: &MixedScript<Aside>, out: &mut K) -> Ending {
        match ListKeeper::new(alloc, Vec::new(alloc)) {
            Ok(keeper) => run_over(alloc, script, keeper, out),
            Err(_) => Ending::Memory,
        }
    }
}

/// Runs a schedule with lists over a keeper that keeps nothing yet and never fails, and prints what it made or the line at which it
/// stopped.
fn run_over<L: Keeper + Drop, K: Sink>(
    alloc: Global,
    script: &MixedScript<Aside>,
    keeper: L,
    out: &mut K,
) -> Ending
    requires ready { IsReadyMixed IsOfHost script.now.script script.now.asides.items }
    requires empty { L.content keeper ≡ Some empty_kept }
    requires never { NeverFails L.faults L.follows keeper }
    ensures ends { EndsNamesPlayed result script.now.script.head (play script.now.script.head (mixed script.now.asides.items script.now.script.lines))
        (K.held out.old) (K.held out.new) (K.faults out.old) (K.faults out.new) }
    ensures sink { CountsSink result (K.faults out.old) (K.faults out.new) }
{
    let Ok(names) = begin_names(alloc, &script.script.head, keeper) else {
        return Ending::Memory;
    };
    let found = Vec::new(alloc);
    let mut world = FindingWorld { names, found };
    let played = play_over(alloc, &mut world, script);
    let FindingWorld { names, found } = world;
    let ending = tell(alloc, &script.script.head, &names, &found, played, out);
    let _keeper = names.into_keeper();
    ending
}

/// Plays a schedule with lists over a world in which nothing was played before, whose keeper never fails. A flow may have one delivery
/// more than there may be events.
fn play_over<L: Keeper>(
    alloc: Global,
    world: &mut FindingWorld<L>,
    script: &MixedScript<Aside>,
) -> Played
    requires ready { IsReadyMixed IsOfHost script.now.script script.now.asides.items }
    requires settings { HasSettings script.now.script.head.hosts script.now.script.head.longest script.now.script.head.term world.old.names.inner }
    requires never { NeverFails L.faults L.follows world.old.names.inner.server.keeper }
    requires none { world.old.found.items ≡ [] }
    ensures comes { PlaysOutside (beginning script.now.script.head) [] world.old.names (L.content world.old.names.inner.server.keeper)
        → Comes result (play script.now.script.head (mixed script.now.asides.items script.now.script.lines))
        (λ m. IsAtMoment (beginning script.now.script.head) m world.new.names (L.content world.new.names.inner.server.keeper) world.new.found.items) }
    ensures reason { HasReason result }
{
    play(
        alloc,
        world,
        MOST_EVENTS + 1,
        &script.script,
        &script.asides,
    )
}

/// The world with leased directories before the first event of a schedule with this head, over a keeper that keeps nothing yet and never fails.
///
/// # Errors
///
/// Only want of memory.
fn begin_names<L: Keeper + Drop>(
    alloc: Global,
    head: &Head,
    keeper: L,
) -> Result<NameWorld<L>, NoMemory>
    requires fits { FitsHead head.now }
    requires empty { L.content keeper ≡ Some empty_kept }
    requires never { NeverFails L.faults L.follows keeper }
    ensures plays { IfOk result (λ w. PlaysOutside (beginning head.now) [] w (L.content w.inner.server.keeper)) }
    ensures settings { IfOk result (λ w. HasSettings head.now.hosts head.now.longest head.now.term w.inner) }
    ensures never { IfOk result (λ w. NeverFails L.faults L.follows w.inner.server.keeper) }
{
    let world = begin_surely(alloc, head, keeper)?;
    match NameWorld::new(alloc, world, head.hosts) {
        Ok(world) => Ok(world),
        Err(NewFault::Memory(_keeper)) => Err(NoMemory::Memory),
        Err(NewFault::Failed(_keeper)) => unreachable!(),
    }
}

/// Prints the schedule of the inner world, its journal, and what was found, if all was played, or tells where it stopped.
fn tell<L: Keeper, K: Sink>(
    alloc: Global,
    head: &Head,
    world: &NameWorld<L>,
    found: &[u8],
    played: Played,
    out: &mut K,
) -> Ending
    requires fits { FitsHead head.now }
    requires reason { HasReason played }
    requires told { played ≡ Played.All → IsTold head.now world.now (L.content world.now.inner.server.keeper) }
    ensures ends { (due : Ended Moment)
        → Comes played due (λ m. IsAtMoment (beginning head.now) m world.now (L.content world.now.inner.server.keeper) found.now)
        → EndsNamesPlayed result head.now due (K.held out.old) (K.held out.new) (K.faults out.old) (K.faults out.new) }
    ensures sink { CountsSink result (K.faults out.old) (K.faults out.new) }
{
    match played {
        Played::All => {
            let Ok(text) = schedule_text(alloc, head, world.ran()) else {
                return Ending::Memory;
            };
            print_parts(alloc, 2, &text, world.journal(), found, out)
        }
        Played::Stopped { line, answer } => tell_stop(alloc, line, answer, out),
    }
}
