//! Running a schedule.

ghost use Rattle.std.specs.Prelude.{◌≡◌, ℕ, List, [], Some, All, map};
ghost use Rattle.nq_base.specs.Plain.{plain};
ghost use Rattle.nq_base.specs.declared.Entry.{Entry};
ghost use Rattle.nq_base.specs.declared.Event.{Event};
ghost use Rattle.nq_base.specs.declared.ending.ending.Ending.{Ending};
ghost use Rattle.nq_journal.specs.Text.{Has, IsVersion};
ghost use Rattle.nq_keeper.specs.StoredKeeper.{empty_kept};
ghost use Rattle.nq_replay.specs.AsidesGoing.{Comes};
ghost use Rattle.nq_replay.specs.AsidesPlaying.{Ended as EndedPlay};
ghost use Rattle.nq_replay.specs.Going.{said};
ghost use Rattle.nq_replay.specs.Playing.{beginning, play};
ghost use Rattle.nq_replay.specs.declared.play.played.Played.{Played};
ghost use Rattle.nq_replay.specs.Ending.{CountsKeeper, CountsSink};
ghost use Rattle.nq_replay.specs.Schedules.{EndsOver, IsReady, IsReason, KeepsPlayed, PrintsEntries, TellsStop, TellsWhy, bound_of};
ghost use Rattle.nq_replay.specs.declared.printing.Bound.{Bound};
ghost use Rattle.nq_script.specs.declared.heads.Head.{Head};
ghost use Rattle.nq_world.specs.Playing.{CountsFaults, HasSettings, Plays};
ghost use Rattle.nq_world.specs.declared.stepped.Stepped.{Stepped};

use crate::play::{Played, play};
use crate::printing::{Bound, limit_text, script_text, skew_text};
use nq_base::ending::{Ended, Ending};
use nq_base::{Journal, SkewBroken};
use nq_io::{Sink, put_line};
use nq_journal::{Printed, print};
use nq_keeper::Keeper;
use nq_script::Script;
use nq_world::{Limit, MOST_EVENTS, NewFault, Stepped, World, begin};
use std::alloc::Global;

/// Plays a schedule that was read over a keeper that keeps nothing yet, and prints the journal of its run in the version of the
/// schedule. The keeper keeps at the end what the run keeps. How it ends:
///
/// - `Done`: the journal of the run was printed, which is within skew and keeps to the bounds, since the run itself tests that.
/// - `Script`: a line delivers a packet that was not sent; prints `script line N`, with lines counted from 1.
/// - `Skew`: a tick of the server's clock breaks the rule on skew (Macklem 1994); prints `skew line N host H server S client C` with
///   the lowest such host, and how often both clocks ticked in the shortest part of the schedule that breaks the rule.
/// - `WriteFault`: the sink failed, which it has counted; a front of the journal is printed.
/// - `KeepFault`: the keeper failed, which it has counted; prints nothing.
/// - `Memory`: memory was wanting; a front of the journal may be printed.
/// - `Limit`: the schedule has more than 100,000 events, or an event comes after more than 999,936 packets; prints `limit line N
///   events` or `packets` with the line of the event.
pub fn replay<P: Keeper, K: Sink>(
    alloc: Global,
    keeper: P,
    script: &Script,
    out: &mut K,
) -> Ended<Ending, P>
    requires ready { IsReady script.now }
    requires empty { P.content keeper ≡ Some empty_kept }
    ensures ends { EndsOver result.end script.now.head (play script.now.head script.now.lines) (K.held out.old) (K.held out.new)
        (K.faults out.old) (K.faults out.new) }
    ensures keeps { result.end ≡ Ending.Done → KeepsPlayed script.now.head (play script.now.head script.now.lines) (P.content result.left) }
    ensures counts { CountsKeeper result.end (P.faults keeper) (P.faults result.left) }
    ensures sink { CountsSink result.end (K.faults out.old) (K.faults out.new) }
    ensures follows { P.follows keeper result.left }
{
    match begin(alloc, &script.head, keeper) {
        Ok(world) => replay_over(alloc, world, script, out),
        Err(NewFault::Failed(keeper)) => Ended {
            end: Ending::KeepFault,
            left: keeper,
        },
        Err(NewFault::Memory(keeper)) => Ended {
            end: Ending::Memory,
            left: keeper,
        },
    }
}

/// Plays a schedule over a world in which nothing was played before, and prints its journal or the line at which it stopped.
fn replay_over<P: Keeper, K: Sink>(
    alloc: Global,
    world: World<P>,
    script: &Script,
    out: &mut K,
) -> Ended<Ending, P>
    requires ready { IsReady script.now }
    requires settings { HasSettings script.now.head.hosts script.now.head.longest script.now.head.term world }
    requires plays { Plays (beginning script.now.head) [] world (P.content world.server.keeper) }
    ensures ends { EndsOver result.end script.now.head (play script.now.head script.now.lines) (K.held out.old) (K.held out.new)
        (K.faults out.old) (K.faults out.new) }
    ensures keeps { result.end ≡ Ending.Done → KeepsPlayed script.now.head (play script.now.head script.now.lines) (P.content result.left) }
    ensures counts { CountsKeeper result.end (P.faults world.server.keeper) (P.faults result.left) }
    ensures sink { CountsSink result.end (K.faults out.old) (K.faults out.new) }
    ensures follows { P.follows world.server.keeper result.left }
{
    let mut world = world;
    let played = play_over(alloc, &mut world, script);
    let end = tell(alloc, &world, script.head.version, played, out);
    Ended {
        end,
        left: world.into_keeper(),
    }
}

/// Plays a schedule over a world in which nothing was played before. A flow may have one delivery more than there may be events.
fn play_over<L: Keeper>(alloc: Global, world: &mut World<L>, script: &Script) -> Played
    requires ready { IsReady script.now }
    requires settings { HasSettings script.now.head.hosts script.now.head.longest script.now.head.term world.old }
    ensures comes { Plays (beginning script.now.head) [] world.old (L.content world.old.server.keeper)
        → Comes result (play script.now.head script.now.lines) (λ events. Plays (beginning script.now.head) events world.new
        (L.content world.new.server.keeper)) }
    ensures stops { said result ≡ Stepped.Done → result ≡ Played.All }
    ensures counts { CountsFaults (said result) (L.faults world.old.server.keeper) (L.faults world.new.server.keeper) }
    ensures follows { L.follows world.old.server.keeper world.new.server.keeper }
{
    let asides = Vec::new(alloc);
    play(alloc, world, MOST_EVENTS + 1, script, &asides)
}

/// Prints the journal of a world whose schedule was played to its end, or tells where it stopped.
fn tell<L: Keeper, K: Sink>(
    alloc: Global,
    world: &World<L>,
    version: u32,
    played: Played,
    out: &mut K,
) -> Ending
    requires version { IsVersion version }
    requires has { played ≡ Played.All → All (Has version) world.now.entries }
    requires stops { said played ≡ Stepped.Done → played ≡ Played.All }
    ensures ends { (head : Head) (due : EndedPlay (List Event)) → head.version ≡ version → Comes played due (λ events. Plays (beginning head) events world.now
        (L.content world.now.server.keeper))
        → EndsOver result head due (K.held out.old) (K.held out.new) (K.faults out.old) (K.faults out.new) }
    ensures keeps { result ≡ Ending.Done → (head : Head) (due : EndedPlay (List Event)) → Comes played due (λ events. Plays (beginning head) events world.now
        (L.content world.now.server.keeper))
        → KeepsPlayed head due (L.content world.now.server.keeper) }
    ensures counts { (before count : ℕ) → CountsFaults (said played) before count → CountsKeeper result before count }
    ensures sink { CountsSink result (K.faults out.old) (K.faults out.new) }
{
    match played {
        Played::All => print_entries(alloc, world.journal(), version, out),
        Played::Stopped { line, answer } => tell_why(alloc, line, answer, out),
    }
}

/// Tells at which line a schedule stopped, and why; nothing where the keeper failed.
fn tell_why<K: Sink>(alloc: Global, line: u32, answer: Stepped, out: &mut K) -> Ending
    requires { answer ≡ Stepped.Done → ⊥ }
    ensures tells { TellsWhy result line answer (K.held out.old) (K.held out.new) (K.faults out.old) (K.faults out.new) }
    ensures sink { CountsSink result (K.faults out.old) (K.faults out.new) }
{
    match answer {
        Stepped::Fault => Ending::KeepFault,
        Stepped::Done => unreachable!(),
        other => tell_stop(alloc, line, other, out),
    }
}

/// Prints a journal in a version that has all its entries.
fn print_entries<K: Sink>(alloc: Global, journal: &Journal, version: u32, out: &mut K) -> Ending
    requires version { IsVersion version }
    requires has { All (Has version) journal.now.entries }
    ensures prints { (entries : List Entry) → map plain journal.now.entries ≡ entries
        → PrintsEntries result version entries (K.held out.old) (K.held out.new) (K.faults out.old) (K.faults out.new) }
    ensures sink { CountsSink result (K.faults out.old) (K.faults out.new) }
{
    match print(alloc, journal, version, out) {
        Printed::All => Ending::Done,
        Printed::Failed => Ending::WriteFault,
        Printed::Memory => Ending::Memory,
    }
}

/// Tells at which line a schedule stopped, and why.
pub fn tell_stop<K: Sink>(alloc: Global, line: u32, answer: Stepped, out: &mut K) -> Ending
    requires { IsReason answer }
    ensures tells { TellsStop result line answer (K.held out.old) (K.held out.new) (K.faults out.old) (K.faults out.new) }
    ensures sink { CountsSink result (K.faults out.old) (K.faults out.new) }
{
    match answer {
        Stepped::NoPacket => tell_script(alloc, line, out),
        Stepped::SkewBroken(broken) => tell_skew(alloc, line, broken, out),
        Stepped::Limit(limit) => tell_limit(alloc, line, limit, out),
        Stepped::Memory => Ending::Memory,
        Stepped::Done | Stepped::Fault => unreachable!(),
    }
}

/// Tells a faulty line.
pub fn tell_script<K: Sink>(alloc: Global, line: u32, out: &mut K) -> Ending
    ensures tells { TellsStop result line Stepped.NoPacket (K.held out.old) (K.held out.new) (K.faults out.old) (K.faults out.new) }
    ensures sink { CountsSink result (K.faults out.old) (K.faults out.new) }
{
    match script_text(alloc, line as usize) {
        Ok(text) => {
            put_line(out, text.as_bytes());
            Ending::Script
        }
        Err(_) => Ending::Memory,
    }
}

/// Tells which tick breaks the rule on skew.
fn tell_skew<K: Sink>(alloc: Global, line: u32, broken: SkewBroken, out: &mut K) -> Ending
    ensures tells { TellsStop result line (Stepped.SkewBroken broken) (K.held out.old) (K.held out.new) (K.faults out.old) (K.faults out.new) }
    ensures sink { CountsSink result (K.faults out.old) (K.faults out.new) }
{
    match skew_text(alloc, line, broken) {
        Ok(text) => {
            put_line(out, text.as_bytes());
            Ending::Skew
        }
        Err(_) => Ending::Memory,
    }
}

/// Tells where there are too many events or packets.
pub fn tell_limit<K: Sink>(alloc: Global, line: u32, limit: Limit, out: &mut K) -> Ending
    ensures tells { TellsStop result line (Stepped.Limit limit) (K.held out.old) (K.held out.new) (K.faults out.old) (K.faults out.new) }
    ensures sink { CountsSink result (K.faults out.old) (K.faults out.new) }
{
    match limit_text(alloc, line as usize, bound_of(limit)) {
        Ok(text) => {
            put_line(out, text.as_bytes());
            Ending::Limit
        }
        Err(_) => Ending::Memory,
    }
}

/// What there is too much of where a world answers so.
fn bound_of(limit: Limit) -> Bound
    ensures { result ≡ bound_of limit }
{
    match limit {
        Limit::Events => Bound::Events,
        Limit::Packets => Bound::Packets,
    }
}
