//! A run that was printed, once more: by the command `replay`, and event by event over a world.

ghost use Rattle.std.specs.Prelude.{◌≡◌, length, IsTrue, Some};
ghost use Rattle.nq_keeper.specs.StoredKeeper.{empty_kept};
ghost use Rattle.nq_replay.specs.Schedules.{IsReady};
ghost use Rattle.nq_world.specs.Playing.{CanCome};

use crate::parts::words_of;
use crate::scenes::play;
use nq_base::{Event, Journal};
use nq_io::{MemSink, MemSource};
use nq_journal::{is_in, print};
use nq_keeper::{Keeper, ListKeeper};
use nq_script::{Head, Line, Script, parse};
use nq_world::{NewFault, Stepped, World, begin};
use std::alloc::Global;

/// How a schedule and a journal end.
const END: &str = "\nend\n";

/// The most bytes of a schedule or a journal.
const MOST_BYTES: usize = 4_194_304;

/// Prints whether a schedule, behind which its journal and counts stand, gives that journal again, and then the counts, but for packets
/// and losses.
pub(crate) fn tell_again(rt: &HostRuntime, text: &str) -> Option<()> {
    let (schedule, behind) = text.split_once(END)?;
    let (journal, counts) = behind.split_once(END)?;
    let schedule = ended(rt.alloc(), schedule)?;
    let journal = ended(rt.alloc(), journal)?;
    tell_runs(rt, schedule, &journal)?;
    tell_counts(rt, counts)
}

/// Prints whether a schedule gives this journal, by the command and event by event.
fn tell_runs(rt: &HostRuntime, schedule: Vec<u8>, journal: &[u8]) -> Option<()> {
    let stepped = stepped(rt.alloc(), &schedule)?;
    let replayed = replayed(rt.alloc(), schedule)?;
    tell_same(rt, "replayed", replayed.bytes() == journal)?;
    tell_same(rt, "stepped", stepped.bytes() == journal)
}

/// Prints whether what was done gave the same.
fn tell_same(rt: &HostRuntime, deed: &str, is_same: bool) -> Option<()> {
    let what = if is_same { "the same" } else { "another" };
    println!(rt; "{deed} {what}").ok()
}

/// Prints counts, but for packets and losses.
fn tell_counts(rt: &HostRuntime, counts: &str) -> Option<()> {
    let (first, _rest) = counts
        .split_once(" packets ")
        .unwrap_or((counts.trim(), ""));
    println!(rt; "{first}").ok()
}

/// A text with its end.
fn ended(alloc: Global, text: &str) -> Option<Vec<u8>> {
    let mut whole = text.as_bytes().to_vec(alloc).ok()?;
    whole.extend_from_slice(END.as_bytes()).ok()?;
    Some(whole)
}

/// What the command `replay` prints of a schedule.
fn replayed(alloc: Global, schedule: Vec<u8>) -> Option<MemSink> {
    let words = words_of(alloc, "replay");
    let mut source = MemSource::new(schedule, Vec::new(alloc));
    let mut out = MemSink::new(alloc, MOST_BYTES, Vec::new(alloc)).ok()?;
    let left = Vec::new(alloc);
    let _played = play(alloc, "plain", &words, &mut source, &mut out, left).ok()?;
    Some(out)
}

/// The journal of a world that takes in a schedule event by event; None where the schedule has a line of many events, or is refused.
fn stepped(alloc: Global, schedule: &[u8]) -> Option<MemSink> {
    if schedule.len() > MOST_BYTES {
        return None;
    }
    match parse(alloc, schedule) {
        Ok(script) => match ListKeeper::new(alloc, Vec::new(alloc)) {
            Ok(keeper) => stepped_over(alloc, &script, keeper),
            Err(_) => None,
        },
        Err(_) => None,
    }
}

/// The same over a keeper that keeps nothing yet.
fn stepped_over<K: Keeper + Drop>(alloc: Global, script: &Script, keeper: K) -> Option<MemSink>
    requires ready { IsReady script.now }
    requires empty { K.content keeper ≡ Some empty_kept }
{
    let mut world = match begin(alloc, &script.head, keeper) {
        Ok(world) => world,
        Err(NewFault::Memory(_keeper)) => return None,
        Err(NewFault::Failed(_keeper)) => return None,
    };
    let stepped = step_all(&mut world, script);
    let printed = printed(alloc, world.journal());
    let _keeper = world.into_keeper();
    stepped?;
    printed
}

/// Takes in the events of a schedule one by one.
fn step_all<K: Keeper>(world: &mut World<K>, script: &Script) -> Option<()>
    requires hosts { script.now.head.hosts ≡ length world.old.clients }
    requires longest { script.now.head.longest ≡ world.old.skew.window }
{
    for place in 0..script.lines.len() {
        match script.lines.get(place)? {
            Line::Events { event, times: 1 } => {
                if !can_come(&script.head, &event) {
                    return None;
                }
                match world.step(&event) {
                    Stepped::Done => {}
                    _ => return None,
                }
            }
            Line::End => {}
            _ => return None,
        }
    }
    Some(())
}

/// Whether an event can come in the run of a schedule with this head.
fn can_come(head: &Head, event: &Event) -> bool
    ensures { IsTrue result → CanCome head.now.hosts head.now.longest event.now }
{
    match event {
        Event::Call { host, .. } => host.0 < head.hosts,
        Event::ClientTick(host) => host.0 < head.hosts,
        Event::Restart(host) => host.0 < head.hosts,
        Event::Crash { longest } => 5 <= *longest && *longest <= head.longest,
        Event::Deliver(_) => true,
        Event::ServerTick => true,
    }
}

/// A journal of version 1 as it is printed.
fn printed(alloc: Global, journal: &Journal) -> Option<MemSink> {
    let mut out = MemSink::new(alloc, MOST_BYTES, Vec::new(alloc)).ok()?;
    if is_in(journal, 1) {
        print(alloc, journal, 1, &mut out);
    }
    Some(out)
}
