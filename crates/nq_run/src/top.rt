//! Running what the words say over a disk.

ghost use Rattle.std.specs.Prelude.{◌≡◌, ◌+◌, ℕ, List, None, Some, false, true, length, map};
ghost use Rattle.nq_command.specs.Commands.{IsCheck, IsFormat, IsNames, IsReplay, IsStaged, command_of};
ghost use Rattle.nq_command.specs.declared.commands.Command.{Command};
ghost use Rattle.nq_run.specs.Commands.{AreTheFour, Does, NeverSays, SaysNothing};
ghost use Rattle.nq_run.specs.Running.{LoopsOn, ReplaysOn, StormsOn};
ghost use Rattle.nq_base.specs.Status.{status_of};
ghost use Rattle.nq_base.specs.declared.ending.ending.Ending.{Ending};
ghost use Rattle.nq_loop.specs.Sending.{told_of};
ghost use Rattle.nq_clock.specs.Clocks.{clock_told};
ghost use Rattle.nq_link.specs.Links.{link_told};
ghost use Rattle.nq_replay.specs.Lines.{usage_line};
ghost use Rattle.nq_io.specs.Sink.{PrintsLine};
ghost use Rattle.nq_run.specs.Checking.{ChecksFor};
ghost use Rattle.nq_run.specs.Fates.{fate_told};
ghost use Rattle.nq_run.specs.Frames.{Unless, makes_a_run, reads_clock, reads_input, uses_disk, uses_fates, uses_link, uses_links};
ghost use Rattle.nq_run.specs.Hosting.{Attends};
ghost use Rattle.nq_run.specs.Naming.{NamesFor};
ghost use Rattle.nq_run.specs.Promised.{most_bytes};
ghost use Rattle.nq_run.specs.Staging.{StagesFor};
ghost use Rattle.nq_service.specs.Formatting.{Formats};
ghost use Rattle.nq_service.specs.Serving.{ServesDisk};

use crate::checking::checked;
use crate::hosting::{ClientPlan, attended};
use crate::looping::looped;
use crate::naming::named;
use crate::replaying::replayed;
use crate::staged::staged;
use crate::storming::stormed;
use crate::usage::usage;
use nq_base::ending::Ended;
use nq_clock::Clock;
use nq_command::{Command, CommandWords};
use nq_disk::Disk;
use nq_io::{Sink, Source};
use nq_link::Link;
use nq_loop::LoopPlan;
use nq_service::{format_disk, serve_disk};
use nq_storm::StormPlan;
use nq_storm::fates::Fate;
use std::alloc::Global;

// The most bytes of a schedule, a journal or a list of calls that are read.
const MOST_BYTES: usize = 16_777_216;

/// Runs what the words say over a disk, with input of at most 16,777,216 bytes.
///
/// `format` makes the disk an image in which nothing is kept.
/// `serve` opens it as an image and serves what it keeps, over the link and the clock: whatever a stop at any moment may leave opens, and
/// stands for what was kept at first, or after some of the steps. `replay`, `storm` by the first fate of the kind, and `loop` over the clock
/// and the links, of which the server's is the first, are for a disk that tells its bytes: they make it an empty image first, and run over
/// that, so that the disk stands at the end for what the run keeps. A schedule is read, and a fate of the kind is looked for, before the disk
/// is touched. `check`, `staged`, `names`, and `client` over the link and the clock, leave it as it was.
///
/// The headline of `nq_laws` holds at each moment of the run whose journal `replay`, `storm`, `loop`, `staged` or `names` printed, and that
/// journal is sound for `check`: leases, ticks, restarts and crashes included. That the schedule is within skew and keeps to the bounds is no
/// premise, since the run itself tests it. What the words have no use for stays as it was: the input, the disk, the link, the links of a
/// loop, the clock, the fates.
///
/// The answer is the exit status, with the disk. With the four fates it is 1 exactly where the words say no command. It is 6 only where the
/// disk failed, and for `serve` 10 exactly where the image is wrong. Where the input or the output failed, it says so, or tells a fault that came
/// before.
/// `docs/commands.md` says when each status comes, and what is printed then.
pub fn run<S: Source, K: Sink, D: Disk + Drop, L: Link, C: Clock>(
    alloc: Global,
    words: &CommandWords,
    input: &mut S,
    out: &mut K,
    disk: D,
    link: &mut L,
    links: &mut [L],
    clock: &mut C,
    fates: &mut [Box<dyn Fate>],
) -> Ended<u8, D>
    requires tells { makes_a_run (command_of words.now) ≡ true → (bytes : List ℕ) × (D.told disk ≡ Some bytes) }
    requires links { (hosts turns : ℕ) → command_of words.now ≡ Some (Command.Loop hosts turns) → length links.old ≡ hosts + 1 }
    ensures usage { result.end ≡ status_of Ending.Usage → SaysNothing (command_of words.now) (map (λ fate. (Fate-box fate).told fate.value) fates.old) }
    ensures never { NeverSays (command_of words.now) (map (λ fate. (Fate-box fate).told fate.value) fates.old) → result.end ≡ status_of Ending.Usage }
    ensures known { AreTheFour (map (λ fate. (Fate-box fate).told fate.value) fates.old) → result.end ≡ status_of Ending.Usage → command_of words.now ≡ None }
    ensures nothing { result.end ≡ status_of Ending.Usage
        → (S.left input.new ≡ S.left input.old) × PrintsLine usage_line (K.held out.old) (K.held out.new) (K.faults out.old) (K.faults out.new) }
    ensures formats { IsFormat words.now → Formats D.faults D.told D.may_leave result.end disk result.left }
    ensures quiet { IsFormat words.now → out.new ≡ out.old }
    ensures serves { (turns longest : ℕ) → command_of words.now ≡ Some (Command.Serve turns longest)
        → ServesDisk D.told D.faults D.may_leave D.follows D.leaves result.end longest turns disk result.left
        (clock_told C.floor C.readings C.reads clock.old) (clock_told C.floor C.readings C.reads clock.new)
        (link_told L.sent L.waiting L.faults L.receives link.old)
        (link_told L.sent L.waiting L.faults L.receives link.new)
        (K.held out.old) (K.held out.new) (K.faults out.old) (K.faults out.new) }
    ensures replays { IsReplay words.now
        → ReplaysOn most_bytes result.end (S.left input.old) (S.left input.new) (K.held out.old) (K.held out.new)
        (S.faults input.old) (S.faults input.new) (K.faults out.old) (K.faults out.new) (D.faults disk) (D.faults result.left)
        (D.told result.left) disk result.left }
    ensures storms { (kind start events : ℕ) → command_of words.now ≡ Some (Command.Storm kind start events)
        → StormsOn result.end kind start events (map (λ fate. (Fate-box fate).told fate.value) fates.old)
        (map (λ fate. fate_told ((Fate-box fate).told fate.value) (asks fate)) fates.old)
        (map (λ fate. fate_told ((Fate-box fate).told fate.value) (asks fate)) fates.new)
        (K.held out.old) (K.held out.new) (K.faults out.old) (K.faults out.new) (D.faults disk) (D.faults result.left) (D.told result.left) }
    ensures loops { (hosts turns : ℕ) → command_of words.now ≡ Some (Command.Loop hosts turns)
        → LoopsOn result.end hosts turns (clock_told C.floor C.readings C.reads clock.old) (clock_told C.floor C.readings C.reads clock.new)
        (map (told_of L.sent L.waiting L.faults L.receives) links.old) (map (told_of L.sent L.waiting L.faults L.receives) links.new)
        (K.held out.old) (K.held out.new) (K.faults out.old) (K.faults out.new) (D.faults disk) (D.faults result.left) (D.told result.left) }
    ensures checks { IsCheck words.now
        → ChecksFor most_bytes result.end (S.left input.old) (S.left input.new) (K.held out.old) (K.held out.new)
        (S.faults input.old) (S.faults input.new) (K.faults out.old) (K.faults out.new) }
    ensures stages { IsStaged words.now
        → StagesFor most_bytes result.end (S.left input.old) (S.left input.new) (K.held out.old) (K.held out.new)
        (S.faults input.old) (S.faults input.new) (K.faults out.old) (K.faults out.new) }
    ensures names { IsNames words.now
        → NamesFor most_bytes result.end (S.left input.old) (S.left input.new) (K.held out.old) (K.held out.new)
        (S.faults input.old) (S.faults input.new) (K.faults out.old) (K.faults out.new) }
    ensures attends { (host inc turns : ℕ) → command_of words.now ≡ Some (Command.Client host inc turns)
        → Attends turns (record { host = host; inc = inc }) most_bytes result.end (S.left input.old) (S.left input.new) (S.faults input.old)
        (S.faults input.new)
        (K.held out.old) (K.held out.new) (K.faults out.old) (K.faults out.new) (clock_told C.floor C.readings C.reads clock.old)
        (clock_told C.floor C.readings C.reads clock.new)
        (link_told L.sent L.waiting L.faults L.receives link.old)
        (link_told L.sent L.waiting L.faults L.receives link.new) }
    // Refuses a run that passes over a fault of its input or its output and ends with 0.
    ensures faultless { result.end ≡ status_of Ending.Done
        → (S.faults input.new ≡ S.faults input.old) × (K.faults out.new ≡ K.faults out.old) }
    ensures follows { D.follows disk result.left }
    ensures disk { uses_disk (command_of words.now) ≡ false → result.left ≡ disk }
    ensures untouched { NeverSays (command_of words.now) (map (λ fate. (Fate-box fate).told fate.value) fates.old) → result.left ≡ disk }
    ensures alone { result.end ≡ status_of Ending.Usage → result.left ≡ disk }
    ensures input { reads_input (command_of words.now) ≡ false → input.new ≡ input.old }
    ensures link { uses_link (command_of words.now) ≡ false → link.new ≡ link.old }
    ensures hosts { uses_links (command_of words.now) ≡ false → links.new ≡ links.old }
    ensures clock { reads_clock (command_of words.now) ≡ false → clock.new ≡ clock.old }
    ensures fates { uses_fates (command_of words.now) ≡ false → fates.new ≡ fates.old }
{
    run_command(alloc, words, input, out, disk, link, links, clock, fates)
}

/// Runs the command that words say over a disk. Where they say none, it prints so.
fn run_command<S: Source, K: Sink, D: Disk + Drop, L: Link, C: Clock>(
    alloc: Global,
    words: &CommandWords,
    input: &mut S,
    out: &mut K,
    disk: D,
    link: &mut L,
    links: &mut [L],
    clock: &mut C,
    fates: &mut [Box<dyn Fate>],
) -> Ended<u8, D>
    requires tells { makes_a_run (command_of words.now) ≡ true → (bytes : List ℕ) × (D.told disk ≡ Some bytes) }
    requires links { (hosts turns : ℕ) → command_of words.now ≡ Some (Command.Loop hosts turns) → length links.old ≡ hosts + 1 }
    ensures does { Does (command_of words.now)
        (Formats D.faults D.told D.may_leave result.end disk result.left × (out.new ≡ out.old))
        (λ turns longest. ServesDisk D.told D.faults D.may_leave D.follows D.leaves result.end longest turns disk result.left
        (clock_told C.floor C.readings C.reads clock.old) (clock_told C.floor C.readings C.reads clock.new)
        (link_told L.sent L.waiting L.faults L.receives link.old)
        (link_told L.sent L.waiting L.faults L.receives link.new)
        (K.held out.old) (K.held out.new) (K.faults out.old) (K.faults out.new))
        (ReplaysOn most_bytes result.end (S.left input.old) (S.left input.new) (K.held out.old) (K.held out.new)
        (S.faults input.old) (S.faults input.new) (K.faults out.old) (K.faults out.new) (D.faults disk) (D.faults result.left)
        (D.told result.left) disk result.left)
        (λ kind start events. StormsOn result.end kind start events (map (λ fate. (Fate-box fate).told fate.value) fates.old)
        (map (λ fate. fate_told ((Fate-box fate).told fate.value) (asks fate)) fates.old)
        (map (λ fate. fate_told ((Fate-box fate).told fate.value) (asks fate)) fates.new)
        (K.held out.old) (K.held out.new) (K.faults out.old) (K.faults out.new) (D.faults disk) (D.faults result.left) (D.told result.left))
        (λ hosts turns. LoopsOn result.end hosts turns (clock_told C.floor C.readings C.reads clock.old) (clock_told C.floor C.readings C.reads clock.new)
        (map (told_of L.sent L.waiting L.faults L.receives) links.old) (map (told_of L.sent L.waiting L.faults L.receives) links.new)
        (K.held out.old) (K.held out.new) (K.faults out.old) (K.faults out.new) (D.faults disk) (D.faults result.left) (D.told result.left))
        (ChecksFor most_bytes result.end (S.left input.old) (S.left input.new) (K.held out.old) (K.held out.new)
        (S.faults input.old) (S.faults input.new) (K.faults out.old) (K.faults out.new))
        (StagesFor most_bytes result.end (S.left input.old) (S.left input.new) (K.held out.old) (K.held out.new)
        (S.faults input.old) (S.faults input.new) (K.faults out.old) (K.faults out.new))
        (NamesFor most_bytes result.end (S.left input.old) (S.left input.new) (K.held out.old) (K.held out.new)
        (S.faults input.old) (S.faults input.new) (K.faults out.old) (K.faults out.new))
        (λ host inc turns. Attends turns (record { host = host; inc = inc }) most_bytes result.end (S.left input.old) (S.left input.new) (S.faults input.old)
        (S.faults input.new)
        (K.held out.old) (K.held out.new) (K.faults out.old) (K.faults out.new) (clock_told C.floor C.readings C.reads clock.old)
        (clock_told C.floor C.readings C.reads clock.new)
        (link_told L.sent L.waiting L.faults L.receives link.old)
        (link_told L.sent L.waiting L.faults L.receives link.new)) }
    ensures usage { result.end ≡ status_of Ending.Usage → SaysNothing (command_of words.now) (map (λ fate. (Fate-box fate).told fate.value) fates.old)
        × (S.left input.new ≡ S.left input.old) × PrintsLine usage_line (K.held out.old) (K.held out.new) (K.faults out.old) (K.faults out.new) }
    ensures never { NeverSays (command_of words.now) (map (λ fate. (Fate-box fate).told fate.value) fates.old) → (result.end ≡ status_of Ending.Usage)
        × (result.left ≡ disk) }
    ensures alone { result.end ≡ status_of Ending.Usage → result.left ≡ disk }
    ensures faultless { result.end ≡ status_of Ending.Done
        → (S.faults input.new ≡ S.faults input.old) × (K.faults out.new ≡ K.faults out.old) }
    ensures follows { D.follows disk result.left }
    ensures keeps { Unless (uses_disk (command_of words.now)) (result.left ≡ disk) × Unless (reads_input (command_of words.now)) (input.new ≡ input.old)
        × Unless (uses_link (command_of words.now)) (link.new ≡ link.old)
        × Unless (uses_links (command_of words.now)) (links.new ≡ links.old) × Unless (reads_clock (command_of words.now)) (clock.new ≡ clock.old)
        × Unless (uses_fates (command_of words.now)) (fates.new ≡ fates.old) }
{
    match words.command() {
        Some(Command::Format) => format_disk(disk),
        Some(Command::Serve { turns, longest }) => {
            serve_disk(alloc, disk, turns, longest, link, clock, out)
        }
        Some(Command::Replay) => replayed(alloc, disk, input, out, MOST_BYTES),
        Some(
            Command::Storm {
                kind,
                start,
                events,
            },
        ) => stormed(alloc, disk, fates, kind, StormPlan { start, events }, out),
        Some(Command::Loop { hosts, turns }) => {
            looped(alloc, disk, LoopPlan { hosts, turns }, links, clock, out)
        }
        Some(Command::Check) => Ended {
            end: checked(alloc, input, out, MOST_BYTES),
            left: disk,
        },
        Some(Command::Staged) => Ended {
            end: staged(alloc, input, out, MOST_BYTES),
            left: disk,
        },
        Some(Command::Names) => Ended {
            end: named(alloc, input, out, MOST_BYTES),
            left: disk,
        },
        Some(Command::Client { host, inc, turns }) => Ended {
            end: attended(
                alloc,
                ClientPlan {
                    host,
                    inc,
                    turns,
                    limit: MOST_BYTES,
                },
                input,
                out,
                link,
                clock,
            ),
            left: disk,
        },
        None => Ended {
            end: usage(out),
            left: disk,
        },
    }
}
