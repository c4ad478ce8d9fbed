//! Serving for a number of turns.

ghost use Rattle.std.specs.Prelude.{◌≡◌, ◌<◌, ◌≤◌, ◌^◌, IfOk, string_bytes};
ghost use Rattle.nq_serving.specs.Extending.{no_extension};
ghost use Rattle.nq_serving.specs.LeavingTurns.{LeavesServing};
ghost use Rattle.nq_serving.specs.Serving.{EndsBy, Tells, TellsTurns, end_of, turns_line};
ghost use Rattle.nq_serving.specs.declared.turning.LinkPolicy.{LinkPolicy};
ghost use Rattle.nq_clock.specs.Clocks.{clock_told};
ghost use Rattle.nq_link.specs.Links.{link_told};

use crate::serving::{Boot, boot_and_run};
use crate::turning::{LinkPolicy, Turns};
use crate::watching::Nobody;
use nq_base::NoMemory;
use nq_base::ending::{Ended, Ending, Fault};
use nq_clock::Clock;
use nq_io::{Put, Sink};
use nq_keeper::Keeper;
use nq_link::Link;
use std::alloc::Global;

/// Boots a server over a keeper at the time of one reading of the clock, takes so many turns of it over a link, and prints
/// `turns TURNS`. The longest term that the server grants is 5 to 600 ticks. The keeper is handed back, with what the boot and the
/// turns made of what it keeps. What a stop at any moment of the call leaves is what was kept when the keeper was handed in, or what was
/// kept after the boot and some of the ticks and datagrams of the turns, one after the other; a step that failed may be among them.
///
/// # Errors
///
/// `LinkFault` only where the link counted a fault, `KeepFault` only where the keeper did, `Memory` where memory was refused, and
/// `Spent` exactly where no number is left for the boot. The turns before the one that stopped stay done, the rest is left out, and
/// nothing is printed. `WriteFault` only where the sink counted a fault; a front of the line is printed.
pub fn serve<K: Keeper, L: Link, C: Clock, S: Sink>(
    alloc: Global,
    keeper: K,
    turns: u32,
    longest: u32,
    link: &mut L,
    clock: &mut C,
    out: &mut S,
) -> Ended<Ending, K>
    requires long { 5 ≤ longest }
    requires short { longest ≤ 600 }
    ensures serves { Tells result.end turns
        (λ ended. LeavesServing K.content K.faults LinkPolicy.Stop no_extension K.follows K.leaves longest turns keeper ended result.left
        (clock_told C.floor C.readings C.reads clock.old) (clock_told C.floor C.readings C.reads clock.new)
        (link_told L.sent L.waiting L.faults L.receives link.old)
        (link_told L.sent L.waiting L.faults L.receives link.new))
        (S.held out.old) (S.held out.new) (S.faults out.old) (S.faults out.new) }
    ensures follows { K.follows keeper result.left }
    ensures cause { EndsBy result.end (K.content keeper) (K.faults keeper) (K.faults result.left)
        (L.faults link.old) (L.faults link.new) (S.faults out.old) (S.faults out.new) }
{
    keeper.pause();
    let now = clock.now();
    let Ok(line) = turns_text(alloc, turns) else {
        return Ended {
            end: Ending::Memory,
            left: keeper,
        };
    };
    let boot = Boot {
        keeper,
        longest,
        now,
    };
    let to_take = Turns {
        most: turns as u64,
        policy: LinkPolicy::Stop,
    };
    let ran = boot_and_run(alloc, boot, to_take, link, clock, &mut Nobody);
    Ended {
        end: tell(out, ran.end, line.as_bytes()),
        left: ran.left,
    }
}

/// The line that tells how many turns were taken.
#[tactic(auto, unfolding(crate::specs::Serving::turns_line))]
fn turns_text(alloc: Global, turns: u32) -> Result<String, NoMemory>
    ensures { IfOk result (λ line. string_bytes line ≡ turns_line turns) }
{
    Ok(format!(in alloc; "turns {turns}\n")?)
}

/// Tells how turns ended, with this line where all were taken.
fn tell<S: Sink>(out: &mut S, ended: Result<(), Fault>, line: &[u8]) -> Ending
    ensures { TellsTurns ended line.now result (S.held out.old) (S.held out.new) (S.faults out.old) (S.faults out.new) }
{
    match ended {
        Ok(()) => match out.put(line) {
            Put::All => Ending::Done,
            Put::Failed => Ending::WriteFault,
        },
        Err(why) => end_of(why),
    }
}

/// The end where turns stopped so.
fn end_of(why: Fault) -> Ending
    ensures { result ≡ end_of why }
{
    match why {
        Fault::Link => Ending::LinkFault,
        Fault::Keep => Ending::KeepFault,
        Fault::Memory => Ending::Memory,
        Fault::Spent => Ending::Spent,
        Fault::NoAnswer => Ending::NoAnswer,
    }
}
