//! The whole of the program `client`.

ghost use Rattle.std.specs.Prelude.{◌≡◌, ◌<◌, ◌^◌, ℕ, List, Option, Some, length};
ghost use Rattle.nq_hosts.specs.Lines.{AreCalls, Tells};
ghost use Rattle.nq_base.specs.declared.ending.ending.Ending.{Ending};
ghost use Rattle.nq_clock.specs.Clocks.{clock_told};
ghost use Rattle.nq_link.specs.Links.{link_told};
ghost use Rattle.nq_hosts.specs.Using.{EndsBy, Uses, UsesText};

use crate::answers::{tell_bytes, tell_end, tell_script};
use crate::calls::find_fault;
use crate::user::plan::UsePlan;
use crate::user::running::{Ran, run};
use nq_base::ending::Ending;
use nq_clock::Clock;
use nq_io::{Sink, Source, Whole, read_all};
use nq_link::Link;
use std::alloc::Global;

/// Reads calls, one a line, attaches a client of a host over a link, runs each call to its answer, and prints the answers, each on a
/// line, after its last turn. Turns are counted anew for attaching and for each call. What the client's start and each call push
/// is sent at once, before the next turn.
///
/// # Errors
///
/// - `Script`: a line of the input spells no call of version 1; prints `script line N`, before the client attaches.
/// - `ReadFault` only where the source counted a fault; prints nothing.
/// - `WriteFault` only where the sink counted a fault; a front of the answers is printed. Under another fault the end stays.
/// - `Memory` where memory was wanting; prints nothing.
/// - `LinkFault` only where the link counted a fault; prints nothing.
/// - `Limit`: the input has more bytes than the limit, and it prints `limit line N bytes`; or the client has taken in all that it
///   counts, and it prints the answers and `limit line N events` with the line of the call, 0 for attaching.
/// - `NoAnswer` where all the turns were taken since a call began, and none ended it; prints the answers and `noanswer line N`.
pub fn client<S: Source, K: Sink, L: Link, C: Clock>(
    alloc: Global,
    plan: UsePlan,
    input: &mut S,
    out: &mut K,
    link: &mut L,
    clock: &mut C,
) -> Ending
    requires { plan.limit < 2 ^ 31 }
    ensures uses { Uses plan.turns plan.who plan.limit result (S.left input.old) (S.left input.new) (S.faults input.old) (S.faults input.new)
        (K.held out.old) (K.held out.new) (K.faults out.old) (K.faults out.new)
        (clock_told C.floor C.readings C.reads clock.old) (clock_told C.floor C.readings C.reads clock.new)
        (link_told L.sent L.waiting L.faults L.receives link.old)
        (link_told L.sent L.waiting L.faults L.receives link.new) }
    ensures cause { EndsBy result (S.faults input.old) (S.faults input.new) (K.faults out.old) (K.faults out.new) (L.faults link.old) (L.faults link.new) }
    ensures lawful { (text : List ℕ) (lines : List (List ℕ)) → S.left input.old ≡ Some text → AreCalls lines text → result ≡ Ending.Script → ⊥ }
{
    match read_all(alloc, input, plan.limit) {
        Whole::All(text) => use_text(alloc, plan, &text, out, link, clock),
        Whole::Over(front) => tell_bytes(alloc, &front, out),
        Whole::Failed => Ending::ReadFault,
        Whole::Memory => Ending::Memory,
    }
}

/// Runs the calls of a text that was read and tells what came of them, or tells which of its lines spells none.
fn use_text<K: Sink, L: Link, C: Clock>(
    alloc: Global,
    plan: UsePlan,
    text: &[u8],
    out: &mut K,
    link: &mut L,
    clock: &mut C,
) -> Ending
    requires { length text.now < 2 ^ 31 }
    ensures { (fault : Option ℕ) × Tells fault text.now × UsesText fault plan.turns plan.who text.now result
        (K.held out.old) (K.held out.new) (K.faults out.old) (K.faults out.new)
        (clock_told C.floor C.readings C.reads clock.old) (clock_told C.floor C.readings C.reads clock.new)
        (link_told L.sent L.waiting L.faults L.receives link.old)
        (link_told L.sent L.waiting L.faults L.receives link.new) }
{
    match find_fault(alloc, text) {
        Some(number) => tell_script(alloc, number, out),
        None => {
            let Ran { ended, log } = run(alloc, plan, text, link, clock);
            tell_end(alloc, ended, &log, out)
        }
    }
}
