//! Running a text of some kind.

ghost use Rattle.std.specs.Prelude.{◌<◌, ◌^◌, ℕ, List, length};
ghost use Rattle.nq_played.specs.Running.{Ends, EndsByInput, EndsPlayed, TellsText};
ghost use Rattle.nq_replay.specs.AsidesPlaying.{Ended};
ghost use Rattle.nq_replay.specs.Ending.{CountsSink, CountsSource};
ghost use Rattle.nq_replay.specs.Text.{FirstBadMixed, IsReadyMixed, MixedLine, SpellsMixed, mixed};
ghost use Rattle.nq_script.specs.declared.heads.Head.{Head};

use nq_base::ending::Ending;
use nq_io::{Sink, Source, Whole, read_all};
use nq_replay::asides::{AsideLine, MixedScript, read_script};
use nq_replay::{tell_over, tell_script};
use nq_script::ScriptFault;
use std::alloc::Global;

/// An aside of texts that a command plays and prints.
pub trait PlayedAside: AsideLine {
    /// What playing comes to.
    ghost Reached: { Type 0 };

    /// What playing all lines of a text with this head comes to.
    ghost due: { Head → List (MixedLine Self) → Ended Reached };

    /// Which bytes are printed of that.
    ghost prints: { Head → Reached → List ℕ → Type 0 };

    /// Runs a text that was read over a keeper in memory, and prints what it made or the line at which it stopped.
    fn run<K: Sink>(alloc: Global, script: &MixedScript<Self>, out: &mut K) -> Ending
        requires { IsReadyMixed Self.fits script.now.script script.now.asides.items }
        ensures ends { EndsPlayed (SpellsMixed Self.said) (FirstBadMixed Self.said) due prints result script.now.script.head
            (due script.now.script.head (mixed script.now.asides.items script.now.script.lines))
            (K.held out.old) (K.held out.new) (K.faults out.old) (K.faults out.new) }
        ensures sink { CountsSink result (K.faults out.old) (K.faults out.new) };
}

/// Reads a text to the end of the input, of at most so many bytes, and runs it: a schedule of version 2 that may have asides, whose
/// `deliver` and `flow` speak of the packets that travel outside. Prints what is printed of its kind. How it ends:
///
/// - `Done`: all of that was printed.
/// - `Script`: a line is outside the grammar, or delivers a packet that does not travel; prints `script line N`, with lines counted
///   from 1.
/// - `Skew`: a tick of the server's clock breaks the rule on skew (Macklem 1994); prints `skew line N host H server S client C` with
///   the lowest such host, and how often both clocks ticked in the shortest part of the inner schedule that breaks the rule.
/// - `ReadFault`: the source failed, which it has counted, behind a front of what was left in it; prints nothing.
/// - `WriteFault`: the sink failed, which it has counted; a front of what is to be printed is printed.
/// - `Memory`: memory was wanting; a front of what is to be printed may be printed.
/// - `Limit`: the input has more bytes than the limit, the schedule more than 100,000 events, or an event comes after more than
///   999,936 packets outside; prints `limit line N bytes`, `events` or `packets` with the line of the first byte beyond them, or of
///   the event.
pub fn run_played<A: PlayedAside, S: Source, K: Sink>(
    alloc: Global,
    input: &mut S,
    out: &mut K,
    limit: usize,
) -> Ending
    requires { limit < 2 ^ 31 }
    ensures ends { Ends (SpellsMixed A.said) (FirstBadMixed A.said) A.due A.prints result limit (S.left input.old) (S.left input.new)
        (K.held out.old) (K.held out.new) (S.faults input.old) (S.faults input.new) (K.faults out.old) (K.faults out.new) }
    ensures by_input { EndsByInput (SpellsMixed A.said) (FirstBadMixed A.said) A.due A.prints result limit (S.left input.old)
        (S.faults input.old) (S.faults input.new) (K.faults out.old) (K.faults out.new) }
    ensures source { CountsSource result (S.faults input.old) (S.faults input.new) }
    ensures sink { CountsSink result (K.faults out.old) (K.faults out.new) }
{
    match read_all(alloc, input, limit) {
        Whole::All(text) => run_text::<A, K>(alloc, &text, out),
        Whole::Over(front) => tell_over(alloc, &front, out),
        Whole::Failed => Ending::ReadFault,
        Whole::Memory => Ending::Memory,
    }
}

/// Runs a text, and prints what it made or the line at which it stopped.
fn run_text<A: PlayedAside, K: Sink>(alloc: Global, text: &[u8], out: &mut K) -> Ending
    requires { length text.now < 2 ^ 31 }
    ensures { TellsText (SpellsMixed A.said) (FirstBadMixed A.said) A.due A.prints result text.now
        (K.held out.old) (K.held out.new) (K.faults out.old) (K.faults out.new) }
{
    match read_script::<A>(alloc, text) {
        Ok(script) => A::run(alloc, &script, out),
        Err(ScriptFault::Bad(number)) => tell_script(alloc, number, out),
        Err(ScriptFault::Memory) => Ending::Memory,
    }
}
