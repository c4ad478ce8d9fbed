//! Reading a schedule.

ghost use Rattle.std.specs.Prelude.{◌≡◌, ◌<◌, ◌≤◌, ◌^◌, ℕ, List, Some, length, IfErr, IfOk, OnOk};
ghost use Rattle.nq_base.specs.declared.ending.ending.Ending.{Ending};
ghost use Rattle.nq_replay.specs.Ending.{CountsSink, IsFault};
ghost use Rattle.nq_replay.specs.Reading.{CountsInput, IsReadAs, RefusedUnlessFault, Refuses, RefusesText};
ghost use Rattle.nq_replay.specs.Replay.{OfInput};
ghost use Rattle.nq_replay.specs.Schedules.{IsReady};
ghost use Rattle.nq_script.specs.Schedule.{FirstBadLine, SpellsSchedule};
ghost use Rattle.nq_script.specs.declared.heads.Head.{Head};
ghost use Rattle.nq_script.specs.declared.lines.Line.{Line};

use crate::printing::tell_over;
use crate::schedules::tell_script;
use nq_base::ending::Ending;
use nq_io::{Sink, Source, Whole, read_all};
use nq_script::{Script, ScriptFault, parse};
use std::alloc::Global;

/// Reads a schedule of version 1 or 2 to the end of the input, of at most so many bytes. Nothing is printed where it is read.
///
/// # Errors
///
/// - `Script`: a line is outside the grammar; prints `script line N`, with lines counted from 1.
/// - `ReadFault`: the source failed, which it has counted, behind a front of what was left in it; prints nothing.
/// - `Memory`: memory was wanting; prints nothing.
/// - `Limit`: the input has more bytes than the limit; prints `limit line N bytes` with the line of the first byte beyond it.
pub fn read_script<S: Source, K: Sink>(
    alloc: Global,
    input: &mut S,
    out: &mut K,
    limit: usize,
) -> Result<Script, Ending>
    requires { limit < 2 ^ 31 }
    ensures read { IfOk result (λ script. OfInput limit (S.left input.old) (S.left input.new) (λ text. IsReadAs script text)) }
    ensures ready { IfOk result IsReady }
    ensures quiet { OnOk result (out.new ≡ out.old) }
    ensures refuses { IfErr result (λ end. Refuses end limit (S.left input.old) (S.left input.new) (K.held out.old) (K.held out.new)
        (S.faults input.old) (S.faults input.new) (K.faults out.old) (K.faults out.new)) }
    ensures limit { (text : List ℕ) → S.left input.old ≡ Some text → limit < length text
        → RefusedUnlessFault result Ending.Limit (S.faults input.old) (S.faults input.new) (K.faults out.old) (K.faults out.new) }
    ensures script { (text : List ℕ) → S.left input.old ≡ Some text → length text ≤ limit
        → (number : ℕ) → FirstBadLine text number
        → RefusedUnlessFault result Ending.Script (S.faults input.old) (S.faults input.new) (K.faults out.old) (K.faults out.new) }
    ensures spelled { (text : List ℕ) → S.left input.old ≡ Some text → length text ≤ limit
        → (head : Head) (lines : List Line) → SpellsSchedule head lines text
        → IfErr result (λ end. IsFault end (S.faults input.old) (S.faults input.new) (K.faults out.old) (K.faults out.new)) }
    ensures source { CountsInput result (S.faults input.old) (S.faults input.new) }
    ensures sink { IfErr result (λ end. CountsSink end (K.faults out.old) (K.faults out.new)) }
{
    match read_all(alloc, input, limit) {
        Whole::All(text) => read_text(alloc, &text, out),
        Whole::Over(front) => Err(tell_over(alloc, &front, out)),
        Whole::Failed => Err(Ending::ReadFault),
        Whole::Memory => Err(Ending::Memory),
    }
}

/// Reads a text as a schedule, or tells its first line that is outside the grammar.
fn read_text<K: Sink>(alloc: Global, text: &[u8], out: &mut K) -> Result<Script, Ending>
    requires { length text.now < 2 ^ 31 }
    ensures read { IfOk result (λ script. IsReadAs script text.now) }
    ensures ready { IfOk result IsReady }
    ensures quiet { OnOk result (out.new ≡ out.old) }
    ensures refuses { IfErr result (λ end. RefusesText end text.now (K.held out.old) (K.held out.new) (K.faults out.old) (K.faults out.new)) }
    ensures script { (number : ℕ) → FirstBadLine text.now number
        → RefusedUnlessFault result Ending.Script 0 0 (K.faults out.old) (K.faults out.new) }
    ensures spelled { (head : Head) (lines : List Line) → SpellsSchedule head lines text.now → IfErr result (λ end. end ≡ Ending.Memory) }
    ensures sink { IfErr result (λ end. CountsSink end (K.faults out.old) (K.faults out.new)) }
{
    match parse(alloc, text) {
        Ok(script) => Ok(script),
        Err(ScriptFault::Bad(number)) => Err(tell_script(alloc, number, out)),
        Err(ScriptFault::Memory) => Err(Ending::Memory),
    }
}
