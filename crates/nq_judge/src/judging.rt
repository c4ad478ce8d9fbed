//! Judging a journal.

ghost use Rattle.std.specs.Prelude.{◌≡◌, ◌<◌, ◌≤◌, ◌^◌, ◌+◌, ℕ, List, IfOk, Some, length, string_bytes};
ghost use Rattle.nq_check.specs.Verdict.{Fault, IsVerdict};
ghost use Rattle.nq_journal.specs.Fault.{IsFaultyAt, IsJournal};
ghost use Rattle.nq_base.specs.declared.ending.ending.Ending.{Ending};
ghost use Rattle.nq_replay.specs.Ending.{CountsSink, CountsSource, IsUnlessFault};
ghost use Rattle.nq_judge.specs.Judging.{IsSaidUnlessFault, Judges, JudgesText, TellsVerdict, no_line};

use nq_base::NoMemory;
use nq_base::ending::Ending;
use nq_check::{Judged, Rule, check};
use nq_io::{Put, Sink, Source, Whole, put_line, read_all};
use nq_journal::{JournalFault, parse};
use nq_replay::{script_text, tell_over};
use std::alloc::Global;

/// Reads a journal to the end of the input, of at most so many bytes, and judges it, as `docs/check.md` tells. How it ends:
///
/// - `Done`: the journal is sound; prints `yes`.
/// - `NotSound`: it is not; prints `no line N RULE` with the line of the first entry at fault.
/// - `Script`: a line is outside the grammar; prints `script line N`.
/// - `ReadFault`: the source failed, which it has counted; prints nothing.
/// - `WriteFault`: the sink failed, which it has counted; a front of `yes` is printed.
/// - `Memory`: memory was wanting; prints nothing.
/// - `Limit`: the input has more bytes than the limit; prints `limit line N bytes`.
pub fn judge<S: Source, K: Sink>(alloc: Global, input: &mut S, out: &mut K, limit: usize) -> Ending
    requires { limit < 2 ^ 31 }
    ensures judges { Judges result limit (S.left input.old) (S.left input.new) (K.held out.old) (K.held out.new)
        (S.faults input.old) (S.faults input.new) (K.faults out.old) (K.faults out.new) }
    ensures usage { result ≡ Ending.Usage → ⊥ }
    ensures limit { (text : List ℕ) → S.left input.old ≡ Some text → limit < length text
        → IsUnlessFault result Ending.Limit (S.faults input.old) (S.faults input.new) (K.faults out.old) (K.faults out.new) }
    ensures script { (text : List ℕ) → S.left input.old ≡ Some text → length text ≤ limit
        → (number : ℕ) → IsFaultyAt number text
        → IsUnlessFault result Ending.Script (S.faults input.old) (S.faults input.new) (K.faults out.old) (K.faults out.new) }
    ensures said { (text : List ℕ) → S.left input.old ≡ Some text → length text ≤ limit → IsJournal text
        → IsSaidUnlessFault result (S.faults input.old) (S.faults input.new) (K.faults out.old) (K.faults out.new) }
    ensures source { CountsSource result (S.faults input.old) (S.faults input.new) }
    ensures sink { CountsSink result (K.faults out.old) (K.faults out.new) }
{
    match read_all(alloc, input, limit) {
        Whole::All(text) => judge_text(alloc, &text, out),
        Whole::Over(front) => tell_over(alloc, &front, out),
        Whole::Failed => Ending::ReadFault,
        Whole::Memory => Ending::Memory,
    }
}

/// Judges a text that was read, and prints the verdict or its first faulty line.
fn judge_text<K: Sink>(alloc: Global, text: &[u8], out: &mut K) -> Ending
    requires { length text.now < 2 ^ 31 }
    ensures judges { JudgesText result text.now (K.held out.old) (K.held out.new) (K.faults out.old) (K.faults out.new) }
    ensures sink { CountsSink result (K.faults out.old) (K.faults out.new) }
{
    match parse(alloc, text) {
        Ok(journal) => tell(alloc, check(alloc, &journal), out),
        Err(JournalFault::Line(line)) => match script_text(alloc, line as usize) {
            Ok(line) => {
                put_line(out, line.as_bytes());
                Ending::Script
            }
            Err(_) => Ending::Memory,
        },
        Err(JournalFault::Memory) => Ending::Memory,
    }
}

/// Prints a verdict.
fn tell<K: Sink>(alloc: Global, judged: Judged, out: &mut K) -> Ending
    requires { (place : ℕ) (rule : _) → judged ≡ Judged.No place rule → place < 2 ^ 31 }
    ensures tells { TellsVerdict result judged (K.held out.old) (K.held out.new) (K.faults out.old) (K.faults out.new) }
    ensures sink { CountsSink result (K.faults out.old) (K.faults out.new) }
{
    match judged {
        Judged::Yes => match out.put(b"yes\n") {
            Put::All => Ending::Done,
            Put::Failed => Ending::WriteFault,
        },
        Judged::No { place, rule } => match no_text(alloc, place, rule) {
            Ok(line) => {
                put_line(out, line.as_bytes());
                Ending::NotSound
            }
            Err(_) => Ending::Memory,
        },
        Judged::Memory => Ending::Memory,
    }
}

/// The line that tells the first entry at fault.
#[tactic(auto, unfolding(crate::specs::Judging::no_line))]
fn no_text(alloc: Global, place: usize, rule: Rule) -> Result<String, NoMemory>
    requires { place < 2 ^ 31 }
    ensures { IfOk result (λ line. string_bytes line ≡ no_line place rule) }
{
    let line = place + 2;
    let word = rule.word();
    match format!(in alloc; "no line {line} {word}\n") {
        Ok(line) => Ok(line),
        Err(_) => Err(NoMemory::Memory),
    }
}
