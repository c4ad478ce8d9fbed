//! The whole text of a schedule.

ghost use Rattle.std.specs.Prelude.{◌≡◌, ◌↔◌, ◌+◌, ◌<◌, ◌^◌, ◌⊎◌, ◌++◌, ◌∷◌, ℕ, List, [], Some, IfSome, IsNone, OnOk, length, map, slice_get, IsTrue};
ghost use Rattle.nq_base.specs.declared.Event.{Event};
ghost use Rattle.nq_script.specs.Faults.{Answers};
ghost use Rattle.nq_script.specs.Heads.{head_lines};
ghost use Rattle.nq_script.specs.Lines.{line_of, once};
ghost use Rattle.nq_script.specs.Progress.{EndsWith, WrongLine, WrongEnd};
ghost use Rattle.nq_script.specs.Schedule.{SpellsSchedule, FirstBadLine};
ghost use Rattle.nq_script.specs.declared.heads.Head.{Head};
ghost use Rattle.nq_script.specs.declared.lines.Line.{Line};

use crate::faults::ScriptFault;
use crate::heads::{Head, HeadOut, parse_head};
use crate::lines::{KeptLine, Line, ToldLine, keep_line, kept_line, read_line};
use crate::words::cut;
use nq_base::NoMemory;
use std::alloc::Global;
use std::marker::Model;

/// The lines of a schedule between its head and `end`, in their order. A block is kept as its value. Clauses see the
/// list of lines.
#[derive(Drop)]
pub struct Lines {
    kept: Vec<KeptLine>,
}

impl Model for Lines {
    ghost use Rattle.std.specs.Prelude.{List, map};
    ghost use Rattle.nq_script.specs.Kept.{kept_line};
    ghost use Rattle.nq_script.specs.declared.lines.Line.{Line};

    ghost Value = { List Line };

    ghost view = { λ l. map kept_line l.kept.items };
}

impl Lines {
    fn new(alloc: Global) -> Lines
        ensures { result ≡ [] }
    {
        Lines {
            kept: Vec::new(alloc),
        }
    }

    fn push(&mut self, alloc: Global, line: ToldLine) -> Result<(), NoMemory>
        ensures { OnOk result (self.new ≡ self.old ++ line_of line ∷ []) }
    {
        let kept = keep_line(alloc, line)?;
        self.kept.push(kept)?;
        Ok(())
    }

    /// How many there are.
    pub fn len(&self) -> usize
        ensures { result ≡ length self.now }
    {
        self.kept.len()
    }

    /// The one at a place; None where the place is not below the length.
    pub fn get(&self, place: usize) -> Option<Line>
        ensures { result ≡ slice_get self.now place }
    {
        match self.kept.get(place) {
            Some(kept) => Some(kept_line(kept)),
            None => None,
        }
    }

    /// The packet that the line at a place delivers; None where it is another line, or the place is not below the length.
    /// Unlike `get` it makes no event, which may hold a block.
    pub fn packet_at(&self, place: usize) -> Option<u64>
        ensures delivered { IfSome result (λ packet. slice_get self.now place ≡ Some (once (Event.Deliver packet))) }
        ensures other { IsNone result → (packet : ℕ) → slice_get self.now place ≡ Some (once (Event.Deliver packet)) → ⊥ }
    {
        match self.kept.get(place) {
            Some(kept) => kept.packet(),
            None => None,
        }
    }
}

/// A schedule as its text gives it.
#[derive(Drop)]
pub struct Script {
    /// What the run begins with.
    pub head: Head,
    /// The number in the text of the first line behind the head; the one at place `i` of `lines` has number `first + i`.
    pub first: u32,
    /// The lines between the head and `end`.
    pub lines: Lines,
}

/// Reads a whole text. The text is shorter than 2^31 bytes.
///
/// # Errors
///
/// `Bad` with the number of the first line at which the text is outside the grammar: also a line without its line feed,
/// the line that is missing where the text ends before `end`, and the one behind `end` where bytes follow.
pub fn parse(alloc: Global, text: &[u8]) -> Result<Script, ScriptFault>
    requires { length text.now < 2 ^ 31 }
    ensures found { Answers result (λ script. SpellsSchedule script.head script.lines text.now) (λ number. FirstBadLine text.now number) }
    ensures only { (head : Head) (lines : List Line) → SpellsSchedule head lines text.now
        → Answers result (λ script. (script.head ≡ head) × (script.lines ≡ lines)) (λ number. ⊥) }
    ensures bad { (number : ℕ) → FirstBadLine text.now number → Answers result (λ script. ⊥) (λ place. place ≡ number) }
    ensures first { Answers result (λ script. script.first ≡ length (head_lines script.head) + 1) (λ number. Unit {0}) }
{
    read_script(alloc, text)
}

fn read_script(alloc: Global, text: &[u8]) -> Result<Script, ScriptFault>
    requires { length text.now < 2 ^ 31 }
    ensures found { Answers result (λ script. SpellsSchedule script.head script.lines text.now) (λ number. FirstBadLine text.now number) }
    ensures first { Answers result (λ script. script.first ≡ length (head_lines script.head) + 1) (λ number. Unit {0}) }
{
    let HeadOut { head, lines, bytes } = parse_head(alloc, text)?;
    let first = lines + 1;
    let lines = read_lines(alloc, &text[bytes..], &head, first)?;
    Ok(Script { head, first, lines })
}

/// Reads the lines of events, of which the first has the number `first`, up to `end`, which ends the text.
fn read_lines(alloc: Global, text: &[u8], head: &Head, first: u32) -> Result<Lines, ScriptFault>
    requires { first + length text.now < 2 ^ 32 }
    ensures { Answers result (λ lines. EndsWith head.now lines text.now) (λ number. WrongLine head.now first text.now number
        ⊎ WrongEnd head.now first text.now number) }
{
    let mut lines = Lines::new(alloc);
    let mut rest = text;
    'lines: loop {
        let number = first + lines.len() as u32;
        let Some((line, after)) = cut(rest, b'\n') else {
            return Err(ScriptFault::Bad(number));
        };
        let Some(read) = read_line(line, head) else {
            return Err(ScriptFault::Bad(number));
        };
        if read.is_end() {
            return if after.is_empty() {
                Ok(lines)
            } else {
                Err(ScriptFault::Bad(number + 1))
            };
        }
        lines.push(alloc, read)?;
        rest = after;
    }
}
