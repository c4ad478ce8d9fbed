//! The text of a schedule that was run.

ghost use Rattle.std.specs.List.{AllByRecursion};
ghost use Rattle.std.specs.Prelude.{◌≡◌, ◌++◌, List, ℕ, map, IfOk, OnOk};
ghost use Rattle.nq_replay.specs.Texts.{IsTellable};
ghost use Rattle.nq_script.specs.Heads.{FitsHead};
ghost use Rattle.nq_script.specs.Lines.{AreSpelled, once};
ghost use Rattle.nq_script.specs.Schedule.{SpellsSchedule};
ghost use Rattle.nq_script.specs.Text.{text_of};

use nq_base::NoMemory;
use nq_script::{Head, Schedule, print_head};
use std::alloc::Global;

/// The text of a schedule with this head: a line for each event, and `end`.
pub fn schedule_text(alloc: Global, head: &Head, ran: &Schedule) -> Result<Vec<u8>, NoMemory>
    requires fits { FitsHead head.now }
    requires told { AllByRecursion (IsTellable head.now) ran.now }
    ensures { IfOk result (λ text. SpellsSchedule head.now (map once ran.now) text.items) }
{
    let mut text = print_head(alloc, head)?;
    push_events(&mut text, head, ran)?;
    push(&mut text, b"end\n")?;
    Ok(text)
}

/// Appends the lines of events.
fn push_events(text: &mut Vec<u8>, head: &Head, ran: &Schedule) -> Result<(), NoMemory>
    requires { AllByRecursion (IsTellable head.now) ran.now }
    ensures { OnOk result ((texts : List (List ℕ)) × AreSpelled head.now ran.now texts × (text.new.items ≡ text.old.items ++ text_of texts)) }
{
    for place in 0..ran.len() {
        ran.append_line(place, head.version, text)?;
    }
    Ok(())
}

/// Appends bytes.
fn push(text: &mut Vec<u8>, bytes: &[u8]) -> Result<(), NoMemory>
    ensures { OnOk result (text.new.items ≡ text.old.items ++ bytes.now) }
{
    match text.extend_from_slice(bytes) {
        Ok(()) => Ok(()),
        Err(_) => Err(NoMemory::Memory),
    }
}
