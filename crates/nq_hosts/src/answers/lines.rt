//! The lines of answers.

ghost use Rattle.std.specs.Prelude.{◌≡◌, ◌++◌, IfOk, OnOk};
ghost use Rattle.nq_hosts.specs.Answers.{answer_line, answers_text, told_line};

use nq_base::{Entry, Journal, NoMemory, Said};
use nq_script::words::push_said;
use std::alloc::Global;

/// The words of each answer that a journal tells, on a line each, in the order of the journal.
pub fn answers_text(alloc: Global, journal: &Journal) -> Result<Vec<u8>, NoMemory>
    ensures { IfOk result (λ text. text.items ≡ answers_text journal.now.entries) }
{
    let mut text = Vec::new(alloc);
    for entry in journal.entries() {
        push_told(&mut text, entry)?;
    }
    Ok(text)
}

/// Appends the line of the answer that an entry tells, if it tells one.
fn push_told(out: &mut Vec<u8>, entry: &Entry) -> Result<(), NoMemory>
    ensures { OnOk result (out.new.items ≡ out.old.items ++ told_line entry.now) }
{
    match entry {
        Entry::A { said, .. } => push_line(out, said),
        _ => Ok(()),
    }
}

/// Appends the line of an answer.
#[tactic(auto, unfolding(crate::specs::Answers::answer_line, nq_script::specs::Words::line))]
fn push_line(out: &mut Vec<u8>, said: &Said) -> Result<(), NoMemory>
    ensures { OnOk result (out.new.items ≡ out.old.items ++ answer_line said.now) }
{
    push_said(out, said)?;
    out.push(b'\n')?;
    Ok(())
}
