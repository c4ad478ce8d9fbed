//! The counts of a loop.

ghost use Rattle.std.specs.List.{count_by};
ghost use Rattle.std.specs.Prelude.{◌≡◌, ◌++◌, ℕ, List, ◌≤◌, IfOk, cond, string_bytes};
ghost use Rattle.nq_base.specs.declared.Entry.{Entry};
ghost use Rattle.nq_loop.specs.Counts.{is_answer, is_call, loop_line};

use nq_base::{Entry, NoMemory};
use std::alloc::Global;

/// How many calls entries tell.
pub(crate) fn calls(entries: &[Entry]) -> usize
    ensures { result ≡ count_by is_call entries.now }
{
    let mut calls: usize = 0;
    for entry in entries {
        calls += call_of(entry);
    }
    calls
}

/// How many answers entries tell.
pub(crate) fn answers(entries: &[Entry]) -> usize
    ensures { result ≡ count_by is_answer entries.now }
{
    let mut answers: usize = 0;
    for entry in entries {
        answers += answer_of(entry);
    }
    answers
}

/// One where an entry tells a call, and none otherwise.
#[tactic(auto, unfolding(crate::specs::Counts::is_call))]
fn call_of(entry: &Entry) -> usize
    ensures value { result ≡ cond (is_call entry.now) 1 0 }
    ensures few { result ≤ 1 }
{
    match entry {
        Entry::C { .. } => 1,
        _ => 0,
    }
}

/// One where an entry tells an answer, and none otherwise.
#[tactic(auto, unfolding(crate::specs::Counts::is_answer))]
fn answer_of(entry: &Entry) -> usize
    ensures value { result ≡ cond (is_answer entry.now) 1 0 }
    ensures few { result ≤ 1 }
{
    match entry {
        Entry::A { .. } => 1,
        _ => 0,
    }
}

/// The line that counts calls and answers.
#[tactic(auto, unfolding(crate::specs::Counts::loop_line))]
pub(crate) fn count_text(alloc: Global, calls: usize, answers: usize) -> Result<String, NoMemory>
    ensures { IfOk result (λ line. string_bytes line ≡ loop_line calls answers) }
{
    match format!(in alloc; "loop calls {calls} answered {answers}\n") {
        Ok(line) => Ok(line),
        Err(_) => Err(NoMemory::Memory),
    }
}
