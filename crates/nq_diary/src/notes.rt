//! Notes of turns.

ghost use Rattle.nq_diary.specs.Diary.{CountsNote, Notes, moment_line, note_text};
ghost use Rattle.nq_journal.specs.Text.{Has};
ghost use Rattle.std.specs.Prelude.{◌≡◌, ◌≢◌, ◌++◌, [], All, IfOk, OnOk};

use nq_base::{Journal, NoMemory};
use nq_io::streams::StdSink;
use nq_io::{Put, Sink};
use nq_journal::{Printed, print};
use nq_script::words::{push_bytes, push_digits};
use std::alloc::Global;
use std::rt::Clock;

/// The version of the text in which entries are noted.
const VERSION: u32 = 2;

/// What noting answers.
#[derive(Clone, Copy)]
pub enum Noted {
    /// All entries were noted, or there were none.
    All,
    /// The sink failed, which it has counted. Some of the note, from the first byte on, was appended.
    Failed,
    /// Memory was wanting. Nothing was appended.
    Memory,
}

/// Notes the entries of a turn, if there are any: a line `at N`, where N are the nanoseconds that the machine's clock shows now, or 0 where it
/// shows none, and behind it the text of a journal with these entries. A sink gets all of it in one piece.
#[tactic(auto, using(crate::proofs::Versions::all_second))]
pub fn note<K: Sink, C: Clock>(alloc: Global, clock: &C, log: &Journal, out: &mut K) -> Noted
    ensures notes { Notes result log.now.entries (K.held out.old) (K.held out.new) }
    ensures cause { CountsNote result (K.faults out.old) (K.faults out.new) }
{
    if log.entries().is_empty() {
        return Noted::All;
    }
    note_at(alloc, nanos_of(clock), log, out)
}

/// The nanoseconds that the machine's clock shows; 0 where it shows none.
fn nanos_of<C: Clock>(clock: &C) -> u64 {
    match clock.monotonic() {
        Ok(moment) => u64::try_from(moment.as_nanos()).unwrap_or(0),
        Err(_) => 0,
    }
}

/// Notes entries, of which there are some, at this moment.
fn note_at<K: Sink>(alloc: Global, nanos: u64, log: &Journal, out: &mut K) -> Noted
    requires has { All (Has 2) log.now.entries }
    requires some { log.now.entries ≢ [] }
    ensures notes { Notes result log.now.entries (K.held out.old) (K.held out.new) }
    ensures cause { CountsNote result (K.faults out.old) (K.faults out.new) }
{
    match text_of(alloc, nanos, log) {
        Ok(text) => match out.put(&text) {
            Put::All => Noted::All,
            Put::Failed => Noted::Failed,
        },
        Err(_) => Noted::Memory,
    }
}

/// The text of a note.
///
/// # Errors
///
/// Only want of memory.
fn text_of(alloc: Global, nanos: u64, log: &Journal) -> Result<Vec<u8>, NoMemory>
    requires { All (Has 2) log.now.entries }
    ensures { IfOk result (λ text. text.items ≡ note_text nanos log.now.entries) }
{
    let mut sink = StdSink::in_memory(moment_of(alloc, nanos)?);
    match print(alloc, log, VERSION, &mut sink) {
        Printed::All => Ok(sink.into_writer()),
        Printed::Failed | Printed::Memory => Err(NoMemory::Memory),
    }
}

/// The line that tells a moment.
fn moment_of(alloc: Global, nanos: u64) -> Result<Vec<u8>, NoMemory>
    ensures { IfOk result (λ line. line.items ≡ moment_line nanos) }
{
    let mut line = Vec::new(alloc);
    push_moment(&mut line, nanos)?;
    Ok(line)
}

/// Appends the line that tells a moment.
fn push_moment(out: &mut Vec<u8>, nanos: u64) -> Result<(), NoMemory>
    ensures { OnOk result (out.new.items ≡ out.old.items ++ moment_line nanos) }
{
    push_bytes(out, b"at ")?;
    push_digits(out, nanos)?;
    push_bytes(out, b"\n")
}
