//! Printing a journal.

ghost use Rattle.std.specs.Prelude.{◌≡◌, ◌↔◌, ◌++◌, All, IsTrue, OnOk};
ghost use Rattle.nq_journal.specs.Printing.{Prints, CountsPrint};
ghost use Rattle.nq_journal.specs.Text.{Has, IsVersion, IsText, journal_text, head_line, end_line};

use crate::read_entries::has;
use crate::write_entries::push_line;
use nq_base::{Journal, NoMemory};
use nq_io::{Put, Sink};
use nq_script::words::push_numbers;
use std::alloc::Global;

// A sink is given as many bytes at once, or more, but for the last time.
const PIECE: usize = 16_384;

/// What printing answers.
#[derive(Clone, Copy)]
pub enum Printed {
    /// The whole text was appended.
    All,
    /// The sink failed, which it has counted. Some of the text, from the first byte on, was appended.
    Failed,
    /// Memory is wanting. Some of the text, from the first byte on, was appended.
    Memory,
}

/// Whether a version of the text has each entry, so that the journal can be printed in it.
pub fn is_in(journal: &Journal, version: u32) -> bool
    ensures { IsTrue result ↔ All (Has version) journal.now.entries }
{
    journal.entries().iter().all(|entry| has(version, entry))
}

/// Prints a journal in a version of its text, 1 or 2, which has each of its entries.
pub fn print<K: Sink>(alloc: Global, journal: &Journal, version: u32, out: &mut K) -> Printed
    requires version { IsVersion version }
    requires has { All (Has version) journal.now.entries }
    ensures puts { Prints result (journal_text version journal.now.entries) (K.held out.old) (K.held out.new) }
    ensures cause { CountsPrint result (K.faults out.old) (K.faults out.new) }
    // What was printed is in the grammar.
    ensures grammar { result ≡ Printed.All → IsText version journal.now.entries (journal_text version journal.now.entries) }
{
    let mut text = Vec::new(alloc);
    let Ok(()) = push_head(&mut text, version) else {
        return Printed::Memory;
    };
    for entry in journal.entries() {
        let Ok(()) = push_line(&mut text, version, entry) else {
            return Printed::Memory;
        };
        if text.len() >= PIECE {
            match out.put(&text) {
                Put::All => text.clear(),
                Put::Failed => return Printed::Failed,
            }
        }
    }
    let Ok(()) = push_end(&mut text) else {
        return Printed::Memory;
    };
    match out.put(&text) {
        Put::All => Printed::All,
        Put::Failed => Printed::Failed,
    }
}

// Appends the first line.
#[tactic(auto, unfolding(nq_script::specs::Words::joined, nq_script::specs::Words::line, crate::specs::Text::head_line))]
fn push_head(out: &mut Vec<u8>, version: u32) -> Result<(), NoMemory>
    ensures { OnOk result (out.new.items ≡ out.old.items ++ head_line version) }
{
    out.extend_from_slice(b"nqnfs-journal")?;
    push_numbers(out, &[u64::from(version)])?;
    out.push(b'\n')?;
    Ok(())
}

// Appends the last line.
#[tactic(auto, unfolding(nq_script::specs::Words::joined, nq_script::specs::Words::line, crate::specs::Text::end_line))]
fn push_end(out: &mut Vec<u8>) -> Result<(), NoMemory>
    ensures { OnOk result (out.new.items ≡ out.old.items ++ end_line) }
{
    out.extend_from_slice(b"end\n")?;
    Ok(())
}
