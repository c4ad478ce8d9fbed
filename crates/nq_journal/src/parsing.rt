//! Parsing a journal's text.

ghost use Rattle.std.specs.Prelude.{◌≡◌, ◌≢◌, ℕ, List, IsNone, IfSome};
ghost use Rattle.nq_base.specs.declared.Entry.{Entry};
ghost use Rattle.nq_journal.specs.Fault.{IsFaultyAt, ended};
ghost use Rattle.nq_journal.specs.Parsing.{Parses, GivesEntries, GivesFault, ParsesRest};
ghost use Rattle.nq_journal.specs.Text.{IsVersion, IsText, head_line};
ghost use Rattle.nq_journal.specs.declared.parsing.JournalFault.TheVariants.{Memory};

use crate::read_entries::entry_of;
use nq_base::{Journal, NoMemory};
use nq_script::words::{cut, is};
use std::alloc::Global;

/// Why a text was not parsed.
#[derive(Clone, Copy)]
pub enum JournalFault {
    /// This line, counted from 1, is the first outside the grammar. The number stands still at `u32::MAX`.
    Line(u32),
    /// Memory is wanting.
    Memory,
}

impl From<NoMemory> for JournalFault {
    ghost from_gives = { λ _ error. error ≡ Memory };

    fn from(_: NoMemory) -> Self {
        JournalFault::Memory
    }
}

/// Parses a journal's text, of either version.
///
/// # Errors
///
/// `Line` exactly where the text is no journal's, with its first faulty line. A last line without its line feed is
/// faulty itself. A text that ends before its line `end` is faulty in the line that would follow, and one that goes on
/// behind it in the line behind it.
pub fn parse(alloc: Global, bytes: &[u8]) -> Result<Journal, JournalFault>
    // What is parsed is spelled so, and a fault is the text's first one.
    ensures parses { Parses bytes.now result }

    // What is spelled so is parsed, and a fault is found, unless memory is wanting.
    ensures only { (version : ℕ) (entries : List Entry) → IsText version entries bytes.now → GivesEntries entries result }
    ensures only_fault { (line : ℕ) → IsFaultyAt line bytes.now → GivesFault line result }
{
    parse_text(alloc, bytes)
}

// Parses a text.
fn parse_text(alloc: Global, bytes: &[u8]) -> Result<Journal, JournalFault>
    ensures { Parses bytes.now result }
{
    let Some((head, rest)) = cut(bytes, b'\n') else {
        return Err(JournalFault::Line(1));
    };
    let Some(version) = version_of(head) else {
        return Err(JournalFault::Line(1));
    };
    parse_rest(alloc, version, rest)
}

// The version that a first line names.
fn version_of(line: &[u8]) -> Option<u32>
    ensures found { IfSome result (λ version. IsVersion version × (ended line.now ≡ head_line version)) }
    ensures none { IsNone result → (version : ℕ) → IsVersion version → ended line.now ≢ head_line version }
{
    if is(line, b"nqnfs-journal 1") {
        Some(1)
    } else if is(line, b"nqnfs-journal 2") {
        Some(2)
    } else {
        None
    }
}

// Parses what stands behind the first line.
fn parse_rest(alloc: Global, version: u32, mut rest: &[u8]) -> Result<Journal, JournalFault>
    ensures { ParsesRest version rest.entry.now result }
{
    let mut journal = Journal::new(alloc)?;
    let mut number: u32 = 2;
    while let Some((line, after)) = cut(rest, b'\n') {
        if is(line, b"end") {
            if after.is_empty() {
                return Ok(journal);
            }
            return Err(JournalFault::Line(number.saturating_add(1)));
        }
        let Some(entry) = entry_of(alloc, version, line)? else {
            return Err(JournalFault::Line(number));
        };
        journal.push(entry)?;
        number = number.saturating_add(1);
        rest = after;
    }
    Err(JournalFault::Line(number))
}
