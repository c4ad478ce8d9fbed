//! Delayed writes that were lost, in words.

ghost use Rattle.std.specs.Prelude.{◌≡◌, ◌++◌, IfOk, OnOk};
ghost use Rattle.nq_calling.specs.Losses.{loss_words, lost_text, lost_words};

use nq_base::{BlockNo, Entry, FileId, Journal, NoMemory};
use nq_script::words::{push_bytes, push_digits};
use std::alloc::Global;

/// The delayed writes that a journal tells as lost, each with its file and its block, in the order of the journal.
///
/// # Errors
///
/// Only want of memory.
pub fn lost_text(alloc: Global, journal: &Journal) -> Result<Vec<u8>, NoMemory>
    ensures { IfOk result (λ text. text.items ≡ lost_text journal.now.entries) }
{
    let mut text = Vec::new(alloc);
    for entry in journal.entries() {
        push_lost(&mut text, entry)?;
    }
    Ok(text)
}

/// Appends what an entry tells as lost.
fn push_lost(out: &mut Vec<u8>, entry: &Entry) -> Result<(), NoMemory>
    ensures { OnOk result (out.new.items ≡ out.old.items ++ lost_words entry.now) }
{
    match entry {
        Entry::L { file, block, .. } => push_loss(out, *file, *block),
        _ => Ok(()),
    }
}

/// Appends the file and the block of a loss.
fn push_loss(out: &mut Vec<u8>, file: FileId, block: BlockNo) -> Result<(), NoMemory>
    ensures { OnOk result (out.new.items ≡ out.old.items ++ loss_words file block) }
{
    push_bytes(out, b" (file ")?;
    push_digits(out, u64::from(file.0))?;
    push_bytes(out, b", block ")?;
    push_digits(out, u64::from(block.0))?;
    push_bytes(out, b")")
}
