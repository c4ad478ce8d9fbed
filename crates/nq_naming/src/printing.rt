//! The lines of what was found.

ghost use Rattle.std.specs.Prelude.{◌≡◌, ◌++◌, OnOk};
ghost use Rattle.nq_naming.specs.Finding.{find_line, found_word};
ghost use Rattle.nq_script.specs.Words.{spaced};

use nq_base::{Host, Name, NoMemory};
use nq_directory::name_cache::Found;
use nq_script::words::{push_bytes, push_command, push_numbers, push_word};

/// Appends the line of a find behind so many inner events.
#[tactic(auto, unfolding(crate::specs::Finding::find_line, nq_script::specs::Words::line, nq_script::specs::Words::joined))]
pub(crate) fn push_find(
    text: &mut Vec<u8>,
    host: Host,
    name: &Name,
    events: u64,
    found: Found,
) -> Result<(), NoMemory>
    ensures { OnOk result (text.new.items ≡ text.old.items ++ find_line host name.now events found) }
{
    push_command(text, b"find", &[u64::from(host.0)])?;
    push_word(text, name.as_bytes())?;
    push_word(text, b"at")?;
    push_numbers(text, &[events])?;
    push_found(text, found)?;
    push_bytes(text, b"\n")
}

/// Appends the word of what was found, with the blank before it.
fn push_found(text: &mut Vec<u8>, found: Found) -> Result<(), NoMemory>
    ensures { OnOk result (text.new.items ≡ text.old.items ++ spaced (found_word found)) }
{
    match found {
        Found::File(file) => push_numbers(text, &[u64::from(file.0)]),
        Found::Absent => push_word(text, b"0"),
        Found::Unknown => push_word(text, b"none"),
    }
}
