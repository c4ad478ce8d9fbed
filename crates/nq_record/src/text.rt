//! Text.

ghost use Rattle.std.specs.Prelude.{◌≡◌, string_bytes, IfOk};
ghost use Rattle.nq_record.specs.Page.{Extends};
ghost use Rattle.nq_record.specs.Words.{mode_word};

use crate::NoMemory;
use crate::chart::{Part, text_of};
use nq_base::{Mode, Name, Party};
use std::alloc::Global;
use std::str;

/// Appends a name behind a word.
pub(crate) fn named(alloc: Global, word: &str, name: &Name) -> Result<String, NoMemory>
    ensures { IfOk result (λ text. Extends word.now (string_bytes text)) }
{
    text_of(alloc, &[Part::Text(word), Part::Text(letters(name))])
}

/// The letters of a name, which are printable ASCII.
pub(crate) fn letters(name: &Name) -> &str {
    str::from_utf8(name.as_bytes()).unwrap_or("")
}

/// Words as a text of their own.
pub(crate) fn owned(alloc: Global, words: &str) -> Result<String, NoMemory>
    ensures { IfOk result (λ text. string_bytes text ≡ words.now) }
{
    Ok(String::from_str(alloc, words)?)
}

/// The word of a kind of lease.
pub(crate) fn mode_word(mode: Mode) -> &'static str
    ensures { result.now ≡ mode_word mode }
{
    match mode {
        Mode::NonCaching => "noncaching",
        Mode::Reading => "reading",
        Mode::Writing => "writing",
    }
}

/// The parts of the name of a party.
pub(crate) fn party_parts(party: Party) -> [Part<'static>; 2] {
    match party {
        Party::Server => [Part::Text("server"), Part::Text("")],
        Party::Client(host) => [Part::Text("host "), Part::Number(host.0 as u64)],
    }
}
