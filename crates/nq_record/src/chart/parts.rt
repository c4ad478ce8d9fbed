//! Text that is made of parts.

ghost use Rattle.std.specs.Fmt.{decimal};
ghost use Rattle.std.specs.Prelude.{◌≡◌, ◌++◌, IfOk, OnOk, string_bytes};
ghost use Rattle.std.specs.List.{flat_map};
ghost use Rattle.nq_record.specs.Page.{spelled};

use crate::chart::NoMemory;
use std::alloc::Global;

/// A part of a text.
#[derive(Clone, Copy)]
pub enum Part<'a> {
    /// Text, as it stands.
    Text(&'a str),
    /// A number, in decimals.
    Number(u64),
}

/// The text that parts make, one behind the other.
///
/// # Errors
///
/// Only want of memory.
pub fn text_of(alloc: Global, parts: &[Part]) -> Result<String, NoMemory>
    ensures { IfOk result (λ text. string_bytes text ≡ flat_map spelled parts.now) }
{
    let mut text = String::new(alloc);
    for part in parts {
        push_part(alloc, &mut text, part)?;
    }
    Ok(text)
}

/// Adds a part to a text.
fn push_part(alloc: Global, text: &mut String, part: &Part) -> Result<(), NoMemory>
    ensures { OnOk result (string_bytes text.new ≡ string_bytes text.old ++ spelled part.now) }
{
    match *part {
        Part::Text(words) => push_words(text, words),
        Part::Number(number) => push_number(alloc, text, number),
    }
}

/// Adds words to a text.
fn push_words(text: &mut String, words: &str) -> Result<(), NoMemory>
    ensures { OnOk result (string_bytes text.new ≡ string_bytes text.old ++ words.now) }
{
    text.push_str(words)?;
    Ok(())
}

/// Adds a number to a text, in decimals.
fn push_number(alloc: Global, text: &mut String, number: u64) -> Result<(), NoMemory>
    ensures { OnOk result (string_bytes text.new ≡ string_bytes text.old ++ decimal number) }
{
    let digits = format!(in alloc; "{number}")?;
    push_words(text, digits.as_str())
}
