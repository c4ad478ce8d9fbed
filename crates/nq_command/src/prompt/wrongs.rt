//! What is wrong with a line at a prompt.

ghost use Rattle.std.specs.Prelude.{◌≡◌, option_map};
ghost use Rattle.nq_command.specs.Wrongs.{fields_of, first_wrong, wrong_of, wrong_said, wrong_word, wrong_words};

use nq_script::words::{WordCursor, is, name, number32};

/// What is wrong with a line.
#[derive(Clone, Copy)]
pub enum Wrong {
    /// No line begins with its first word.
    Verb,
    /// A word is missing.
    Few,
    /// There is a word too many.
    Many,
    /// A word stands for a name, and is none.
    Name,
    /// A word stands for a number, and is none below 2^32.
    Number,
}

/// What a word of a line stands for.
#[derive(Clone, Copy)]
pub(crate) enum Field {
    /// The name of a file of the server.
    Name,
    /// A number below 2^32.
    Number,
    /// A file of this machine.
    Path,
}

/// What stands behind a verb; None where no line begins with it.
#[tactic(auto, unfolding(crate::specs::Wrongs::fields_of))]
fn fields_of(verb: &[u8]) -> Option<&'static [Field]>
    ensures { option_map (λ fields. fields.now) result ≡ fields_of verb.now }
{
    if is(verb, b"create") {
        Some(&[Field::Name, Field::Number])
    } else if is(verb, b"lookup") {
        Some(&[Field::Name])
    } else if is(verb, b"attr") {
        Some(&[Field::Number])
    } else if is(verb, b"read") {
        Some(&[Field::Number, Field::Number])
    } else if is(verb, b"fetch") {
        Some(&[Field::Number, Field::Number])
    } else if is(verb, b"write") {
        Some(&[Field::Number, Field::Number, Field::Number])
    } else if is(verb, b"put") {
        Some(&[Field::Number, Field::Number, Field::Number])
    } else if is(verb, b"sync") {
        Some(&[Field::Number])
    } else if is(verb, b"resize") {
        Some(&[Field::Number, Field::Number])
    } else if is(verb, b"remove") {
        Some(&[Field::Number])
    } else if is(verb, b"store") {
        Some(&[Field::Path, Field::Name])
    } else if is(verb, b"get") {
        Some(&[Field::Name, Field::Path])
    } else if is(verb, b"help") {
        Some(&[])
    } else if is(verb, b"quit") {
        Some(&[])
    } else if is(verb, b"end") {
        Some(&[])
    } else {
        None
    }
}

/// What is wrong with a word that stands for this, if anything is.
#[tactic(auto, unfolding(crate::specs::Wrongs::wrong_word))]
fn wrong_word(field: Field, word: &[u8]) -> Option<Wrong>
    ensures { result ≡ wrong_word field word.now }
{
    match field {
        Field::Name if name(word).is_none() => Some(Wrong::Name),
        Field::Number if number32(word).is_none() => Some(Wrong::Number),
        _ => None,
    }
}

/// What is wrong with a line, if anything is: from the left a verb that none begins with, a word of another kind, one that is missing, one
/// too many. One blank stands between two words.
pub fn wrong_of(text: &[u8]) -> Option<Wrong>
    ensures { result ≡ wrong_of text.now }
{
    let mut words = WordCursor::new(text);
    let Some(verb) = words.next() else {
        return Some(Wrong::Verb);
    };
    match fields_of(verb) {
        Some(fields) => wrong_words(fields, &mut words),
        None => Some(Wrong::Verb),
    }
}

/// What is wrong with the words behind a verb.
#[tactic(auto, unfolding(crate::specs::Wrongs::wrong_words))]
fn wrong_words(fields: &[Field], words: &mut WordCursor<'_>) -> Option<Wrong>
    ensures { result ≡ wrong_words fields.now words.old }
{
    for field in fields {
        let Some(word) = words.next() else {
            return Some(Wrong::Few);
        };
        if let Some(wrong) = wrong_word(*field, word) {
            return Some(wrong);
        }
    }
    if words.is_empty() {
        None
    } else {
        Some(Wrong::Many)
    }
}
