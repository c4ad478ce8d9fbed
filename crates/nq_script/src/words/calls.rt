//! The words of a call.

ghost use Rattle.std.specs.Prelude.{◌≡◌, ◌↔◌, ◌++◌, Some, IfSome, IsTrue};
ghost use Rattle.nq_base.specs.declared.Told.{Told};
ghost use Rattle.nq_script.specs.WordsReading.{Takes, words_of};
ghost use Rattle.nq_script.specs.ReadingCalls.{create_at, has_told, put_at, resize_at, told_at, told_by, told_in, verb_of, write_at};
ghost use Rattle.nq_script.specs.Forms.{told_words, FitsTold, HasTold, SpellsTold};

use crate::words::cursor::{WordCursor, is};
use nq_base::{FileId, Told};

// What a call asks for.
#[derive(Clone, Copy)]
enum Verb {
    Create,
    Lookup,
    Attr,
    Read,
    Fetch,
    Write,
    Put,
    Sync,
    Resize,
    Remove,
}

// What a word asks for.
#[tactic(auto, unfolding(crate::specs::ReadingCalls::verb_of))]
fn verb_of(word: &[u8]) -> Option<Verb>
    ensures { result ≡ verb_of word.now }
{
    if is(word, b"create") {
        Some(Verb::Create)
    } else if is(word, b"lookup") {
        Some(Verb::Lookup)
    } else if is(word, b"attr") {
        Some(Verb::Attr)
    } else if is(word, b"read") {
        Some(Verb::Read)
    } else if is(word, b"fetch") {
        Some(Verb::Fetch)
    } else if is(word, b"write") {
        Some(Verb::Write)
    } else if is(word, b"put") {
        Some(Verb::Put)
    } else if is(word, b"sync") {
        Some(Verb::Sync)
    } else if is(word, b"resize") {
        Some(Verb::Resize)
    } else if is(word, b"remove") {
        Some(Verb::Remove)
    } else {
        None
    }
}

/// Takes the words of a call.
pub fn take_told(words: &mut WordCursor<'_>) -> Option<Told>
    ensures step { Takes (λ told. told) result words.new (told_at words.old) }
    ensures found { IfSome result (λ told. (words.old ≡ told_words told ++ words.new) × FitsTold told) }
{
    told_at(words)
}

// Takes a verb, and what it names.
#[tactic(auto, unfolding(crate::specs::ReadingCalls::told_at))]
fn told_at(words: &mut WordCursor<'_>) -> Option<Told>
    ensures { Takes (λ told. told) result words.new (told_at words.old) }
{
    let verb = verb_of(words.next()?)?;
    take_asked(words, verb)
}

// Takes what such a call names.
#[tactic(auto, unfolding(crate::specs::ReadingCalls::lookup_at, crate::specs::ReadingCalls::attr_at, crate::specs::ReadingCalls::read_at, crate::specs::ReadingCalls::fetch_at, crate::specs::ReadingCalls::sync_at, crate::specs::ReadingCalls::remove_at))]
fn take_asked(words: &mut WordCursor<'_>, verb: Verb) -> Option<Told>
    ensures { Takes (λ told. told) result words.new (told_by verb words.old) }
{
    match verb {
        Verb::Create => take_create(words),
        Verb::Lookup => {
            let name = words.name()?;
            Some(Told::Lookup { name })
        }
        Verb::Attr => {
            let file = FileId(words.u32()?);
            Some(Told::Attr { file })
        }
        Verb::Read => {
            let (file, block) = words.place()?;
            Some(Told::Read { file, block })
        }
        Verb::Fetch => {
            let (file, block) = words.place()?;
            Some(Told::Fetch { file, block })
        }
        Verb::Write => take_write(words),
        Verb::Put => take_put(words),
        Verb::Sync => {
            let file = FileId(words.u32()?);
            Some(Told::Sync { file })
        }
        Verb::Resize => take_resize(words),
        Verb::Remove => {
            let file = FileId(words.u32()?);
            Some(Told::Remove { file })
        }
    }
}

// Takes what `create` names.
#[tactic(auto, unfolding(crate::specs::ReadingCalls::create_at))]
fn take_create(words: &mut WordCursor<'_>) -> Option<Told>
    ensures { Takes (λ told. told) result words.new (create_at words.old) }
{
    let name = words.name()?;
    let blocks = words.u32()?;
    Some(Told::Create { name, blocks })
}

// Takes what `write` names.
#[tactic(auto, unfolding(crate::specs::ReadingCalls::write_at))]
fn take_write(words: &mut WordCursor<'_>) -> Option<Told>
    ensures { Takes (λ told. told) result words.new (write_at words.old) }
{
    let (file, block) = words.place()?;
    let value = words.u32()?;
    Some(Told::Write { file, block, value })
}

// Takes what `put` names.
#[tactic(auto, unfolding(crate::specs::ReadingCalls::put_at))]
fn take_put(words: &mut WordCursor<'_>) -> Option<Told>
    ensures { Takes (λ told. told) result words.new (put_at words.old) }
{
    let (file, block) = words.place()?;
    let value = words.u32()?;
    Some(Told::Put { file, block, value })
}

// Takes what `resize` names.
#[tactic(auto, unfolding(crate::specs::ReadingCalls::resize_at))]
fn take_resize(words: &mut WordCursor<'_>) -> Option<Told>
    ensures { Takes (λ told. told) result words.new (resize_at words.old) }
{
    let file = FileId(words.u32()?);
    let blocks = words.u32()?;
    Some(Told::Resize { file, blocks })
}

/// Whether a version has a call: version 1 has no `resize` and no `remove`.
pub fn has_told(version: u32, told: &Told) -> bool
    ensures test { result ≡ has_told version told.now }
    ensures has { IsTrue result ↔ HasTold version told.now }
{
    match told {
        Told::Resize { .. } | Told::Remove { .. } => version == 2,
        _ => true,
    }
}

/// The call that a text spells in a version; None where it spells none.
pub fn read_told(text: &[u8], version: u32) -> Option<Told>
    ensures step { result ≡ told_in version (words_of text.now) }
    ensures found { IfSome result (λ told. SpellsTold version told text.now) }
    ensures only { (told : Told) → SpellsTold version told text.now → result ≡ Some told }
{
    told_in(text, version)
}

// The call that all the words of a text tell.
#[tactic(auto, unfolding(crate::specs::ReadingCalls::told_in))]
fn told_in(text: &[u8], version: u32) -> Option<Told>
    ensures { result ≡ told_in version (words_of text.now) }
{
    let mut words = WordCursor::new(text);
    let told = take_told(&mut words)?;
    if words.is_empty() && has_told(version, &told) {
        Some(told)
    } else {
        None
    }
}
