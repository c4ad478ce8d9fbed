//! The words of an answer.

ghost use Rattle.std.specs.Prelude.{◌≡◌, ◌++◌, option_map, IfSome, IfOk};
ghost use Rattle.nq_base.specs.Plain.{plain_said};
ghost use Rattle.nq_script.specs.WordsReading.{Takes};
ghost use Rattle.nq_script.specs.ReadingAnswers.{span_of, lost_at, by_at, value_at, ok_at, bare_of, bare_at, said_at};
ghost use Rattle.nq_script.specs.Forms.{said_words, FitsSaid};

use crate::words::cursor::{WordCursor, cut, is, number32, number64};
use nq_base::{BlockNo, NoMemory, Number, Said, Span, Spans};
use std::alloc::Global;

// The span that a word spells.
#[tactic(auto, unfolding(crate::specs::ReadingAnswers::span_of))]
fn span_of(word: &[u8]) -> Option<Span>
    ensures { result ≡ span_of word.now }
{
    let (block, ends) = cut(word, b':')?;
    let (first, last) = cut(ends, b'-')?;
    let block = BlockNo(number32(block)?);
    let first = Number(number64(first)?);
    let last = Number(number64(last)?);
    Some(Span { block, first, last })
}

// Takes spans to the end of the line.
fn take_lost(alloc: Global, words: &mut WordCursor<'_>) -> Result<Option<Said>, NoMemory>
    ensures { IfOk result (λ said. Takes plain_said said words.new (lost_at words.old)) }
{
    let mut spans = Spans::new(alloc)?;
    while let Some(word) = words.next() {
        let Some(span) = span_of(word) else {
            return Ok(None);
        };
        spans.push(span)?;
    }
    Ok(Some(Said::Lost(spans)))
}

// Takes the packet that brought a value.
#[tactic(auto, unfolding(crate::specs::ReadingAnswers::by_at))]
fn take_by(words: &mut WordCursor<'_>, value: u32) -> Option<Said>
    ensures { Takes plain_said result words.new (by_at value words.old) }
{
    let by = words.next()?;
    let packet = words.u64()?;
    if is(by, b"by") {
        Some(Said::OkBy { value, packet })
    } else {
        None
    }
}

// Takes a value, and the packet that brought it, where one did.
#[tactic(auto, unfolding(crate::specs::ReadingAnswers::value_at))]
fn take_value(words: &mut WordCursor<'_>) -> Option<Said>
    ensures { Takes plain_said result words.new (value_at words.old) }
{
    let value = words.u32()?;
    if words.is_empty() {
        Some(Said::OkValue(value))
    } else {
        take_by(words, value)
    }
}

// Takes what stands behind the word `ok`.
#[tactic(auto, unfolding(crate::specs::ReadingAnswers::ok_at))]
fn take_ok(words: &mut WordCursor<'_>) -> Option<Said>
    ensures { Takes plain_said result words.new (ok_at words.old) }
{
    if words.is_empty() {
        Some(Said::Ok)
    } else {
        take_value(words)
    }
}

// The answer that a word alone spells.
#[tactic(auto, unfolding(crate::specs::ReadingAnswers::bare_of))]
fn bare_of(word: &[u8]) -> Option<Said>
    ensures { option_map plain_said result ≡ bare_of word.now }
{
    if is(word, b"busy") {
        Some(Said::Busy)
    } else if is(word, b"stale") {
        Some(Said::Stale)
    } else if is(word, b"noentry") {
        Some(Said::NoEntry)
    } else if is(word, b"exists") {
        Some(Said::Exists)
    } else if is(word, b"nospace") {
        Some(Said::NoSpace)
    } else if is(word, b"range") {
        Some(Said::Range)
    } else if is(word, b"dirtyfull") {
        Some(Said::DirtyFull)
    } else {
        None
    }
}

/// Takes the words of an answer.
pub fn take_said(alloc: Global, words: &mut WordCursor<'_>) -> Result<Option<Said>, NoMemory>
    ensures step { IfOk result (λ said. Takes plain_said said words.new (said_at words.old)) }
    ensures found { IfOk result (λ said. IfSome said (λ s. (words.old ≡ said_words s ++ words.new) × FitsSaid s)) }
{
    said_at(alloc, words)
}

// Takes the first word of an answer, and what follows it.
#[tactic(auto, unfolding(crate::specs::ReadingAnswers::said_at, crate::specs::ReadingAnswers::bare_at))]
fn said_at(alloc: Global, words: &mut WordCursor<'_>) -> Result<Option<Said>, NoMemory>
    ensures { IfOk result (λ said. Takes plain_said said words.new (said_at words.old)) }
{
    let Some(word) = words.next() else {
        return Ok(None);
    };
    if is(word, b"ok") {
        Ok(take_ok(words))
    } else if is(word, b"lost") {
        take_lost(alloc, words)
    } else {
        Ok(bare_of(word))
    }
}
