//! The lines of asks and answers.

ghost use Rattle.std.specs.Prelude.{◌≡◌, ◌<◌, ◌^◌, ◌++◌, ◌∷◌, ℕ, List, Some, IfSome, OnOk, option_map};
ghost use Rattle.nq_asks.specs.Lines.{answer_line, answer_told, ask_line, kind_of, kind_then, kind_word};
ghost use Rattle.nq_asks.specs.declared.lines.AnswerKind.{AnswerKind};
ghost use Rattle.nq_script.specs.Reading.{number_then};

use nq_base::NoMemory;
use nq_script::words::{cut, is, number32, push_bytes, push_digits};

/// The kind of a line that a host sends.
#[derive(Clone, Copy)]
pub enum AnswerKind {
    /// It was done; the words say what came.
    Done,
    /// It was refused; the words say why.
    Refused,
    /// It was done; the words say how many bytes follow the line.
    Bytes,
    /// The answer comes later; the words say what the host has to tell meanwhile.
    Note,
    /// The answer comes later; the words say why.
    Wait,
}

/// Appends the line of an ask, without an end of line.
///
/// # Errors
///
/// Only want of memory.
pub fn push_ask(out: &mut Vec<u8>, number: u32, text: &[u8]) -> Result<(), NoMemory>
    ensures { OnOk result (out.new.items ≡ out.old.items ++ ask_line number text.now) }
{
    push_digits(out, u64::from(number))?;
    out.push(b' ')?;
    push_bytes(out, text)
}

/// The number and the words of an ask; None where a line is none.
pub fn ask_in(line: &[u8]) -> Option<(u32, &[u8])>
    ensures is { option_map (λ r. (r.0, r.1.now)) result ≡ number_then line.now }
    ensures found { IfSome result (λ r. line.now ≡ ask_line r.0 r.1.now) }
    ensures only { (number : ℕ) (text : List ℕ) → number < 2 ^ 32 → line.now ≡ ask_line number text
        → number_then line.now ≡ Some (number, text) }
{
    numbered(line)
}

/// The number before the first blank, and what stands behind it.
#[tactic(auto, unfolding(nq_script::specs::Reading::number_then))]
fn numbered(line: &[u8]) -> Option<(u32, &[u8])>
    ensures { option_map (λ r. (r.0, r.1.now)) result ≡ number_then line.now }
{
    let (word, rest) = cut(line, b' ')?;
    let value = number32(word)?;
    Some((value, rest))
}

/// The word of a kind.
fn kind_word(kind: AnswerKind) -> &'static [u8]
    ensures { result.now ≡ kind_word kind }
{
    match kind {
        AnswerKind::Done => b"ok",
        AnswerKind::Refused => b"no",
        AnswerKind::Bytes => b"bytes",
        AnswerKind::Note => b"note",
        AnswerKind::Wait => b"wait",
    }
}

/// The kind that a word tells.
#[tactic(auto, unfolding(crate::specs::Lines::kind_of))]
fn kind_of(word: &[u8]) -> Option<AnswerKind>
    ensures { result ≡ kind_of word.now }
{
    if is(word, b"ok") {
        Some(AnswerKind::Done)
    } else if is(word, b"no") {
        Some(AnswerKind::Refused)
    } else if is(word, b"bytes") {
        Some(AnswerKind::Bytes)
    } else if is(word, b"note") {
        Some(AnswerKind::Note)
    } else if is(word, b"wait") {
        Some(AnswerKind::Wait)
    } else {
        None
    }
}

/// Appends the line of an answer, without an end of line.
///
/// # Errors
///
/// Only want of memory.
pub fn push_answer(
    out: &mut Vec<u8>,
    number: u32,
    kind: AnswerKind,
    text: &[u8],
) -> Result<(), NoMemory>
    ensures { OnOk result (out.new.items ≡ out.old.items ++ answer_line number kind text.now) }
{
    push_digits(out, u64::from(number))?;
    out.push(b' ')?;
    push_bytes(out, kind_word(kind))?;
    out.push(b' ')?;
    push_bytes(out, text)
}

/// The number of the ask that a line answers, its kind and its words; None where a line is no answer.
pub fn answer_in(line: &[u8]) -> Option<(u32, AnswerKind, &[u8])>
    ensures is { option_map (λ r. (r.0, (r.1, r.2.now))) result ≡ answer_told line.now }
    ensures found { IfSome result (λ r. line.now ≡ answer_line r.0 r.1 r.2.now) }
    ensures only { (number : ℕ) (kind : AnswerKind) (text : List ℕ) → number < 2 ^ 32 → line.now ≡ answer_line number kind text
        → answer_told line.now ≡ Some (number, (kind, text)) }
{
    answered(line)
}

/// The answer that a line tells.
#[tactic(auto, unfolding(crate::specs::Lines::answer_told, crate::specs::Lines::kind_then))]
fn answered(line: &[u8]) -> Option<(u32, AnswerKind, &[u8])>
    ensures { option_map (λ r. (r.0, (r.1, r.2.now))) result ≡ answer_told line.now }
{
    let (number, rest) = numbered(line)?;
    let (word, text) = cut(rest, b' ')?;
    let kind = kind_of(word)?;
    Some((number, kind, text))
}
