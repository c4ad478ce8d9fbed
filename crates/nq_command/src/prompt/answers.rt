//! Answers in words.

ghost use Rattle.std.specs.Fmt.{decimal};
ghost use Rattle.std.specs.Prelude.{◌≡◌, ◌<◌, ◌++◌, IfOk, IfSome, OnOk, length, slice_get};
ghost use Rattle.nq_command.specs.Answers.{answer_words, loss_words, lost_words, reason_of, value_words};

use nq_base::{Answer, Losses, NoMemory, Value};
use nq_script::words::{push_bytes, push_digits};
use std::alloc::Global;

/// An answer in words, without an end of line: its first word is that of a journal, and the reason stands behind it.
///
/// # Errors
///
/// Only want of memory.
pub fn answer_text(alloc: Global, answer: &Answer) -> Result<Vec<u8>, NoMemory>
    ensures { IfOk result (λ text. text.items ≡ answer_words answer.now) }
{
    let mut text = Vec::new(alloc);
    push_answer(&mut text, answer)?;
    Ok(text)
}

/// Appends an answer in words.
fn push_answer(out: &mut Vec<u8>, answer: &Answer) -> Result<(), NoMemory>
    ensures { OnOk result (out.new.items ≡ out.old.items ++ answer_words answer.now) }
{
    match answer {
        Answer::Ok(value) => push_value(out, value),
        Answer::Lost(losses) => push_losses(out, losses),
        refusal => push_bytes(out, reason(refusal)),
    }
}

/// Appends what an answer brings.
fn push_value(out: &mut Vec<u8>, value: &Value) -> Result<(), NoMemory>
    ensures { OnOk result (out.new.items ≡ out.old.items ++ value_words value.now) }
{
    match value {
        Value::Nothing => push_bytes(out, b"ok"),
        Value::File(file) => push_number(out, b"ok, file ", u64::from(file.0)),
        Value::Blocks(blocks) => push_number(out, b"ok, blocks ", u64::from(*blocks)),
        Value::Body(body) => push_number(out, b"ok, value ", u64::from(body.value())),
    }
}

/// Appends words and a number.
fn push_number(out: &mut Vec<u8>, words: &[u8], number: u64) -> Result<(), NoMemory>
    ensures { OnOk result (out.new.items ≡ out.old.items ++ (words.now ++ decimal number)) }
{
    push_bytes(out, words)?;
    push_digits(out, number)
}

/// Appends which blocks' delayed writes were lost.
fn push_losses(out: &mut Vec<u8>, losses: &Losses) -> Result<(), NoMemory>
    ensures { OnOk result (out.new.items ≡ out.old.items ++ lost_words losses.now.items) }
{
    push_bytes(out, b"lost: delayed writes came too late, of block")?;
    for place in 0..losses.len() {
        push_loss(out, losses, place)?;
    }
    Ok(())
}

/// Appends which block's delayed writes a loss tells.
fn push_loss(out: &mut Vec<u8>, losses: &Losses, place: usize) -> Result<(), NoMemory>
    requires { place < length losses.now.items }
    ensures { OnOk result (IfSome (slice_get losses.now.items place) (λ loss. out.new.items ≡ out.old.items ++ loss_words loss)) }
{
    match losses.get(place) {
        Some(loss) => push_number(out, b" ", u64::from(loss.block.0)),
        None => unreachable!(),
    }
}

/// The reason of a refusal.
fn reason(answer: &Answer) -> &'static [u8]
    ensures { result.now ≡ reason_of answer.now }
{
    match answer {
        Answer::Ok(_) | Answer::Lost(_) => b"",
        Answer::Pending => b"pending: the answer comes later",
        Answer::Busy => b"busy: another call is under way",
        Answer::Stale => b"stale: no such file is kept",
        Answer::NoEntry => b"noentry: no file has this name",
        Answer::Exists => b"exists: a file has this name",
        Answer::NoSpace => b"nospace: the server has no room for so much",
        Answer::Range => b"range: the file has no such block, or cannot have this length",
        Answer::DirtyFull => b"dirtyfull: no room for another delayed write",
        Answer::Memory => b"memory: memory was wanting",
        Answer::Spent => b"spent: this start takes in no more",
    }
}
