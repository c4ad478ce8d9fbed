//! Writing words.

ghost use Rattle.std.specs.Prelude.{◌≡◌, ◌<◌, ◌^◌, ◌∷◌, ◌++◌, All, map, codes, OnOk};
ghost use Rattle.std.specs.Fmt.{decimal};
ghost use Rattle.std.specs.List.{AllByRecursion, flat_map};
ghost use Rattle.nq_script.specs.Forms.{FitsSpan, FitsTold, FitsSaid, span_word, told_words, said_words};
ghost use Rattle.nq_script.specs.Words.{joined, spaced};

use itoa::Buffer;
use nq_base::{BlockNo, FileId, NoMemory, Said, Span, Spans, Told};

/// Appends the digits of a number.
pub fn push_digits(out: &mut Vec<u8>, number: u64) -> Result<(), NoMemory>
    ensures { OnOk result (out.new.items ≡ out.old.items ++ decimal number) }
{
    let mut digits = Buffer::new();
    out.extend_from_slice(digits.format(number).as_bytes())?;
    Ok(())
}

/// Appends bytes.
pub fn push_bytes(out: &mut Vec<u8>, bytes: &[u8]) -> Result<(), NoMemory>
    ensures { OnOk result (out.new.items ≡ out.old.items ++ bytes.now) }
{
    out.extend_from_slice(bytes)?;
    Ok(())
}

/// Appends a word with the blank before it.
pub fn push_word(out: &mut Vec<u8>, word: &[u8]) -> Result<(), NoMemory>
    ensures { OnOk result (out.new.items ≡ out.old.items ++ spaced word.now) }
{
    out.push(b' ')?;
    out.extend_from_slice(word)?;
    Ok(())
}

/// Appends numbers, each as a word with the blank before it.
pub fn push_numbers(out: &mut Vec<u8>, numbers: &[u64]) -> Result<(), NoMemory>
    ensures written { OnOk result (out.new.items ≡ out.old.items ++ flat_map (λ n. spaced (decimal n)) numbers.now) }
    ensures fit { AllByRecursion (λ n. n < 2 ^ 64) numbers.now }
{
    for number in numbers {
        out.push(b' ')?;
        push_digits(out, *number)?;
    }
    Ok(())
}

/// Appends a word, and numbers with a blank before each.
pub fn push_command(out: &mut Vec<u8>, first: &[u8], numbers: &[u64]) -> Result<(), NoMemory>
    ensures { OnOk result (out.new.items ≡ out.old.items ++ (first.now ++ flat_map (λ n. spaced (decimal n)) numbers.now)) }
{
    push_bytes(out, first)?;
    push_numbers(out, numbers)
}

// Appends a word, a file and a block.
fn push_place(out: &mut Vec<u8>, first: &[u8], file: FileId, block: BlockNo) -> Result<(), NoMemory>
    ensures written { OnOk result (out.new.items ≡ out.old.items ++ (first.now ++ (spaced (decimal file) ++ spaced (decimal block)))) }
    ensures fits { OnOk result ((file < 2 ^ 32) × (block < 2 ^ 32)) }
{
    push_command(out, first, &[u64::from(file.0), u64::from(block.0)])
}

/// Appends the words of a call.
#[tactic(auto, unfolding(crate::specs::Words::joined))]
pub fn push_told(out: &mut Vec<u8>, told: &Told) -> Result<(), NoMemory>
    ensures written { OnOk result (out.new.items ≡ out.old.items ++ joined (told_words told.now)) }
    ensures fits { OnOk result (FitsTold told.now) }
{
    match told {
        Told::Create { name, blocks } => {
            push_bytes(out, b"create")?;
            push_word(out, name.as_bytes())?;
            push_numbers(out, &[u64::from(*blocks)])
        }
        Told::Lookup { name } => {
            push_bytes(out, b"lookup")?;
            push_word(out, name.as_bytes())
        }
        Told::Attr { file } => push_command(out, b"attr", &[u64::from(file.0)]),
        Told::Read { file, block } => push_place(out, b"read", *file, *block),
        Told::Fetch { file, block } => push_place(out, b"fetch", *file, *block),
        Told::Write { file, block, value } => push_command(
            out,
            b"write",
            &[u64::from(file.0), u64::from(block.0), u64::from(*value)],
        ),
        Told::Put { file, block, value } => push_command(
            out,
            b"put",
            &[u64::from(file.0), u64::from(block.0), u64::from(*value)],
        ),
        Told::Sync { file } => push_command(out, b"sync", &[u64::from(file.0)]),
        Told::Resize { file, blocks } => push_command(
            out,
            b"resize",
            &[u64::from(file.0), u64::from(*blocks)],
        ),
        Told::Remove { file } => push_command(out, b"remove", &[u64::from(file.0)]),
    }
}

// Appends the word of a span with the blank before it.
#[tactic(auto, unfolding(crate::specs::Forms::span_word))]
fn push_span(out: &mut Vec<u8>, span: &Span) -> Result<(), NoMemory>
    ensures written { OnOk result (out.new.items ≡ out.old.items ++ spaced (span_word span.now)) }
    ensures fits { OnOk result (FitsSpan span.now) }
{
    out.push(b' ')?;
    push_digits(out, u64::from(span.block.0))?;
    out.push(b':')?;
    push_digits(out, span.first.0)?;
    out.push(b'-')?;
    push_digits(out, span.last.0)
}

// Appends the words of spans, each with the blank before it.
fn push_spans(out: &mut Vec<u8>, spans: &Spans) -> Result<(), NoMemory>
    ensures written { OnOk result (out.new.items ≡ out.old.items ++ flat_map spaced (map span_word spans.now.items)) }
    ensures fits { OnOk result (All FitsSpan spans.now.items) }
{
    for place in 0..spans.len() {
        if let Some(found) = spans.get(place) {
            push_span(out, &found)?;
        }
    }
    Ok(())
}

/// Appends the words of an answer.
#[tactic(auto, unfolding(crate::specs::Words::joined))]
pub fn push_said(out: &mut Vec<u8>, said: &Said) -> Result<(), NoMemory>
    ensures written { OnOk result (out.new.items ≡ out.old.items ++ joined (said_words said.now)) }
    ensures fits { OnOk result (FitsSaid said.now) }
{
    match said {
        Said::Ok => push_bytes(out, b"ok"),
        Said::OkValue(value) => push_command(out, b"ok", &[u64::from(*value)]),
        Said::OkBy { value, packet } => {
            push_command(out, b"ok", &[u64::from(*value)])?;
            push_word(out, b"by")?;
            push_numbers(out, &[*packet])
        }
        Said::Lost(lost) => {
            push_bytes(out, b"lost")?;
            push_spans(out, lost)
        }
        Said::Busy => push_bytes(out, b"busy"),
        Said::Stale => push_bytes(out, b"stale"),
        Said::NoEntry => push_bytes(out, b"noentry"),
        Said::Exists => push_bytes(out, b"exists"),
        Said::NoSpace => push_bytes(out, b"nospace"),
        Said::Range => push_bytes(out, b"range"),
        Said::DirtyFull => push_bytes(out, b"dirtyfull"),
    }
}
