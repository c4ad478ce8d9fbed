//! Writing the entries of a journal, a line each.

ghost use Rattle.std.specs.Prelude.{◌≡◌, ◌<◌, ◌^◌, ℕ, [], ◌++◌, true, OnOk};
ghost use Rattle.std.specs.Fmt.{decimal};
ghost use Rattle.std.specs.List.{AllByRecursion, flat_map};
ghost use Rattle.nq_script.specs.Words.{joined, spaced};
ghost use Rattle.nq_journal.specs.Groups.{is_of_block, is_of_call, is_of_lease, is_of_span, is_of_start};
ghost use Rattle.nq_journal.specs.Text.{Fits, FitsSource, entry_words, entry_line, of_who, way_word, mode_word, source_words, longest_words};
ghost use Rattle.nq_script.specs.Forms.{FitsWho, FitsTold, FitsSaid, told_words, said_words};

use nq_base::{Entry, Mode, NoMemory, Said, Told, Who};
use nq_script::words::{push_bytes, push_command, push_numbers, push_said, push_told, push_word};

// Appends the letter of a line, the incarnation of which it tells, and numbers with a blank before each.
fn push_of_who(out: &mut Vec<u8>, letter: &[u8], who: &Who, numbers: &[u64]) -> Result<(), NoMemory>
    ensures written { OnOk result (out.new.items ≡ out.old.items
        ++ (letter.now ++ (spaced (decimal who.now.host) ++ (spaced (decimal who.now.inc) ++ flat_map (λ n. spaced (decimal n)) numbers.now)))) }
    ensures fits { FitsWho who.now }
    ensures fit { AllByRecursion (λ n. n < 2 ^ 64) numbers.now }
{
    push_command(out, letter, &[u64::from(who.host.0), u64::from(who.inc.0)])?;
    push_numbers(out, numbers)
}

// The word of a write's way.
fn way_name(through: bool) -> &'static [u8]
    ensures { result.now ≡ way_word through }
{
    if through { b"through" } else { b"delayed" }
}

// The word of a mode.
fn mode_name(mode: Mode) -> &'static [u8]
    ensures { result.now ≡ mode_word mode }
{
    match mode {
        Mode::NonCaching => b"noncaching",
        Mode::Reading => b"reading",
        Mode::Writing => b"writing",
    }
}

// Appends the words of a read's source.
fn push_source(out: &mut Vec<u8>, served: Option<u64>) -> Result<(), NoMemory>
    ensures written { OnOk result (out.new.items ≡ out.old.items ++ flat_map spaced (source_words served)) }
    ensures fits { OnOk result (FitsSource served) }
{
    match served {
        None => push_word(out, b"cached"),
        Some(packet) => {
            push_word(out, b"served")?;
            push_numbers(out, &[packet])
        }
    }
}

// Appends the longest term, where the version tells it.
fn push_longest(out: &mut Vec<u8>, version: u32, longest: u32) -> Result<(), NoMemory>
    ensures { OnOk result (out.new.items ≡ out.old.items ++ flat_map spaced (longest_words version longest)) }
{
    if version == 2 {
        push_numbers(out, &[u64::from(longest)])?;
    }
    Ok(())
}

// Appends the words of a call, each with the blank before it.
fn push_call(out: &mut Vec<u8>, told: &Told) -> Result<(), NoMemory>
    ensures written { OnOk result (out.new.items ≡ out.old.items ++ flat_map spaced (told_words told.now)) }
    ensures fits { OnOk result (FitsTold told.now) }
{
    push_bytes(out, b" ")?;
    push_told(out, told)
}

// Appends the words of an answer, each with the blank before it.
fn push_answer(out: &mut Vec<u8>, said: &Said) -> Result<(), NoMemory>
    ensures written { OnOk result (out.new.items ≡ out.old.items ++ flat_map spaced (said_words said.now)) }
    ensures fits { OnOk result (FitsSaid said.now) }
{
    push_bytes(out, b" ")?;
    push_said(out, said)
}

// Appends the words of an entry of a call.
#[tactic(auto, unfolding(nq_script::specs::Words::joined))]
fn push_of_call(out: &mut Vec<u8>, entry: &Entry) -> Result<(), NoMemory>
    requires { is_of_call entry.now ≡ true }
    ensures written { (version : ℕ) → OnOk result (out.new.items ≡ out.old.items ++ joined (entry_words version entry.now)) }
    ensures fits { OnOk result (Fits entry.now) }
{
    match entry {
        Entry::C { who, q, told } => {
            push_of_who(out, b"C", who, &[*q])?;
            push_call(out, &told.told())
        }
        Entry::Z {
            who,
            q,
            file,
            from,
            to,
        } => push_of_who(
            out,
            b"Z",
            who,
            &[*q, u64::from(file.0), u64::from(*from), u64::from(*to)],
        ),
        Entry::A { who, q, said } => {
            push_of_who(out, b"A", who, &[*q])?;
            push_answer(out, said)
        }
        _ => Ok(()),
    }
}

// Appends the words of a write or a read.
#[tactic(auto, unfolding(nq_script::specs::Words::joined))]
fn push_of_block(out: &mut Vec<u8>, entry: &Entry) -> Result<(), NoMemory>
    requires { is_of_block entry.now ≡ true }
    ensures written { (version : ℕ) → OnOk result (out.new.items ≡ out.old.items ++ joined (entry_words version entry.now)) }
    ensures fits { OnOk result (Fits entry.now) }
{
    match entry {
        Entry::W {
            who,
            file,
            block,
            number,
            value,
            through,
        } => {
            push_of_who(
                out,
                b"W",
                who,
                &[
                    u64::from(file.0),
                    u64::from(block.0),
                    number.0,
                    u64::from(*value),
                ],
            )?;
            push_word(out, way_name(*through))
        }
        Entry::R {
            who,
            q,
            file,
            block,
            value,
            served,
        } => {
            push_of_who(
                out,
                b"R",
                who,
                &[*q, u64::from(file.0), u64::from(block.0), u64::from(*value)],
            )?;
            push_source(out, *served)
        }
        _ => Ok(()),
    }
}

// Appends the words of delayed writes that were stored or lost.
#[tactic(auto, unfolding(nq_script::specs::Words::joined))]
fn push_of_span(out: &mut Vec<u8>, entry: &Entry) -> Result<(), NoMemory>
    requires { is_of_span entry.now ≡ true }
    ensures written { (version : ℕ) → OnOk result (out.new.items ≡ out.old.items ++ joined (entry_words version entry.now)) }
    ensures fits { OnOk result (Fits entry.now) }
{
    match entry {
        Entry::S {
            who,
            file,
            block,
            first,
            last,
            now,
        } => push_of_who(
            out,
            b"S",
            who,
            &[
                u64::from(file.0),
                u64::from(block.0),
                first.0,
                last.0,
                now.0,
            ],
        ),
        Entry::L {
            who,
            file,
            block,
            first,
            last,
        } => push_of_who(
            out,
            b"L",
            who,
            &[u64::from(file.0), u64::from(block.0), first.0, last.0],
        ),
        _ => Ok(()),
    }
}

// Appends the words of a grant, or of a lease that ended in silence.
#[tactic(auto, unfolding(nq_script::specs::Words::joined))]
fn push_of_lease(out: &mut Vec<u8>, entry: &Entry) -> Result<(), NoMemory>
    requires { is_of_lease entry.now ≡ true }
    ensures written { (version : ℕ) → OnOk result (out.new.items ≡ out.old.items ++ joined (entry_words version entry.now)) }
    ensures fits { OnOk result (Fits entry.now) }
{
    match entry {
        Entry::G {
            who,
            file,
            mode,
            tag,
            term,
            now,
        } => {
            push_of_who(out, b"G", who, &[u64::from(file.0)])?;
            push_word(out, mode_name(*mode))?;
            push_numbers(
                out,
                &[u64::from(tag.boot), tag.number, u64::from(*term), now.0],
            )
        }
        Entry::F {
            who,
            file,
            until,
            heard,
            now,
        } => push_of_who(
            out,
            b"F",
            who,
            &[u64::from(file.0), until.0, heard.0, now.0],
        ),
        _ => Ok(()),
    }
}

// Appends the words of a beginning, or of the end of a recovery.
#[tactic(auto, unfolding(nq_script::specs::Words::joined))]
fn push_of_start(out: &mut Vec<u8>, version: u32, entry: &Entry) -> Result<(), NoMemory>
    requires { is_of_start entry.now ≡ true }
    ensures written { OnOk result (out.new.items ≡ out.old.items ++ joined (entry_words version entry.now)) }
    ensures fits { OnOk result (Fits entry.now) }
{
    match entry {
        Entry::B { who } => push_of_who(out, b"B", who, &[]),
        Entry::O {
            boot,
            until,
            heard,
            now,
        } => {
            push_bytes(out, b"O")?;
            push_numbers(out, &[u64::from(*boot), until.0, heard.0, now.0])
        }
        Entry::X { boot, now, longest } => {
            push_bytes(out, b"X")?;
            push_numbers(out, &[u64::from(*boot), now.0])?;
            push_longest(out, version, *longest)
        }
        _ => Ok(()),
    }
}

// Appends the words of an entry.
fn push_words(out: &mut Vec<u8>, version: u32, entry: &Entry) -> Result<(), NoMemory>
    ensures written { OnOk result (out.new.items ≡ out.old.items ++ joined (entry_words version entry.now)) }
    ensures fits { OnOk result (Fits entry.now) }
{
    match entry {
        Entry::C { .. } | Entry::Z { .. } | Entry::A { .. } => push_of_call(out, entry),
        Entry::W { .. } | Entry::R { .. } => push_of_block(out, entry),
        Entry::S { .. } | Entry::L { .. } => push_of_span(out, entry),
        Entry::G { .. } | Entry::F { .. } => push_of_lease(out, entry),
        Entry::B { .. } | Entry::O { .. } | Entry::X { .. } => push_of_start(out, version, entry),
    }
}

// Appends the line of an entry.
#[tactic(auto, unfolding(nq_script::specs::Words::line, crate::specs::Text::entry_line))]
pub(crate) fn push_line(out: &mut Vec<u8>, version: u32, entry: &Entry) -> Result<(), NoMemory>
    ensures written { OnOk result (out.new.items ≡ out.old.items ++ entry_line version entry.now) }
    ensures fits { OnOk result (Fits entry.now) }
{
    push_words(out, version, entry)?;
    out.push(b'\n')?;
    Ok(())
}
