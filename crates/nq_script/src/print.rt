//! Heads, lines and events, printed.

ghost use Rattle.std.specs.Prelude.{◌≡◌, ◌<◌, ◌^◌, ◌++◌, ◌∷◌, [], ℕ, List, map, codes, IfOk, OnOk};
ghost use Rattle.std.specs.Fmt.{decimal};
ghost use Rattle.nq_script.specs.Calls.{FitsCall, call_words};
ghost use Rattle.nq_script.specs.Heads.{FitsHead, file_line, head_lines, longest_lines};
ghost use Rattle.nq_script.specs.Lines.{HasEvent, FitsEvent, SpellsEvent, event_words, longest_words};
ghost use Rattle.nq_script.specs.Text.{spaced, text_of};

use crate::heads::Head;
use crate::words::{push_bytes, push_command, push_told};
use nq_base::{Call, Event, FileList, Name, NoMemory};
use std::alloc::Global;

/// Appends a word and numbers, with blanks between them.
fn append_words(text: &mut Vec<u8>, word: &[u8], numbers: &[u64]) -> Result<(), NoMemory>
    ensures { OnOk result (text.new.items ≡ text.old.items ++ spaced (word.now ∷ map decimal numbers.now)) }
{
    push_command(text, word, numbers)
}

/// Appends the words of a call.
fn append_call(text: &mut Vec<u8>, call: &Call) -> Result<(), NoMemory>
    ensures written { OnOk result (text.new.items ≡ text.old.items ++ spaced (call_words call.now)) }
    ensures fits { OnOk result (FitsCall call.now) }
{
    push_told(text, &call.told())
}

/// Appends the words of an event.
fn append_event(text: &mut Vec<u8>, event: &Event, version: u32) -> Result<(), NoMemory>
    ensures written { OnOk result (text.new.items ≡ text.old.items ++ spaced (event_words version event.now 1)) }
    ensures fits { OnOk result (FitsEvent event.now) }
{
    match event {
        Event::Call { host, call } => {
            append_words(text, b"call", &[u64::from(host.0)])?;
            push_bytes(text, b" ")?;
            append_call(text, call)
        }
        Event::Deliver(packet) => append_words(text, b"deliver", &[*packet]),
        Event::ServerTick => append_words(text, b"tick s", &[1]),
        Event::ClientTick(host) => append_words(text, b"tick", &[u64::from(host.0), 1]),
        Event::Restart(host) => append_words(text, b"restart", &[u64::from(host.0)]),
        Event::Crash { longest } => append_crash(text, *longest, version),
    }
}

fn append_crash(text: &mut Vec<u8>, longest: u32, version: u32) -> Result<(), NoMemory>
    ensures { OnOk result (text.new.items ≡ text.old.items ++ spaced (codes "crash" ∷ longest_words version longest)) }
{
    if version == 2 {
        append_words(text, b"crash", &[u64::from(longest)])
    } else {
        push_bytes(text, b"crash")
    }
}

/// Appends the line of an event, with its line feed, in a version that can tell it.
pub(crate) fn append_event_line(
    text: &mut Vec<u8>,
    event: &Event,
    version: u32,
) -> Result<(), NoMemory>
    requires has { HasEvent version event.now }
    ensures { OnOk result ((line : List ℕ) × SpellsEvent version event.now line × (text.new.items ≡ text.old.items ++ text_of (line ∷ []))) }
{
    append_event(text, event, version)?;
    push_bytes(text, b"\n")
}

/// The text of a head, from its first line to `begin` with its line feed. The head fits: it has 1 to 64 hosts, in version 1
/// a term of 5 to 60 ticks and the longest term 60, in version 2 terms of 5 to 600 ticks, and at most 256 files of 1 to
/// 1024 blocks, of distinct names and of at most 16,384 blocks together.
pub fn print_head(alloc: Global, head: &Head) -> Result<Vec<u8>, NoMemory>
    requires { FitsHead head.now }
    ensures { IfOk result (λ text. text.items ≡ text_of (head_lines head.now)) }
{
    let mut text = Vec::new(alloc);
    append_line(&mut text, b"nqnfs-schedule", head.version)?;
    append_line(&mut text, b"hosts", head.hosts)?;
    append_line(&mut text, b"term", head.term)?;
    append_longest(&mut text, head.longest, head.version)?;
    append_files(&mut text, &head.files)?;
    push_bytes(&mut text, b"begin\n")?;
    Ok(text)
}

/// Appends a line of a word and a number.
fn append_line(text: &mut Vec<u8>, word: &[u8], number: u32) -> Result<(), NoMemory>
    ensures { OnOk result (text.new.items ≡ text.old.items ++ text_of (spaced (word.now ∷ decimal number ∷ []) ∷ [])) }
{
    append_words(text, word, &[u64::from(number)])?;
    push_bytes(text, b"\n")
}

/// Appends the line of the longest term, where the version has it.
fn append_longest(text: &mut Vec<u8>, longest: u32, version: u32) -> Result<(), NoMemory>
    ensures { OnOk result (text.new.items ≡ text.old.items ++ text_of (longest_lines version longest)) }
{
    if version == 1 {
        Ok(())
    } else {
        append_line(text, b"longest", longest)
    }
}

/// Appends the lines of files.
fn append_files(text: &mut Vec<u8>, files: &FileList) -> Result<(), NoMemory>
    ensures { OnOk result (text.new.items ≡ text.old.items ++ text_of (map file_line files.now)) }
{
    for place in 0..files.len() {
        if let Some((name, length)) = files.get(place) {
            append_file(text, name, length)?;
        }
    }
    Ok(())
}

/// Appends the line of a file.
fn append_file(text: &mut Vec<u8>, name: &Name, blocks: u32) -> Result<(), NoMemory>
    ensures { OnOk result (text.new.items ≡ text.old.items ++ text_of (file_line (name.now, blocks) ∷ [])) }
{
    push_bytes(text, b"file ")?;
    append_words(text, name.as_bytes(), &[u64::from(blocks)])?;
    push_bytes(text, b"\n")
}
