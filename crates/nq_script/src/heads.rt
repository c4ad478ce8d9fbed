//! The head of a schedule.

ghost use Rattle.std.specs.Prelude.{◌≡◌, ◌≤◌, ◌<◌, ◌+◌, ◌↔◌, ◌≢◌, length, ◌++◌, ◌∷◌, [], ℕ, List, IfSome, IsNone, IsTrue, codes};
ghost use Rattle.std.specs.Option.{option_map};
ghost use Rattle.std.specs.Fmt.{decimal};
ghost use Rattle.nq_base.specs.Name.{IsNew};
ghost use Rattle.nq_script.specs.Heads.{IsFile, FitFiles, FitsHead, AreSettings, blocks_of, file_line, file_lines, head_lines, IsLongest, first_file};
ghost use Rattle.nq_script.specs.Heads.{longest_lines, most_term, settings_lines};
ghost use Rattle.nq_script.specs.Schedule.{StandsInFront, FirstBadHeadLine};
ghost use Rattle.nq_script.specs.declared.heads.Head.{Head};
ghost use Rattle.nq_script.specs.Faults.{Answers};
ghost use Rattle.nq_script.specs.Progress.{WrongFile, NoNumber};
ghost use Rattle.nq_script.specs.Reading.{file_of};
ghost use Rattle.nq_script.specs.Text.{text_of};

use crate::faults::ScriptFault;
use crate::fields::{ranged, rest_after};
use crate::words::cut;
use nq_base::{FileList, Name};
use std::alloc::Global;

/// What a run begins with.
#[derive(Drop)]
pub struct Head {
    /// The version of the text, 1 or 2.
    pub version: u32,
    /// How many hosts there are, 1 to 64.
    pub hosts: u32,
    /// The term that clients want, in ticks: 5 to 60 in version 1, and 5 to 600 in version 2.
    pub term: u32,
    /// The longest term that a server is booted with, in ticks: 60 in version 1, and 5 to 600 in version 2.
    pub longest: u32,
    /// The files that are there, with their lengths in blocks.
    pub files: FileList,
}

/// A head that was read from the front of a text.
#[derive(Drop)]
pub struct HeadOut {
    /// The head.
    pub head: Head,
    /// How many lines it has.
    pub lines: u32,
    /// How many bytes it has, line feeds and all.
    pub bytes: usize,
}

/// The last line of a head.
const BEGIN: &[u8] = b"begin";

/// Reads the head in front of a text, from its first line to `begin`.
///
/// # Errors
///
/// `Bad` with the number of the first line at which the text is outside the grammar.
pub fn parse_head(alloc: Global, lines: &[u8]) -> Result<HeadOut, ScriptFault>
    ensures found { Answers result (λ out. StandsInFront out.head out.lines out.bytes lines.now) (λ number. FirstBadHeadLine lines.now number) }
    ensures only { (head : Head) (rest : List ℕ) → FitsHead head → lines.now ≡ text_of (head_lines head) ++ rest
        → Answers result (λ out. out.head ≡ head) (λ number. ⊥) }
    ensures bad { (number : ℕ) → FirstBadHeadLine lines.now number → Answers result (λ out. ⊥) (λ place. place ≡ number) }
{
    read_head(alloc, lines)
}

fn read_head(alloc: Global, lines: &[u8]) -> Result<HeadOut, ScriptFault>
    ensures { Answers result (λ out. StandsInFront out.head out.lines out.bytes lines.now) (λ number. FirstBadHeadLine lines.now number) }
{
    let (settings, rest) = read_settings(lines)?;
    let first = first_file(settings.version);
    let (files, rest) = read_files(alloc, rest, first)?;
    let count = first + files.len() as u32;
    Ok(HeadOut {
        head: with_files(settings, files),
        lines: count,
        bytes: lines.len() - rest.len(),
    })
}

/// What a head says above its files.
#[derive(Clone, Copy)]
pub(crate) struct Settings {
    version: u32,
    hosts: u32,
    term: u32,
    longest: u32,
}

/// The head of these settings and files.
fn with_files(settings: Settings, files: FileList) -> Head
    ensures { result ≡ record { version = settings.version; hosts = settings.hosts; term = settings.term; longest = settings.longest; files = files } }
{
    Head {
        version: settings.version,
        hosts: settings.hosts,
        term: settings.term,
        longest: settings.longest,
        files,
    }
}

/// The line of the first file, if there is one.
fn first_file(version: u32) -> u32
    ensures { result ≡ first_file version }
{
    if version == 1 { 4 } else { 5 }
}

/// The most ticks of a term in a version.
fn most_term(version: u32) -> u32
    ensures { result ≡ most_term version }
{
    if version == 1 { 60 } else { 600 }
}

/// The settings, and what follows their lines.
fn read_settings(text: &[u8]) -> Result<(Settings, &[u8]), ScriptFault>
    ensures { Answers result (λ p. AreSettings p.0.version p.0.hosts p.0.term p.0.longest
        × (text.now ≡ text_of (settings_lines p.0.version p.0.hosts p.0.term p.0.longest) ++ p.1.now)) (λ number. FirstBadHeadLine text.now number) }
{
    let (version, rest) = ranged_line(text, b"nqnfs-schedule ", 1, 2, 1)?;
    let (hosts, rest) = ranged_line(rest, b"hosts ", 1, 64, 2)?;
    let (term, rest) = ranged_line(rest, b"term ", 5, most_term(version), 3)?;
    let (longest, rest) = read_longest(rest, version)?;
    let settings = Settings {
        version,
        hosts,
        term,
        longest,
    };
    Ok((settings, rest))
}

/// The longest term, which version 2 tells in line 4, and what follows that line.
fn read_longest(text: &[u8], version: u32) -> Result<(u32, &[u8]), ScriptFault>
    ensures { Answers result (λ p. IsLongest version p.0 × (text.now ≡ text_of (longest_lines version p.0) ++ p.1.now)) (λ place. (place ≡ 4) × (version ≢ 1)
        × NoNumber (codes "longest ") 5 600 text.now) }
{
    if version == 1 {
        return Ok((60, text));
    }
    ranged_line(text, b"longest ", 5, 600, 4)
}

/// The number behind the prefix in the first line of the text, which is line `number`, and what follows that line.
fn ranged_line<'a>(
    text: &'a [u8],
    prefix: &[u8],
    least: u32,
    most: u32,
    number: u32,
) -> Result<(u32, &'a [u8]), ScriptFault>
    ensures { Answers result (λ p. (least ≤ p.0) × (p.0 ≤ most) × (text.now ≡ text_of ((prefix.now ++ decimal p.0) ∷ []) ++ p.1.now)) (λ place. (place ≡ number)
        × NoNumber prefix.now least most text.now) }
{
    let Some((line, rest)) = cut(text, b'\n') else {
        return Err(ScriptFault::Bad(number));
    };
    match ranged(line, prefix, least, most) {
        Some(value) => Ok((value, rest)),
        None => Err(ScriptFault::Bad(number)),
    }
}

/// The most files.
const MOST_FILES: usize = 256;

/// The most blocks of all files together.
const MOST_BLOCKS: u32 = 16_384;

/// The files whose lines stand in front, and what follows `begin`. The text begins at line `first`, which is 5 at most.
fn read_files(alloc: Global, text: &[u8], first: u32) -> Result<(FileList, &[u8]), ScriptFault>
    requires { first ≤ 5 }
    ensures { Answers result (λ p. FitFiles p.0 × (text.now ≡ text_of (file_lines p.0) ++ p.1.now)) (λ number. WrongFile first text.now number) }
{
    let mut files = FileList::new(alloc)?;
    let mut total: u32 = 0;
    let mut rest = text;
    'lines: loop {
        let number = first + files.len() as u32;
        let Some((line, after)) = cut(rest, b'\n') else {
            return Err(ScriptFault::Bad(number));
        };
        if line == BEGIN {
            return Ok((files, after));
        }
        let Some((name, length)) = next_file(line, &files, total) else {
            return Err(ScriptFault::Bad(number));
        };
        files.push(name, length)?;
        total += length;
        rest = after;
    }
}

/// The file that the line names, if it fits behind the files, which have so many blocks together.
fn next_file(line: &[u8], files: &FileList, blocks: u32) -> Option<(Name, u32)>
    requires fit { FitFiles files.now }
    requires sum { blocks ≡ blocks_of files.now }
    ensures found { IfSome result (λ f. (line.now ≡ file_line f) × FitFiles (files.now ++ f ∷ [])) }
    ensures none { IsNone result → (f : List ℕ × ℕ) → line.now ≡ file_line f → FitFiles (files.now ++ f ∷ []) → ⊥ }
{
    let Some((name, length)) = read_file(line) else {
        return None;
    };
    if !has_room(files, blocks, length) {
        return None;
    }
    if !is_new(&name, files) {
        return None;
    }
    Some((name, length))
}

/// Whether there is room for one file more, of so many blocks.
fn has_room(files: &FileList, blocks: u32, more: u32) -> bool
    requires { blocks ≤ 16384 }
    ensures { IsTrue result ↔ ((length files.now < 256) × (blocks + more ≤ 16384)) }
{
    files.len() < MOST_FILES && more <= MOST_BLOCKS - blocks
}

/// The file that the line names; None where the line is none of a file.
fn read_file(line: &[u8]) -> Option<(Name, u32)>
    ensures found { IfSome result (λ f. (line.now ≡ file_line f) × IsFile f) }
    ensures none { IsNone result → (f : List ℕ × ℕ) → IsFile f → line.now ≡ file_line f → ⊥ }
{
    let Some((word, length)) = file_words(line) else {
        return None;
    };
    match Name::new(word) {
        Some(name) => Some((name, length)),
        None => None,
    }
}

/// The name and the length in the line of a file, whatever bytes the name has.
#[tactic(auto, unfolding(crate::specs::Reading::file_of))]
fn file_words(line: &[u8]) -> Option<(&[u8], u32)>
    ensures { option_map (λ p. (p.0.now, p.1)) result ≡ file_of line.now }
{
    let words = rest_after(line, b"file ")?;
    let (name, length) = cut(words, b' ')?;
    let blocks = ranged(length, b"", 1, 1024)?;
    Some((name, blocks))
}

/// Whether none of the files has the name.
fn is_new(name: &Name, files: &FileList) -> bool
    ensures { IsTrue result ↔ IsNew name.now files.now }
{
    for place in 0..files.len() {
        if let Some((other, _)) = files.get(place) {
            if other.is(name) {
                return false;
            }
        }
    }
    true
}
