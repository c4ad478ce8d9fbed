//! Reading entries.

ghost use Rattle.std.specs.Prelude.{◌≡◌, ◌↔◌, ℕ, ◌<◌, ◌^◌, [], ◌∷◌, ◌++◌, codes, option_map, IsTrue, IfSome, IfOk};
ghost use Rattle.nq_base.specs.Plain.{plain};
ghost use Rattle.nq_script.specs.WordsReading.{Takes, words_of};
ghost use Rattle.nq_journal.specs.ReadingEntries.{Spells, kind_of, kind_word, entry_by, entry_of, has, mode_of, mode_at, way_of, way_at, source_at, longest_at};
ghost use Rattle.nq_journal.specs.ReadingEntries.{c_at, w_at, r_at, s_at, l_at, g_at, f_at, o_at, b_at, x_at, z_at, a_at};
ghost use Rattle.nq_journal.specs.Text.{mode_word, way_word, source_words, longest_words, FitsSource, Has};
ghost use Rattle.nq_script.specs.Forms.{HasTold};

use nq_base::{Entry, FileId, KeptCall, Mode, NoMemory, Number, Ticks};
use nq_script::words::{WordCursor, has_told, is, take_said, take_told};
use std::alloc::Global;

// The kinds of entry, by their letters.
#[derive(Clone, Copy)]
pub(crate) enum EntryKind {
    C,
    W,
    R,
    S,
    L,
    G,
    F,
    O,
    B,
    X,
    Z,
    A,
}

// The kind of entry whose letter a word is.
#[tactic(auto, unfolding(crate::specs::ReadingEntries::kind_of))]
fn kind_of(word: &[u8]) -> Option<EntryKind>
    ensures step { result ≡ kind_of word.now }
    ensures found { IfSome result (λ kind. word.now ≡ kind_word kind) }
{
    if is(word, b"C") {
        Some(EntryKind::C)
    } else if is(word, b"W") {
        Some(EntryKind::W)
    } else if is(word, b"R") {
        Some(EntryKind::R)
    } else if is(word, b"S") {
        Some(EntryKind::S)
    } else if is(word, b"L") {
        Some(EntryKind::L)
    } else if is(word, b"G") {
        Some(EntryKind::G)
    } else if is(word, b"F") {
        Some(EntryKind::F)
    } else if is(word, b"O") {
        Some(EntryKind::O)
    } else if is(word, b"B") {
        Some(EntryKind::B)
    } else if is(word, b"X") {
        Some(EntryKind::X)
    } else if is(word, b"Z") {
        Some(EntryKind::Z)
    } else if is(word, b"A") {
        Some(EntryKind::A)
    } else {
        None
    }
}

// The mode that a word names.
#[tactic(auto, unfolding(crate::specs::ReadingEntries::mode_of))]
fn mode_of(word: &[u8]) -> Option<Mode>
    ensures step { result ≡ mode_of word.now }
    ensures found { IfSome result (λ mode. word.now ≡ mode_word mode) }
{
    if is(word, b"noncaching") {
        Some(Mode::NonCaching)
    } else if is(word, b"reading") {
        Some(Mode::Reading)
    } else if is(word, b"writing") {
        Some(Mode::Writing)
    } else {
        None
    }
}

// Takes a mode.
#[tactic(auto, unfolding(crate::specs::ReadingEntries::mode_at))]
fn take_mode(words: &mut WordCursor<'_>) -> Option<Mode>
    ensures step { Takes (λ mode. mode) result words.new (mode_at words.old) }
    ensures found { IfSome result (λ mode. words.old ≡ mode_word mode ∷ words.new) }
{
    mode_of(words.next()?)
}

// Whether a write went through, as a word tells.
#[tactic(auto, unfolding(crate::specs::ReadingEntries::way_of))]
fn way_of(word: &[u8]) -> Option<bool>
    ensures step { result ≡ way_of word.now }
    ensures found { IfSome result (λ way. word.now ≡ way_word way) }
{
    if is(word, b"delayed") {
        Some(false)
    } else if is(word, b"through") {
        Some(true)
    } else {
        None
    }
}

// Takes whether a write went through.
#[tactic(auto, unfolding(crate::specs::ReadingEntries::way_at))]
fn take_way(words: &mut WordCursor<'_>) -> Option<bool>
    ensures step { Takes (λ way. way) result words.new (way_at words.old) }
    ensures found { IfSome result (λ way. words.old ≡ way_word way ∷ words.new) }
{
    way_of(words.next()?)
}

// Takes the reply packet of a read, if the server served it.
#[tactic(auto, unfolding(crate::specs::ReadingEntries::source_at))]
fn take_source(words: &mut WordCursor<'_>) -> Option<Option<u64>>
    ensures step { Takes (λ source. source) result words.new (source_at words.old) }
    ensures found { IfSome result (λ source. (words.old ≡ source_words source ++ words.new) × FitsSource source) }
{
    let word = words.next()?;
    if is(word, b"cached") {
        Some(None)
    } else if is(word, b"served") {
        let packet = words.u64()?;
        Some(Some(packet))
    } else {
        None
    }
}

// Takes the longest term, which version 1 does not tell.
#[tactic(auto, unfolding(crate::specs::ReadingEntries::longest_at))]
fn take_longest(words: &mut WordCursor<'_>, version: u32) -> Option<u32>
    ensures step { Takes (λ longest. longest) result words.new (longest_at version words.old) }
    ensures found { IfSome result (λ longest. (words.old ≡ longest_words version longest ++ words.new) × (longest < 2 ^ 32)) }
{
    if version == 2 { words.u32() } else { Some(60) }
}

#[tactic(auto, unfolding(crate::specs::ReadingEntries::c_at))]
fn take_c(alloc: Global, words: &mut WordCursor<'_>) -> Result<Option<Entry>, NoMemory>
    ensures step { IfOk result (λ entry. Takes plain entry words.new (c_at words.old)) }
    ensures found { (version : ℕ) → IfOk result (λ entry. IfSome entry (λ e. Spells version (codes "C" ∷ words.old) e words.new)) }
{
    let Some(who) = words.who() else {
        return Ok(None);
    };
    let Some(q) = words.u64() else {
        return Ok(None);
    };
    let Some(told) = take_told(words) else {
        return Ok(None);
    };
    let told = KeptCall::new(alloc, &told)?;
    Ok(Some(Entry::C { who, q, told }))
}

#[tactic(auto, unfolding(crate::specs::ReadingEntries::w_at))]
fn take_w(words: &mut WordCursor<'_>) -> Option<Entry>
    ensures step { Takes plain result words.new (w_at words.old) }
    ensures found { (version : ℕ) → IfSome result (λ entry. Spells version (codes "W" ∷ words.old) entry words.new) }
{
    let who = words.who()?;
    let (file, block) = words.place()?;
    let number = Number(words.u64()?);
    let value = words.u32()?;
    let through = take_way(words)?;
    Some(Entry::W {
        who,
        file,
        block,
        number,
        value,
        through,
    })
}

#[tactic(auto, unfolding(crate::specs::ReadingEntries::r_at))]
fn take_r(words: &mut WordCursor<'_>) -> Option<Entry>
    ensures step { Takes plain result words.new (r_at words.old) }
    ensures found { (version : ℕ) → IfSome result (λ entry. Spells version (codes "R" ∷ words.old) entry words.new) }
{
    let who = words.who()?;
    let q = words.u64()?;
    let (file, block) = words.place()?;
    let value = words.u32()?;
    let served = take_source(words)?;
    Some(Entry::R {
        who,
        q,
        file,
        block,
        value,
        served,
    })
}

#[tactic(auto, unfolding(crate::specs::ReadingEntries::s_at))]
fn take_s(words: &mut WordCursor<'_>) -> Option<Entry>
    ensures step { Takes plain result words.new (s_at words.old) }
    ensures found { (version : ℕ) → IfSome result (λ entry. Spells version (codes "S" ∷ words.old) entry words.new) }
{
    let who = words.who()?;
    let (file, block) = words.place()?;
    let first = Number(words.u64()?);
    let last = Number(words.u64()?);
    let now = Ticks(words.u64()?);
    Some(Entry::S {
        who,
        file,
        block,
        first,
        last,
        now,
    })
}

#[tactic(auto, unfolding(crate::specs::ReadingEntries::l_at))]
fn take_l(words: &mut WordCursor<'_>) -> Option<Entry>
    ensures step { Takes plain result words.new (l_at words.old) }
    ensures found { (version : ℕ) → IfSome result (λ entry. Spells version (codes "L" ∷ words.old) entry words.new) }
{
    let who = words.who()?;
    let (file, block) = words.place()?;
    let first = Number(words.u64()?);
    let last = Number(words.u64()?);
    Some(Entry::L {
        who,
        file,
        block,
        first,
        last,
    })
}

#[tactic(auto, unfolding(crate::specs::ReadingEntries::g_at))]
fn take_g(words: &mut WordCursor<'_>) -> Option<Entry>
    ensures step { Takes plain result words.new (g_at words.old) }
    ensures found { (version : ℕ) → IfSome result (λ entry. Spells version (codes "G" ∷ words.old) entry words.new) }
{
    let who = words.who()?;
    let file = FileId(words.u32()?);
    let mode = take_mode(words)?;
    let tag = words.tag()?;
    let term = words.u32()?;
    let now = Ticks(words.u64()?);
    Some(Entry::G {
        who,
        file,
        mode,
        tag,
        term,
        now,
    })
}

#[tactic(auto, unfolding(crate::specs::ReadingEntries::f_at))]
fn take_f(words: &mut WordCursor<'_>) -> Option<Entry>
    ensures step { Takes plain result words.new (f_at words.old) }
    ensures found { (version : ℕ) → IfSome result (λ entry. Spells version (codes "F" ∷ words.old) entry words.new) }
{
    let who = words.who()?;
    let file = FileId(words.u32()?);
    let until = Ticks(words.u64()?);
    let heard = Ticks(words.u64()?);
    let now = Ticks(words.u64()?);
    Some(Entry::F {
        who,
        file,
        until,
        heard,
        now,
    })
}

#[tactic(auto, unfolding(crate::specs::ReadingEntries::o_at))]
fn take_o(words: &mut WordCursor<'_>) -> Option<Entry>
    ensures step { Takes plain result words.new (o_at words.old) }
    ensures found { (version : ℕ) → IfSome result (λ entry. Spells version (codes "O" ∷ words.old) entry words.new) }
{
    let boot = words.u32()?;
    let until = Ticks(words.u64()?);
    let heard = Ticks(words.u64()?);
    let now = Ticks(words.u64()?);
    Some(Entry::O {
        boot,
        until,
        heard,
        now,
    })
}

#[tactic(auto, unfolding(crate::specs::ReadingEntries::b_at))]
fn take_b(words: &mut WordCursor<'_>) -> Option<Entry>
    ensures step { Takes plain result words.new (b_at words.old) }
    ensures found { (version : ℕ) → IfSome result (λ entry. Spells version (codes "B" ∷ words.old) entry words.new) }
{
    let who = words.who()?;
    Some(Entry::B { who })
}

#[tactic(auto, unfolding(crate::specs::ReadingEntries::x_at))]
fn take_x(words: &mut WordCursor<'_>, version: u32) -> Option<Entry>
    ensures step { Takes plain result words.new (x_at version words.old) }
    ensures found { IfSome result (λ entry. Spells version (codes "X" ∷ words.old) entry words.new) }
{
    let boot = words.u32()?;
    let now = Ticks(words.u64()?);
    let longest = take_longest(words, version)?;
    Some(Entry::X { boot, now, longest })
}

#[tactic(auto, unfolding(crate::specs::ReadingEntries::z_at))]
fn take_z(words: &mut WordCursor<'_>) -> Option<Entry>
    ensures step { Takes plain result words.new (z_at words.old) }
    ensures found { (version : ℕ) → IfSome result (λ entry. Spells version (codes "Z" ∷ words.old) entry words.new) }
{
    let who = words.who()?;
    let q = words.u64()?;
    let file = FileId(words.u32()?);
    let from = words.u32()?;
    let to = words.u32()?;
    Some(Entry::Z {
        who,
        q,
        file,
        from,
        to,
    })
}

#[tactic(auto, unfolding(crate::specs::ReadingEntries::a_at))]
fn take_a(alloc: Global, words: &mut WordCursor<'_>) -> Result<Option<Entry>, NoMemory>
    ensures step { IfOk result (λ entry. Takes plain entry words.new (a_at words.old)) }
    ensures found { (version : ℕ) → IfOk result (λ entry. IfSome entry (λ e. Spells version (codes "A" ∷ words.old) e words.new)) }
{
    let Some(who) = words.who() else {
        return Ok(None);
    };
    let Some(q) = words.u64() else {
        return Ok(None);
    };
    let Some(said) = take_said(alloc, words)? else {
        return Ok(None);
    };
    Ok(Some(Entry::A { who, q, said }))
}

// Takes the words of an entry behind its letter.
fn take_entry(
    alloc: Global,
    words: &mut WordCursor<'_>,
    version: u32,
    kind: EntryKind,
) -> Result<Option<Entry>, NoMemory>
    ensures step { IfOk result (λ entry. Takes plain entry words.new (entry_by version kind words.old)) }
    ensures found { IfOk result (λ entry. IfSome entry (λ e. Spells version (kind_word kind ∷ words.old) e words.new)) }
{
    match kind {
        EntryKind::C => take_c(alloc, words),
        EntryKind::W => Ok(take_w(words)),
        EntryKind::R => Ok(take_r(words)),
        EntryKind::S => Ok(take_s(words)),
        EntryKind::L => Ok(take_l(words)),
        EntryKind::G => Ok(take_g(words)),
        EntryKind::F => Ok(take_f(words)),
        EntryKind::O => Ok(take_o(words)),
        EntryKind::B => Ok(take_b(words)),
        EntryKind::X => Ok(take_x(words, version)),
        EntryKind::Z => Ok(take_z(words)),
        EntryKind::A => take_a(alloc, words),
    }
}

// Whether a version has an entry.
pub(crate) fn has(version: u32, entry: &Entry) -> bool
    ensures test { result ≡ has version entry.now }
    ensures has { IsTrue result ↔ Has version entry.now }
{
    match entry {
        Entry::C { told, .. } => has_told(version, &told.told()),
        Entry::Z { .. } => version == 2,
        Entry::X { longest, .. } => version == 2 || *longest == 60,
        _ => true,
    }
}

// The entry that a line spells in a version.
#[tactic(auto, unfolding(crate::specs::ReadingEntries::entry_of))]
pub(crate) fn entry_of(alloc: Global, version: u32, line: &[u8]) -> Result<Option<Entry>, NoMemory>
    ensures step { IfOk result (λ entry. option_map plain entry ≡ entry_of version (words_of line.now)) }
    ensures found { IfOk result (λ entry. IfSome entry (λ e. Spells version (words_of line.now) e [] × Has version e)) }
{
    let mut words = WordCursor::new(line);
    let Some(letter) = words.next() else {
        return Ok(None);
    };
    let Some(kind) = kind_of(letter) else {
        return Ok(None);
    };
    let Some(entry) = take_entry(alloc, &mut words, version, kind)? else {
        return Ok(None);
    };
    if words.is_empty() && has(version, &entry) {
        Ok(Some(entry))
    } else {
        Ok(None)
    }
}
