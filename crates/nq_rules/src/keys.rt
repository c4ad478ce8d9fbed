//! The keys by which the entries of a journal are found.

ghost use Rattle.std.specs.Prelude.{◌≡◌};
ghost use Rattle.nq_rules.specs.Keys.{call_spot, file_spot, is_member, own_spot, spot_of};
ghost use Rattle.nq_rules.specs.Marks.{same_spot};
ghost use Rattle.nq_rules.specs.declared.keys.KeyKind.TheVariants.{Writes, Cuts};

use nq_base::{BlockNo, Entry, FileId, Who};

/// A key: an incarnation, its host first, and two numbers.
pub type EntryKey = ((u32, u32), (u64, u64));

/// What is found by a key of this kind.
#[derive(Clone, Copy)]
pub enum KeyKind {
    /// The grants to an incarnation on a file.
    Grants,
    /// The S of an incarnation on a file.
    Stores,
    /// The writes of an incarnation to a block.
    Own,
    /// The entries of a call but its reads.
    Calls,
    /// The reads of a call.
    Reads,
    /// The writes of a block.
    Writes,
    /// The S and L of an incarnation on a block.
    Covers,
    /// The Z of a file.
    Cuts,
    /// The delayed writes of an incarnation on a file.
    Delays,
}

/// The key of a call.
pub fn call_key(who: &Who, q: u64) -> EntryKey
    ensures { result ≡ ((who.now.host, who.now.inc), (q, 0)) }
{
    ((who.host.0, who.inc.0), (q, 0))
}

/// The key of a block.
pub fn block_key(file: FileId, block: BlockNo) -> EntryKey
    ensures { result ≡ ((0, 0), (file, block)) }
{
    ((0, 0), (u64::from(file.0), u64::from(block.0)))
}

/// The key of a block as an incarnation's own.
pub fn own_key(who: &Who, file: FileId, block: BlockNo) -> EntryKey
    ensures { result ≡ ((who.now.host, who.now.inc), (file, block)) }
{
    (
        (who.host.0, who.inc.0),
        (u64::from(file.0), u64::from(block.0)),
    )
}

/// The key of a file as an incarnation's own.
pub fn file_key(who: &Who, file: FileId) -> EntryKey
    ensures { result ≡ ((who.now.host, who.now.inc), (file, 0)) }
{
    own_key(who, file, BlockNo(0))
}

/// Whether two keys are one.
pub fn same_key(a: EntryKey, b: EntryKey) -> bool
    ensures { result ≡ same_spot a b }
{
    (a.0.0 == b.0.0 && a.0.1 == b.0.1) && (a.1.0 == b.1.0 && a.1.1 == b.1.1)
}

/// The key of the file that an entry names, as its incarnation's own.
fn file_key_of(entry: &Entry) -> EntryKey
    ensures { result ≡ file_spot entry.now }
{
    match entry {
        Entry::G { who, file, .. }
        | Entry::S { who, file, .. }
        | Entry::L { who, file, .. }
        | Entry::W { who, file, .. } => file_key(who, *file),
        _ => ((0, 0), (0, 0)),
    }
}

/// The key of the block that an entry names, as its incarnation's own.
pub(crate) fn own_key_of(entry: &Entry) -> EntryKey
    ensures { result ≡ own_spot entry.now }
{
    match entry {
        Entry::W {
            who,
            file,
            block,
            ..
        }
        | Entry::R {
            who,
            file,
            block,
            ..
        }
        | Entry::S {
            who,
            file,
            block,
            ..
        }
        | Entry::L {
            who,
            file,
            block,
            ..
        } => own_key(who, *file, *block),
        _ => ((0, 0), (0, 0)),
    }
}

/// The key of an entry of a call.
fn call_key_of(entry: &Entry) -> EntryKey
    ensures { result ≡ call_spot entry.now }
{
    match entry {
        Entry::C { who, q, .. }
        | Entry::R { who, q, .. }
        | Entry::Z { who, q, .. }
        | Entry::A { who, q, .. } => call_key(who, *q),
        _ => ((0, 0), (0, 0)),
    }
}

/// The key of a write among those of its block, and of a read that asks for it.
fn block_key_of(entry: &Entry) -> EntryKey
    ensures { result ≡ spot_of Writes entry.now }
{
    match entry {
        Entry::W { file, block, .. } | Entry::R { file, block, .. } => block_key(*file, *block),
        _ => ((0, 0), (0, 0)),
    }
}

/// The key of a Z, and of a read that asks for it.
fn cut_key(entry: &Entry) -> EntryKey
    ensures { result ≡ spot_of Cuts entry.now }
{
    match entry {
        Entry::Z { file, .. } | Entry::R { file, .. } => block_key(*file, BlockNo(0)),
        _ => ((0, 0), (0, 0)),
    }
}

/// The key of an entry.
pub fn key_of(kind: KeyKind, entry: &Entry) -> EntryKey
    ensures { result ≡ spot_of kind entry.now }
{
    match kind {
        KeyKind::Grants | KeyKind::Stores | KeyKind::Delays => file_key_of(entry),
        KeyKind::Own | KeyKind::Covers => own_key_of(entry),
        KeyKind::Calls | KeyKind::Reads => call_key_of(entry),
        KeyKind::Writes => block_key_of(entry),
        KeyKind::Cuts => cut_key(entry),
    }
}

/// Whether links lead to an entry.
pub fn is_member(kind: KeyKind, entry: &Entry) -> bool
    ensures { result ≡ is_member kind entry.now }
{
    match kind {
        KeyKind::Grants => matches!(entry, Entry::G { .. }),
        KeyKind::Stores => matches!(entry, Entry::S { .. }),
        KeyKind::Own => matches!(entry, Entry::W { .. }),
        KeyKind::Calls => matches!(entry, Entry::C { .. } | Entry::Z { .. } | Entry::A { .. }),
        KeyKind::Reads => matches!(entry, Entry::R { .. }),
        KeyKind::Writes => matches!(entry, Entry::W { .. }),
        KeyKind::Covers => matches!(entry, Entry::S { .. } | Entry::L { .. }),
        KeyKind::Cuts => matches!(entry, Entry::Z { .. }),
        KeyKind::Delays => match entry {
            Entry::W { through, .. } => !*through,
            _ => false,
        },
    }
}
