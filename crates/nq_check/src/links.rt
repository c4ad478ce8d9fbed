//! Links from each entry of a journal back to the last one before it that has the same key.

ghost use Rattle.std.specs.Prelude.{◌≡◌, ◌<◌, ◌+◌, [], List, IfOk, OnOk, Some, length};
ghost use Rattle.std.specs.List.{slice_get};
ghost use Rattle.nq_base.specs.declared.Entry.{Entry};
ghost use Rattle.nq_rules.specs.declared.keys.KeyKind.{KeyKind};
ghost use Rattle.nq_check.specs.Links.{IsHeadNext, IsLinked, IsLinkedNext};
ghost use Rattle.nq_rules.specs.Marks.{IsMarked, mark_at};

use nq_base::{Entry, NoMemory};
use nq_rules::keys::{EntryKey, KeyKind, is_member, key_of};
use std::alloc::Global;
use std::collections::HashMap;

/// For each key a place, counted from 1, and 0 where there is none.
pub(crate) type Heads = HashMap<EntryKey, usize>;

/// The links of a kind.
#[derive(Drop)]
pub(crate) struct Links {
    /// The last entry of each key.
    pub(crate) heads: Heads,
    /// For each entry the last one before it that its key leads to. Both are places counted from 1.
    pub(crate) earlier: Vec<usize>,
}

/// The place of the last entry of a key, counted from 1.
pub(crate) fn head_at(heads: &Heads, at: EntryKey) -> usize
    ensures { result ≡ mark_at heads.now.entries at }
{
    heads.get(&at).copied().unwrap_or(0)
}

/// Sets the place of the last entry of a key.
pub(crate) fn set_head(heads: &mut Heads, at: EntryKey, place: usize) -> Result<(), NoMemory>
    ensures { OnOk result (IsMarked at place heads.old.entries heads.new.entries) }
{
    heads.insert(at, place)?;
    Ok(())
}

/// Sets the place of the last entry of a key; the place that it had before.
fn swap_head(heads: &mut Heads, at: EntryKey, place: usize) -> Result<usize, NoMemory>
    ensures before { IfOk result (λ before. before ≡ mark_at heads.old.entries at) }
    ensures marked { OnOk result (IsMarked at place heads.old.entries heads.new.entries) }
{
    let before = heads.insert(at, place)?;
    Ok(before.unwrap_or(0))
}

/// Whether links are followed back from an entry to which they do not lead.
fn asks(kind: KeyKind, entry: &Entry) -> bool {
    match kind {
        KeyKind::Grants | KeyKind::Stores => matches!(entry, Entry::L { .. }),
        KeyKind::Own => matches!(entry, Entry::S { .. } | Entry::L { .. }),
        KeyKind::Calls | KeyKind::Covers | KeyKind::Writes | KeyKind::Cuts => matches!(
            entry,
            Entry::R { .. }
        ),
        KeyKind::Reads | KeyKind::Delays => false,
    }
}

#[tactic(auto, using(crate::proofs::Linking::member_headed, crate::proofs::Linking::asked_headed, crate::proofs::Linking::unasked_headed))]
/// Takes in the entry at a place; its link, which is its own place where nobody follows it.
fn link_head(
    heads: &mut Heads,
    kind: KeyKind,
    place: usize,
    entry: &Entry,
) -> Result<usize, NoMemory>
    requires { place < 18446744073709551615 }
    ensures { IfOk result (IsHeadNext kind place entry.now heads.old.entries heads.new.entries) }
{
    if is_member(kind, entry) {
        let before = swap_head(heads, key_of(kind, entry), place + 1)?;
        return Ok(before);
    }
    if asks(kind, entry) {
        return Ok(head_at(heads, key_of(kind, entry)));
    }
    Ok(place)
}

#[tactic(auto, using(crate::proofs::Linking::head_linked))]
/// Links one more entry.
pub(crate) fn link_entry(
    links: &mut Links,
    kind: KeyKind,
    place: usize,
    entry: &Entry,
) -> Result<(), NoMemory>
    requires { place < 18446744073709551615 }
    ensures { OnOk result (IsLinkedNext kind place entry.now links.old.heads.entries links.new.heads.entries links.old.earlier.items links.new.earlier.items) }
{
    let earlier = link_head(&mut links.heads, kind, place, entry)?;
    links.earlier.push(earlier)?;
    Ok(())
}

#[tactic(auto, using(crate::proofs::Linking::linked_next))]
/// Links the entry at a place of a journal.
pub(crate) fn link_at(
    links: &mut Links,
    kind: KeyKind,
    whole: &[Entry],
    place: usize,
    entry: &Entry,
) -> Result<(), NoMemory>
    requires there { (place < length whole.now) × (slice_get whole.now place ≡ Some entry.now) }
    requires linked { IsLinked kind whole.now place links.old.heads.entries links.old.earlier.items }
    ensures { OnOk result (IsLinked kind whole.now (place + 1) links.new.heads.entries links.new.earlier.items) }
{
    link_entry(links, kind, place, entry)
}

/// No links.
pub(crate) fn no_links(alloc: Global) -> Links
    ensures empty { (result.heads.entries ≡ []) × (result.earlier.items ≡ []) }
    ensures linked { (kind : KeyKind) (whole : List Entry) → IsLinked kind whole 0 result.heads.entries result.earlier.items }
{
    Links {
        heads: HashMap::new(alloc),
        earlier: Vec::new(alloc),
    }
}
