//! Which delayed writes are stored, as it is looked up once for each.

ghost use Rattle.std.specs.Prelude.{◌≡◌, [], ◌∷◌, ◌++◌, IfOk, IfSome, OnOk, Some, reverse};
ghost use Rattle.std.specs.List.{slice_get};
ghost use Rattle.nq_check.specs.Fronts.{AreKnown, KeepsBelow};
ghost use Rattle.nq_check.specs.Stored.{AreStored, is_delayed};
ghost use Rattle.nq_check.specs.Tables.{AreTables};
ghost use Rattle.nq_check.specs.declared.rules.Rule.{Rule};
ghost use Rattle.nq_model.specs.laws.JournalTest.{is_stored};

use crate::along::{is_somewhere, is_there};
use crate::fates::{Linked, fate_at, place_in};
use crate::tables::LinkTables;
use nq_base::{Entry, NoMemory};
use nq_rules::sought::Sought;
use std::alloc::Global;

/// Whether an entry is a delayed write.
fn is_delayed(entry: &Entry) -> bool
    ensures { result ≡ is_delayed entry.now }
{
    match entry {
        Entry::W { through, .. } => !*through,
        _ => false,
    }
}

/// Whether an S covers the write at a place. The entry that is its fate is looked at first: where all entries are known to
/// account for what they cover, no S covers a write that was lost.
fn seek_stored(
    tables: &LinkTables,
    accounted: usize,
    fate: usize,
    whole: &[Entry],
    at: usize,
    write: &Entry,
) -> bool
    requires tables { AreTables whole.now tables.now }
    requires accounted { KeepsBelow Rule.Accounted whole.now accounted }
    requires there { slice_get whole.now at ≡ Some write.now }
    ensures { result ≡ is_stored (reverse whole.now) write.now }
{
    if is_there(whole, fate, Sought::Store(write)) {
        return true;
    }
    if accounted >= whole.len() && is_there(whole, fate, Sought::Loss(write)) {
        return false;
    }
    is_somewhere(&tables.covers, whole, Sought::Store(write))
}

/// Whether the entry at a place is a delayed write that an S covers.
fn is_covered(
    tables: &LinkTables,
    accounted: usize,
    fate: usize,
    whole: &[Entry],
    at: usize,
    entry: &Entry,
) -> bool
    requires tables { AreTables whole.now tables.now }
    requires accounted { KeepsBelow Rule.Accounted whole.now accounted }
    requires there { slice_get whole.now at ≡ Some entry.now }
    ensures { result ≡ is_stored (reverse whole.now) entry.now }
{
    if !is_delayed(entry) {
        return false;
    }
    seek_stored(tables, accounted, fate, whole, at, entry)
}

/// Nothing is told yet.
fn none_told(alloc: Global) -> Vec<bool>
    ensures { result.items ≡ [] }
{
    Vec::new(alloc)
}

/// Keeps what is told of the next place.
fn keep_told(stored: &mut Vec<bool>, told: bool) -> Result<(), NoMemory>
    ensures { OnOk result (stored.new.items ≡ stored.old.items ++ told ∷ []) }
{
    stored.push(told)?;
    Ok(())
}

/// What is told of a place.
fn told_at(stored: &Vec<bool>, at: usize) -> Option<bool>
    ensures { IfSome result (λ told. slice_get stored.now.items at ≡ Some told) }
{
    stored.get(at).copied()
}

/// For each entry whether it is a delayed write that an S covers.
pub(crate) fn find_stored(
    alloc: Global,
    tables: &LinkTables,
    covered: &Vec<usize>,
    accounted: usize,
    whole: &[Entry],
) -> Result<Vec<bool>, NoMemory>
    requires tables { AreTables whole.now tables.now }
    requires accounted { KeepsBelow Rule.Accounted whole.now accounted }
    ensures { IfOk result (λ stored. AreStored whole.now stored.items) }
{
    let mut stored = none_told(alloc);
    for (place, entry) in whole.iter().enumerate() {
        let fate = place_in(covered, place);
        let told = is_covered(tables, accounted, fate, whole, place, entry);
        keep_told(&mut stored, told)?;
    }
    Ok(stored)
}

/// Whether an S covers the write at a place.
pub(crate) fn is_stored(linked: &Linked, at: usize, write: &Entry) -> bool
    requires known { AreKnown linked.now.whole.now linked.now.tables.now linked.now.fates.now }
    requires there { slice_get linked.now.whole.now at ≡ Some write.now }
    ensures { result ≡ is_stored (reverse linked.now.whole.now) write.now }
{
    match told_at(&linked.fates.stored, at) {
        Some(told) => told,
        None => seek_stored(
            linked.tables,
            linked.fates.accounted,
            fate_at(linked.fates, at),
            linked.whole,
            at,
            write,
        ),
    }
}
