//! Where to look first for what became of a delayed write: what is kept here of places is a hint, and whoever takes it looks at the
//! entry.

ghost use Rattle.std.specs.Prelude.{IfOk};
ghost use Rattle.nq_check.specs.Fronts.{KeepsBelow};
ghost use Rattle.nq_check.specs.Stored.{AreStored};
ghost use Rattle.nq_check.specs.Tables.{AreTables};
ghost use Rattle.nq_check.specs.declared.rules.Rule.{Rule};

use crate::along::is_there;
use crate::covering::{accounted_front, number_key, places_of_writes};
use crate::links::{Heads, head_at};
use crate::stored::find_stored;
use crate::tables::LinkTables;
use nq_base::{Entry, NoMemory, Number, Who};
use nq_rules::entries::covers;
use nq_rules::sought::Sought;
use std::alloc::Global;

/// What became of delayed writes.
#[derive(Drop)]
pub(crate) struct Fates {
    /// For each delayed write the place of an S or L that covers it. Elsewhere there is a place that no entry has.
    covered: Vec<usize>,
    /// For each loss the place of an A that names it, counted from 1.
    pub(crate) named: Heads,
    /// How far the entries account for what they cover.
    pub(crate) accounted: usize,
    /// For each entry whether it is a delayed write that an S covers.
    pub(crate) stored: Vec<bool>,
}

/// The entries of a journal, the links among them, and what became of its delayed writes.
#[derive(Drop)]
pub(crate) struct Linked<'a> {
    pub(crate) whole: &'a [Entry],
    pub(crate) tables: &'a LinkTables,
    pub(crate) fates: &'a Fates,
}

/// The place that stands for none.
const NOWHERE: usize = usize::MAX;

/// How many writes before an S or L are looked at, whatever their numbers are.
const MOST_NEAR: u64 = 64;

/// The place that is kept at another.
pub(crate) fn place_in(places: &Vec<usize>, at: usize) -> usize {
    places.get(at).copied().unwrap_or(NOWHERE)
}

/// Keeps the fate of a write.
fn set_fate(covered: &mut Vec<usize>, at: usize, fate: usize) {
    if at < covered.len() {
        covered[at] = fate;
    }
}

/// The fate that is kept for an entry.
pub(crate) fn fate_at(fates: &Fates, place: usize) -> usize {
    place_in(&fates.covered, place)
}

/// Whether an entry is a write with a number below the first that an S or L covers.
fn is_before(entry: &Entry, covering: &Entry) -> bool {
    match (entry, covering) {
        (Entry::W { number, .. }, Entry::S { first, .. } | Entry::L { first, .. }) => {
            *number < *first
        }
        _ => false,
    }
}

/// The place, counted from 1, of the write with a number, if an entry covers it.
fn covered_at(
    places: &Heads,
    whole: &[Entry],
    who: &Who,
    number: Number,
    entry: &Entry,
) -> Option<usize> {
    let place = head_at(places, number_key(who, number));
    if place < whole.len() && is_there(whole, place, Sought::Covered(entry)) {
        return Some(place + 1);
    }
    None
}

/// The place, counted from 1, of the last write that an S or L covers, whose number is told; of the first one where that is not
/// known, and of the last write of its block before it where neither is.
fn last_covered(
    tables: &LinkTables,
    places: &Heads,
    whole: &[Entry],
    place: usize,
    entry: &Entry,
) -> usize {
    match entry {
        Entry::S {
            who,
            first,
            last,
            ..
        }
        | Entry::L {
            who,
            first,
            last,
            ..
        } => {
            if let Some(at) = covered_at(places, whole, who, *last, entry) {
                return at;
            }
            covered_at(places, whole, who, *first, entry).unwrap_or(place_in(
                &tables.leases.own.earlier,
                place,
            ))
        }
        _ => 0,
    }
}

/// Sets the fate of the writes that an S or L covers, back from a place, counted from 1, to one that has a fate or to a write with
/// a number below the first that is covered.
fn settle(
    covered: &mut Vec<usize>,
    tables: &LinkTables,
    whole: &[Entry],
    from: usize,
    place: usize,
    entry: &Entry,
) {
    let mut at = from;
    while at > 0 {
        let Some(other) = whole.get(at - 1) else {
            return;
        };
        if is_before(other, entry) || place_in(covered, at - 1) != NOWHERE {
            return;
        }
        if covers(entry, other) {
            set_fate(covered, at - 1, place);
        }
        let earlier = place_in(&tables.leases.own.earlier, at - 1);
        if earlier >= at {
            return;
        }
        at = earlier;
    }
}

/// Sets the fate of those that an S or L covers among the last writes of its block, where their numbers need not rise: back from it
/// to one that has a fate, and over no more writes than it has numbers.
fn settle_near(
    covered: &mut Vec<usize>,
    tables: &LinkTables,
    whole: &[Entry],
    numbers: u64,
    place: usize,
    entry: &Entry,
) {
    let mut left = numbers.min(MOST_NEAR);
    let mut at = place_in(&tables.leases.own.earlier, place);
    while left > 0 {
        if at == 0 {
            return;
        }
        let Some(other) = whole.get(at - 1) else {
            return;
        };
        if place_in(covered, at - 1) != NOWHERE {
            return;
        }
        if covers(entry, other) {
            set_fate(covered, at - 1, place);
        }
        at = place_in(&tables.leases.own.earlier, at - 1);
        left -= 1;
    }
}

/// Sets the fate of the writes that an S or L covers.
fn settle_all(
    covered: &mut Vec<usize>,
    tables: &LinkTables,
    places: &Heads,
    whole: &[Entry],
    place: usize,
    entry: &Entry,
) {
    match entry {
        Entry::S { first, last, .. } | Entry::L { first, last, .. } => {
            let from = last_covered(tables, places, whole, place, entry);
            settle(covered, tables, whole, from, place, entry);
            settle_near(
                covered,
                tables,
                whole,
                last.0.saturating_sub(first.0),
                place,
                entry,
            );
        }
        _ => {}
    }
}

/// For each delayed write the place of an S or L that covers it.
fn find_covered(
    alloc: Global,
    tables: &LinkTables,
    places: &Heads,
    whole: &[Entry],
) -> Result<Vec<usize>, NoMemory> {
    let mut covered = Vec::new(alloc);
    for (place, entry) in whole.iter().enumerate() {
        settle_all(&mut covered, tables, places, whole, place, entry);
        covered.push(NOWHERE)?;
    }
    Ok(covered)
}

/// What became of the delayed writes of a journal, whose losses are named at these places.
pub(crate) fn find_fates(
    alloc: Global,
    tables: &LinkTables,
    named: Heads,
    whole: &[Entry],
) -> Result<Fates, NoMemory>
    requires { AreTables whole.now tables.now }
    ensures { IfOk result (λ fates. KeepsBelow Rule.Accounted whole.now fates.accounted × AreStored whole.now fates.stored.items) }
{
    let places = places_of_writes(alloc, whole)?;
    let accounted = accounted_front(alloc, &tables.covers.heads, &places, whole)?;
    let covered = find_covered(alloc, tables, &places, whole)?;
    let stored = find_stored(alloc, tables, &covered, accounted, whole)?;
    Ok(Fates {
        covered,
        named,
        accounted,
        stored,
    })
}
